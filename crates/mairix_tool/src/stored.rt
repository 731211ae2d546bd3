//! A run over a stored index.
ghost use Rattle.std.specs.Prelude.{◌≡◌, ◌<◌, ◌^◌, ◌-◌, ℕ, List, true, false, Some, None, Ok, map, IfOk, IfErr, IfSome};
ghost use Rattle.std.specs.String.{string_bytes};
ghost use Rattle.contract_words.specs.Devices.{Counted};
ghost use Rattle.mail_answer.specs.Asked.{HoldsArchives};
ghost use Rattle.mail_index.specs.Faults.{IsFileOfTable};
ghost use Rattle.mail_index.specs.Tables.{Table};
ghost use Rattle.mail_index.specs.Versions.{newest};
ghost use Rattle.mairix_tool.specs.Asked.{asks, Wanted as Asked, shown_wanted};
ghost use Rattle.mairix_tool.specs.Inside.Answering.{AsksIndex};
ghost use Rattle.run_faults.specs.Faults.{fault_in, is_failed_out, is_failed_archives, IsOfAnswer, IsSearchFault};
ghost use Rattle.mairix_tool.specs.Replies.{CountsFault, KeepsRawBack};
ghost use Rattle.mairix_tool.specs.Searching.{SearchesFor, SearchesStored, VerifiesWhere};
ghost use Rattle.mairix_tool.specs.StoredRuns.{CountsVerified, FailsStored, LeavesUnread, RepliesByMessages};
ghost use Rattle.mairix_tool.specs.Runs.{IsForNoOtherCause, IsIndexRefusal, IsVerifiedAnswer, IsStoredReply, RepliesBy, ReportsProved, WereVerified, is_too_old, renamed_archive, reply_of, unproved_archive};

use crate::reply::Reply;
use crate::view_answer::{answer_view, run_fault_of_answer};
use crate::wanted::Wanted;
use mail_answer::{Archives, verify};
use mail_dates::Moment;
use mail_index::IndexView;
use mbox_cutter::Out;
use run_faults::Fault;
use std::alloc::Global;

/// The version of index files that have neither digests of archives nor names of attachments.
const FIRST_VERSION: u32 = 1;

/// Searches the index file in these bytes, and writes the messages that words and rcfile want, in the order of the
/// index, each once.
///
/// `words` are those after the program's name, `rc` is the rcfile's text, and ages and days without a year count from
/// `now`. Of the archives, their lengths are read, and the messages that are written. With `--verify` the archives are
/// first read through, and proved to have the bytes that were indexed.
///
/// # Errors
///
/// The first refusal counts: of the words, the rcfile, the query, the index; then `OldIndex` if the query uses names of
/// attachments, or the archives are to be verified, and the index has neither names nor digests; then `Stale` if the
/// index has another number of paths than the rcfile, then if it has another path, then if the archives have another
/// number or length than was indexed. With `--verify`, `Stale` also if an archive has another digest, before anything
/// is written. A failed device or lack of memory ends the run where it happens.
pub fn search_run<A: Archives, O: Out>(
    alloc: Global,
    words: &[String],
    rc: &[u8],
    index: &[u8],
    archives: &mut A,
    now: Moment,
    out: &mut O,
) -> Reply
    requires archives { A.failures archives.old < 2 ^ 64 - 1 }
    requires out { O.failures out.old < 2 ^ 64 - 1 }

    // If the archives' bytes are known, and every call agrees with them: the whole reply and its text, by the index's
    // table; or a fault of a device or of memory, and a front of the text.
    ensures reply { (held : List (List ℕ)) → A.held archives.new ≡ Some held
        → RepliesBy (IsStoredReply (asks words.now rc.now now) index.now held) result
        (O.taken out.old) (O.taken out.new) }

    // The reply is by the archives' own messages if the archives are sound, under the rcfile's paths, and the index is
    // theirs, or says the same of them. With `--verify` it is so for the index of any sound archives, unless one of
    // those that there are now is reported as altered.
    ensures by_messages { (bytes : List (List ℕ)) → A.held archives.new ≡ Some bytes
        → RepliesByMessages (asks words.now rc.now now) index.now bytes result
        (O.taken out.old) (O.taken out.new) }

    // Whatever bytes the archives have: an answer has the number of messages that the table chooses. With `--verify`
    // there is one only if the bytes that were read had the lengths and the SHA-256 that were indexed.
    ensures counted { (w : Asked) (t : Table) → asks words.now rc.now now ≡ Ok w
        → IsFileOfTable index.now t
        → CountsVerified t w (A.held archives.new) result (O.taken out.old) (O.taken out.new) }

    // If words, rcfile, query, index, its version or its paths are refused, no archive is read, and nothing is sent. Nor
    // is it if a raw answer finds the archives changed or can't read them.
    ensures unsent { LeavesUnread (asks words.now rc.now now) index.now result.fault
        archives.old archives.new out.old out.new }

    // Whatever bytes the archives have: with `--verify` they are verified first. Then their lengths are read before
    // anything else, and a raw answer reads nothing more. The reply is what that finds. An mbox answer has the bytes of
    // each message, each closed. If a read finds that an archive has ended within a message, that was the last read, and
    // this archive is reported.
    ensures searched { (w : Asked) (t : Table) → asks words.now rc.now now ≡ Ok w
        → IsFileOfTable index.now t
        → SearchesStored A.Archives O.Out w t archives.old archives.new out.old out.new result }

    // A fault of words, rcfile, query, index or its version comes only if that is refused with it. Each fault is one
    // that a search can have, and has its status and no messages.
    ensures cause { FailsStored (asks words.now rc.now now) index.now result }

    // Each device's count rises by one exactly if the device's failure is the result.
    ensures counts { CountsFault A.Archives O.Out result.fault
        archives.old archives.new out.old out.new }

    // What is known of the archives' bytes at the end was known before. Their number is the same, and so are the bytes
    // of which they keep account.
    ensures keeps { HoldsArchives A.Archives archives.old archives.new }
{
    match Wanted::of(alloc, words, rc, now) {
        Ok(wanted) => Reply::of(answer_stored(alloc, index, &wanted, archives, out)),
        Err(fault) => Reply::of(Err(fault)),
    }
}

/// Opens the index, which must fit what is wanted, answers from it, and returns the number of messages.
fn answer_stored<A: Archives, O: Out>(
    alloc: Global,
    index: &[u8],
    wanted: &Wanted,
    archives: &mut A,
    out: &mut O,
) -> Result<u64, Fault>
    requires archives { A.failures archives.old < 2 ^ 64 - 1 }
    requires out { O.failures out.old < 2 ^ 64 - 1 }
    ensures told { (held : List (List ℕ)) → A.held archives.new ≡ Some held
        → RepliesBy (IsStoredReply (Ok (shown_wanted wanted.now)) index.now held) (reply_of result)
        (O.taken out.old) (O.taken out.new) }
    ensures counted { (t : Table) → IsFileOfTable index.now t
        → CountsVerified t (shown_wanted wanted.now) (A.held archives.new) (reply_of result)
        (O.taken out.old) (O.taken out.new) }
    ensures refused { (fault : Fault) → IsIndexRefusal (shown_wanted wanted.now) index.now fault
        → (fault_in result ≡ Some fault) × (archives.new ≡ archives.old) × (out.new ≡ out.old) }
    ensures raw { KeepsRawBack (shown_wanted wanted.now).search (fault_in result) out.old out.new }
    ensures searched { (t : Table) → IsFileOfTable index.now t
        → SearchesStored A.Archives O.Out (shown_wanted wanted.now) t
        archives.old archives.new out.old out.new (reply_of result) }
    ensures no_other_cause { IfSome (reply_of result).fault
        (IsForNoOtherCause (Ok (shown_wanted wanted.now)) index.now) }
    ensures own { IfErr result IsSearchFault }
    ensures counts { CountsFault A.Archives O.Out (fault_in result)
        archives.old archives.new out.old out.new }
    ensures keeps { HoldsArchives A.Archives archives.old archives.new }
{
    let view = open_for(index, wanted)?;
    answer_opened(alloc, &view, wanted, archives, out)
}

/// Answers from the index, and returns the number of messages. With `--verify` the archives are proved first.
fn answer_opened<A: Archives, O: Out>(
    alloc: Global,
    view: &IndexView<'_>,
    wanted: &Wanted,
    archives: &mut A,
    out: &mut O,
) -> Result<u64, Fault>
    requires digests { wanted.now.verify ≡ true → view.now.version ≡ newest }
    requires archives { A.failures archives.old < 2 ^ 64 - 1 }
    requires out { O.failures out.old < 2 ^ 64 - 1 }
    ensures told { (held : List (List ℕ)) → A.held archives.new ≡ Some held
        → RepliesBy (IsVerifiedAnswer (shown_wanted wanted.now) view.now held)
        (reply_of result) (O.taken out.old) (O.taken out.new) }
    ensures counted { CountsVerified view.now (shown_wanted wanted.now) (A.held archives.new)
        (reply_of result) (O.taken out.old) (O.taken out.new) }
    ensures searched { SearchesFor A.Archives O.Out (shown_wanted wanted.now) view.now
        archives.old archives.new out.old out.new (reply_of result) }
    ensures asks { AsksIndex A.Archives O.Out (shown_wanted wanted.now).search
        archives.old archives.new out.old out.new result }
    ensures keeps { HoldsArchives A.Archives archives.old archives.new }
{
    prove_archives(alloc, view, wanted, archives)?;
    answer_view(alloc, view, wanted, archives, out)
}

/// With `--verify`, proves that the archives have the bytes that were indexed. Writes nothing.
fn prove_archives<A: Archives>(
    alloc: Global,
    view: &IndexView<'_>,
    wanted: &Wanted,
    archives: &mut A,
) -> Result<(), Fault>
    requires digests { wanted.now.verify ≡ true → view.now.version ≡ newest }
    requires archives { A.failures archives.old < 2 ^ 64 - 1 }
    ensures keeps { HoldsArchives A.Archives archives.old archives.new }
    ensures proved { IfSome (A.held archives.new) (λ held. ReportsProved
        (unproved_archive wanted.now.verify view.now.archives held) result) }
    ensures read { WereVerified view.now.archives wanted.now.verify (fault_in result) }
    ensures asked { VerifiesWhere A.Archives wanted.now.verify view.now.archives
        archives.old archives.new result }
    ensures own { IfErr result IsOfAnswer }
    ensures archives_failed { Counted (is_failed_archives (fault_in result))
        (A.failures archives.old) (A.failures archives.new) }
    ensures out_failed { is_failed_out (fault_in result) ≡ false }
{
    if !wanted.verify {
        return Ok(());
    }
    verify(alloc, view, archives).map_err(run_fault_of_answer)
}

/// Opens the index. Fails if its bytes aren't an index file, if it lacks what is wanted of it, or if its paths aren't
/// the wanted ones. Takes no memory.
fn open_for<'a>(index: &'a [u8], wanted: &Wanted) -> Result<IndexView<'a>, Fault>
    ensures table { IfOk result (λ view. IsFileOfTable index.entry.now view) }
    ensures fresh { IfOk result (λ view. is_too_old view (shown_wanted wanted.now) ≡ false) }
    ensures paths { IfOk result (λ view.
        renamed_archive view.archives (shown_wanted wanted.now).paths ≡ None) }
    ensures refused { IfErr result (IsIndexRefusal (shown_wanted wanted.now) index.entry.now) }
    ensures each { (fault : Fault) → IsIndexRefusal (shown_wanted wanted.now) index.entry.now fault
        → fault_in result ≡ Some fault }
{
    let view = IndexView::open(index).map_err(Fault::Index)?;
    if is_too_old(&view, wanted) {
        return Err(Fault::OldIndex);
    }
    match renamed(&view, wanted.paths.as_slice()) {
        Some(number) => Err(Fault::Stale(number)),
        None => Ok(view),
    }
}

/// Whether digests of archives or names of attachments are wanted, and the index has neither. Takes no memory.
fn is_too_old(index: &IndexView<'_>, wanted: &Wanted) -> bool
    ensures { result ≡ is_too_old index.now (shown_wanted wanted.now) }
{
    index.version() == FIRST_VERSION && (wanted.verify || wanted.query.uses_names())
}

/// Returns the first archive whose path isn't the one that was indexed; if their numbers differ, the smaller number.
/// Takes no memory.
fn renamed(index: &IndexView<'_>, paths: &[String]) -> Option<u64>
    ensures { result ≡ renamed_archive index.now.archives (map string_bytes paths.now) }
{
    let count = index.archive_count() as usize;
    if paths.len() != count {
        return Some(paths.len().min(count) as u64);
    }
    let mut named = index.archives();
    for (number, path) in paths.iter().enumerate() {
        let Some(archive) = named.next() else {
            unreachable!();
        };
        if archive.path != path.as_str() {
            return Some(number as u64);
        }
    }
    None
}
