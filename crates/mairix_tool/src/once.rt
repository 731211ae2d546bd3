//! A run over archives that it indexes itself.
ghost use Rattle.std.specs.Prelude.{◌≡◌, ◌<◌, ◌^◌, ◌-◌, ℕ, List, false, Some, Ok, length, map, All, IfOk, IfErr};
ghost use Rattle.std.specs.Bool.{OnTrue};
ghost use Rattle.std.specs.String.{string_bytes};
ghost use Rattle.contract_words.specs.Knowledge.{AreStillKnown};
ghost use Rattle.mail_answer.specs.Asked.{HoldsArchives};
ghost use Rattle.mail_index.specs.Tables.{IsPath};
ghost use Rattle.mairix_tool.specs.Asked.{asked_rc, asks, Wanted as Asked, shown_wanted};
ghost use Rattle.index_job.specs.ArchiveTables.{table};
ghost use Rattle.index_run.specs.ArchivesIndexed.{mboxes};
ghost use Rattle.index_run.specs.Counts.{CountsSources};
ghost use Rattle.index_run.specs.SourcesStay.{SourcesStay};
ghost use Rattle.run_faults.specs.Faults.{fault_in, is_early, is_of_indexing, IsOnceFault};
ghost use Rattle.mairix_tool.specs.OnceRuns.{CountsOnce, FailsOnce, KeepsOnce, LeavesUnused};
ghost use Rattle.mairix_tool.specs.Replies.{AreSoundBefore, CountsFault, KeepsRawBack};
ghost use Rattle.mairix_tool.specs.Searching.{IndexesAndSearches};
ghost use Rattle.mairix_tool.specs.Runs.{IsCountedWhere, IsReply, IsOnceReply, RepliesBy, reply_of};

use crate::reply::Reply;
use crate::view_answer::answer_view;
use crate::wanted::Wanted;
use index_run::file_of_archives;
use mail_answer::Archives;
use mail_dates::Moment;
use mail_index::IndexView;
use mbox_cutter::{Out, Source};
use run_faults::Fault;
use std::alloc::Global;

/// Indexes the archives from their sources in memory, and writes the messages that words and rcfile want: those whose
/// own decoded text satisfies the query, or with `-t` all of their threads, in the order of archive and offset, each
/// once.
///
/// `words` are those after the program's name, `rc` is the rcfile's text, and ages and days without a year count from
/// `now`. If words and rcfile are accepted, there are as many sources, and as many archives, as the rcfile has paths.
/// The archives are read after the sources are indexed.
///
/// # Errors
///
/// The first refusal counts: of the words, the rcfile, the query, then of the first faulty archive, then `Stale` if the
/// archives have other lengths than were indexed. A failed device or lack of memory ends the run where it happens.
pub fn once_run<S: Source, A: Archives, O: Out>(
    alloc: Global,
    words: &[String],
    rc: &[u8],
    sources: &mut [S],
    archives: &mut A,
    now: Moment,
    out: &mut O,
) -> Reply
    requires many { IfOk (asked_rc (map string_bytes words.now) rc.now)
        (λ r. (length r.paths ≡ length sources.old)
        × (A.number archives.old ≡ length sources.old)) }
    requires sources { All (λ s. S.failures s < 2 ^ 64 - 1) sources.old }
    requires archives { A.failures archives.old < 2 ^ 64 - 1 }
    requires out { O.failures out.old < 2 ^ 64 - 1 }

    // If sources and archives have the same known bytes, and every call agrees with them: the whole reply and its text,
    // by the messages themselves; or a fault of a device or of memory, and a front of the text.
    ensures reply { (bytes : List (List ℕ))
        → AreStillKnown (map S.rest sources.old) (map S.rest sources.new) bytes
        → A.held archives.new ≡ Some bytes
        → RepliesBy (IsReply (asks words.now rc.now now) bytes) result
        (O.taken out.old) (O.taken out.new) }

    // If the archives have other bytes than were indexed: the answer of the table of the indexed bytes, over these.
    ensures changed { (bytes held : List (List ℕ))
        → AreStillKnown (map S.rest sources.old) (map S.rest sources.new) bytes
        → A.held archives.new ≡ Some held
        → RepliesBy (IsOnceReply (asks words.now rc.now now) bytes held) result
        (O.taken out.old) (O.taken out.new) }

    // Whatever bytes the archives have: the number of messages is that of the messages that the table of the indexed
    // bytes chooses.
    ensures counted { (w : Asked) (bytes : List (List ℕ)) → asks words.now rc.now now ≡ Ok w
        → AreStillKnown (map S.rest sources.old) (map S.rest sources.new) bytes
        → IsCountedWhere (table (mboxes w.paths bytes)) w.search (A.held archives.new)
        result.fault result (O.taken out.old) (O.taken out.new) }

    // No device is used if words, rcfile or query are refused. If the archives aren't indexed, nothing is searched, and
    // nothing is sent. Nor is it if a raw answer finds them changed or can't read them.
    ensures unsent { LeavesUnused (asks words.now rc.now now) result.fault
        sources.old sources.new archives.old archives.new out.old out.new }

    // Whatever bytes sources and archives have: after the sources are indexed, the archives' lengths are read, before
    // anything else, and a raw answer reads nothing more. The reply is what that finds. An mbox answer has the bytes of
    // each message, each closed. If a read finds that an archive has ended within a message, that was the last read, and
    // this archive is reported.
    ensures searched { (w : Asked) → asks words.now rc.now now ≡ Ok w
        → IndexesAndSearches A.Archives O.Out w (map S.rest sources.old)
        (map S.rest sources.new) archives.old archives.new out.old out.new result }

    // A refusal of words, rcfile or query is the result whatever the devices do, unless memory runs out. If the fault is
    // one of an archive, no archive before it has one. Each fault is one that such a run can have, and has its status and
    // no messages.
    ensures cause { FailsOnce (asks words.now rc.now now) (map S.rest sources.old)
        (map S.rest sources.new) result }

    // Each device's count rises by one exactly if the device's failure is the result.
    ensures counts { CountsOnce S.Source A.Archives O.Out result.fault
        sources.old sources.new archives.old archives.new out.old out.new }

    // Each source is still what it was. What is known of the archives' bytes at the end was known before.
    ensures keeps { KeepsOnce S.Source A.Archives result.fault
        sources.old sources.new archives.old archives.new }
{
    match Wanted::of(alloc, words, rc, now) {
        Ok(wanted) => Reply::of(answer_indexed(alloc, &wanted, sources, archives, out)),
        Err(fault) => Reply::of(Err(fault)),
    }
}

/// Indexes the wanted archives in memory, answers from that index, and returns the number of messages.
fn answer_indexed<S: Source, A: Archives, O: Out>(
    alloc: Global,
    wanted: &Wanted,
    sources: &mut [S],
    archives: &mut A,
    out: &mut O,
) -> Result<u64, Fault>
    requires many { length (shown_wanted wanted.now).paths ≡ length sources.old }
    requires paths { All IsPath (shown_wanted wanted.now).paths }
    requires sources { All (λ s. S.failures s < 2 ^ 64 - 1) sources.old }
    requires archives { A.failures archives.old < 2 ^ 64 - 1 }
    requires out { O.failures out.old < 2 ^ 64 - 1 }
    ensures told { (bytes held : List (List ℕ))
        → AreStillKnown (map S.rest sources.old) (map S.rest sources.new) bytes
        → A.held archives.new ≡ Some held
        → RepliesBy (IsOnceReply (Ok (shown_wanted wanted.now)) bytes held) (reply_of result)
        (O.taken out.old) (O.taken out.new) }
    ensures counted { (bytes : List (List ℕ))
        → AreStillKnown (map S.rest sources.old) (map S.rest sources.new) bytes
        → IsCountedWhere (table (mboxes (shown_wanted wanted.now).paths bytes))
        (shown_wanted wanted.now).search (A.held archives.new) (reply_of result).fault
        (reply_of result) (O.taken out.old) (O.taken out.new) }
    ensures searched { IndexesAndSearches A.Archives O.Out (shown_wanted wanted.now)
        (map S.rest sources.old) (map S.rest sources.new)
        archives.old archives.new out.old out.new (reply_of result) }
    ensures first { (bytes : List (List ℕ))
        → AreStillKnown (map S.rest sources.old) (map S.rest sources.new) bytes
        → AreSoundBefore (Ok (shown_wanted wanted.now)) bytes (fault_in result) }
    ensures keeps { HoldsArchives A.Archives archives.old archives.new }
    ensures stays { SourcesStay S.Source (fault_in result) sources.old sources.new }
    ensures early { is_early (fault_in result) ≡ false }
    ensures silent { OnTrue (is_of_indexing (fault_in result))
        ((archives.new ≡ archives.old) × (out.new ≡ out.old)) }
    ensures raw { KeepsRawBack (shown_wanted wanted.now).search (fault_in result) out.old out.new }
    ensures own { IfErr result IsOnceFault }
    ensures source_failed { CountsSources (fault_in result)
        (map S.failures sources.old) (map S.failures sources.new) }
    ensures counts { CountsFault A.Archives O.Out (fault_in result)
        archives.old archives.new out.old out.new }
{
    let file = file_of_archives(alloc, wanted.paths.as_slice(), sources)?;
    let index = IndexView::of_file(file.bytes());
    answer_view(alloc, &index, wanted, archives, out)
}
