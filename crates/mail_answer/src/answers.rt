//! Answers in each form.
//!
//! Changed archives are looked for before any memory is taken, because lack of memory would hide them (decision 76 in
//! docs/DECISIONS.md).
ghost use Rattle.std.specs.Prelude.{◌≡◌, ◌<◌, ◌-◌, ◌^◌, ℕ, List, IfSome};
ghost use Rattle.mail_answer.specs.Asked.{HoldsArchives, ReadsInOrder};
ghost use Rattle.mail_answer.specs.Answers.{AnswersStale, CountsFailures, SendsSpans, fails_by};
ghost use Rattle.mail_answer.specs.Faults.{is_of_output, is_of_archives};
ghost use Rattle.mail_answer.specs.Mail.{AreChosen};
ghost use Rattle.mail_answer.specs.Stale.{stale_archive};
ghost use Rattle.mail_answer.specs.TableAnswers.{SendsTableAnswer, IsTableAnswer, LeavesOutput, TableAnswer, mail_of_table, search_of};

use crate::archives::Archives;
use crate::archives::stale::check_archives;
use crate::fault::{AnswerFault, AnswerFaultKind};
use crate::format::Format;
use crate::numbers::Numbers;
use crate::output::answer_writer::AnswerWriter;
use mail_index::IndexView;
use mail_query::Query;
use mbox_cutter::Out;
use std::alloc::Global;

/// Writes an answer of the messages that satisfy a query, or with `threads` of all messages in their threads, in the
/// order of the index, and returns how many there are. A raw answer reads no archive. Without `threads` each message is
/// written as soon as it is found, and no list of them is kept.
///
/// # Errors
///
/// Stale, before anything is written, if there are more or fewer archives than were indexed, or if one of them has
/// another length; Stale too if an archive ends before its length. Other faults come from a device or from lack of
/// memory. A fault has the number of bytes that were written: a front of the whole answer.
pub fn answer<A: Archives, O: Out>(
    alloc: Global,
    index: &IndexView<'_>,
    query: &Query,
    threads: bool,
    format: Format,
    archives: &mut A,
    out: &mut O,
) -> Result<u64, AnswerFault>
    requires archives { A.failures archives.old < 2 ^ 64 - 1 }
    requires out { O.failures out.old < 2 ^ 64 - 1 }
    // What the table answers is written, or a front of it: with its number of messages, whatever the archives hold, and
    // with its text if their bytes are still known at the end or aren't needed.
    ensures answered { (a : TableAnswer)
        → IsTableAnswer index.now (search_of query.now threads format) (A.held archives.new) a
        → SendsTableAnswer (O.taken out.old) (O.taken out.new) a result }
    // An mbox answer has bytes for each message, as many as were indexed, and the LFs that close them, whether the
    // archives' bytes are known or not.
    ensures spans { format ≡ Format.Mbox → (numbers : List ℕ)
        → AreChosen (mail_of_table index.now) (search_of query.now threads format) numbers
        → SendsSpans (O.taken out.old) (O.taken out.new) index.now numbers result }
    // If the archives' bytes are still known at the end: Stale exactly if there are more or fewer archives than were
    // indexed, or one of them has another length, and then nothing is written.
    ensures stale { IfSome (A.held archives.new) (λ bytes.
        AnswersStale (O.taken out.old) (O.taken out.new)
        (stale_archive index.now.archives bytes) result) }
    // If no byte was written and the output didn't fail, it is unchanged; so it is if a raw answer fails because of an
    // archive.
    ensures unsent { LeavesOutput (search_of query.now threads format) out.old out.new result }
    // If the number of archives isn't the one that was indexed, none is read. If it is, the length of each is read
    // before anything else, once and in order. A raw answer reads nothing more of the archives. For the others each
    // message is read from its offset on, for an mbox to its end. If a read finds that its archive has ended, that was
    // the last one, and this archive is stale.
    ensures order { ReadsInOrder A.Archives index.now (search_of query.now threads format)
        archives.old archives.new result }
    // Each device's count of failures rises by one exactly if its failure is returned.
    ensures counts { CountsFailures A.Archives O.Out (fails_by is_of_archives result)
        (fails_by is_of_output result) archives.old archives.new out.old out.new }
    ensures keeps { HoldsArchives A.Archives archives.old archives.new }
{
    // Lack of memory would hide changed archives if the query came first.
    if let Err(kind) = check_archives(index, archives) {
        return Err(AnswerFault::unsent(kind));
    }
    let Ok(mut numbers) = Numbers::chosen(alloc, index, query, threads) else {
        return Err(AnswerFault::unsent(AnswerFaultKind::OutOfMemory));
    };
    AnswerWriter::new(alloc, index, format).write(&mut numbers, archives, out)
}
