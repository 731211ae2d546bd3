//! The answer of a search of the archives to which some names lead.
ghost use Rattle.std.specs.Prelude.{◌≡◌, ◌⊎◌, ◌<◌, ◌≤◌, ◌^◌, ◌-◌, ℕ, List, true, None, Some, Ok, length, map, IfSome, OnOk};
ghost use Rattle.std.specs.Result.{MatchResult};
ghost use Rattle.std.specs.String.{string_bytes};
ghost use Rattle.mail_answer.specs.Asked.{HoldsArchives};
ghost use Rattle.mairix_options.specs.declared.rcfile.Rc.{Rc};
ghost use Rattle.mairix_run.specs.Answered.{AnswersBy, AnswersByMessages, FailsWithCauses, IsReplyBy, IsSearchFaultBy, LeavesUnsent, RefusesBeforeReading, SearchesFiles, result_of_reply};
ghost use Rattle.mairix_tool.specs.Asked.{asked_rc, asks};
ghost use Rattle.named_archives.specs.Names.{files_of};
ghost use Rattle.named_archives.specs.Progress.{CannotRead};
ghost use Rattle.named_archives.specs.States.{IsInOneOf};
ghost use Rattle.named_files.specs.AddedReports.{AddsReports};
ghost use Rattle.named_files.specs.FoundStates.{AreFoundOnly};
ghost use Rattle.run_faults.specs.Faults.{fault_in};

use crate::unread::report_lack_of_memory;
use mail_answer::Archives;
use mail_dates::Moment;
use mairix_tool::{Reply, once_run, search_run};
use mbox_cutter::Out;
use named_archives::{NamedArchives, lack_memory, report_all, sources_of};
use named_files::{Folder, KeptFile};
use run_faults::Fault;
use std::alloc::Global;

/// What is searched, and what for.
#[derive(Drop)]
pub struct Search<'a, F: Folder> {
    /// Where memory comes from.
    pub alloc: Global,
    /// The words after the program's name.
    pub words: &'a [String],
    /// The rcfile's text.
    pub text: &'a [u8],
    /// The archives' names, which are the paths of the rcfile.
    pub names: &'a [F::Name],
    /// The state of each archive's file when the run first looked at it.
    pub states: &'a [<F::File as KeptFile>::State],
    /// The moment from which ages, and days without a year, are counted.
    pub moment: Moment,
    /// The stored index; None with `--once`, when the archives are indexed in memory.
    pub index: Option<&'a [u8]>,
    ghost each: { length states.now ≡ length names.now },
    ghost said: { (rc : Rc) → asked_rc (map string_bytes words.now) text.now ≡ Ok rc
        → rc.paths ≡ map F.Name.text names.now },
}

/// Searches the archives to which the paths lead, writes the answer, and returns the status: 0 with messages, 1 without
/// any. What was reported of the files is added to the reports. The output isn't flushed.
///
/// Without a stored index the archives are first indexed in memory. An archive's file that isn't in its first state has
/// failed.
///
/// # Errors
///
/// `TooMany` for 4,294,967,296 paths or more: then no file is opened. Otherwise the first refusal: of words, rcfile,
/// query, index or archives. A failed device or lack of memory ends the run where it happens; then only a beginning of
/// the answer is sent. If memory runs out as an archive is opened, that isn't a failed read.
pub fn answer_names<F: Folder, O: Out>(
    folder: &F,
    reports: &mut F::Reports,
    search: &Search<'_, F>,
    out: &mut O,
) -> Result<u8, Fault>
    requires out { O.failures out.old < 2 ^ 64 - 1 }
    // If each path leads to a file, and all reports agree: without a stored index, the answer is that of these files'
    // messages. With one, it is that of the index over their bytes.
    ensures answers { length search.now.names.now < 2 ^ 32 → (bytes : List (List ℕ))
        → files_of F.Name.text (F.holds folder.now) search.now.names.now ≡ map Some bytes
        → F.agree reports.new ≡ true → AnswersBy (IsReplyBy
        (asks search.now.words.now search.now.text.now search.now.moment) search.now.index bytes)
        result (O.taken out.old) (O.taken out.new) }
    // If these archives are sound, and the index serves for them, the answer is that of their own messages.
    ensures by_messages { IfSome search.now.index (λ index. length search.now.names.now < 2 ^ 32
        → (bytes : List (List ℕ))
        → files_of F.Name.text (F.holds folder.now) search.now.names.now ≡ map Some bytes
        → F.agree reports.new ≡ true
        → AnswersByMessages (asks search.now.words.now search.now.text.now search.now.moment)
        index.now bytes result (O.taken out.old) (O.taken out.new)) }
    // Whatever is reported: what is refused before any archive is read is the fault, unless memory runs out.
    ensures refused { RefusesBeforeReading
        (asks search.now.words.now search.now.text.now search.now.moment) search.now.index
        (length search.now.names.now) result out.old out.new reports.old reports.new }
    ensures ending { MatchResult result (λ status. status ≤ 1)
        (λ fault. length search.now.names.now < 2 ^ 32
        → IsSearchFaultBy search.now.index fault) }
    ensures unsent { LeavesUnsent (asks search.now.words.now search.now.text.now search.now.moment)
        (fault_in result) out.old out.new }
    // A failed read of an archive that is there has a cause. The output's failure is reported, and no other is.
    ensures causes { FailsWithCauses
        (files_of F.Name.text (F.holds folder.now) search.now.names.now)
        (CannotRead F.can_refuse F.reads_can_fail) (fault_in result)
        (O.failures out.old) (O.failures out.new) }
    // Whatever is reported: if there is an answer, each archive that was read was found in one of the first states.
    ensures in_state { OnOk result (AreFoundOnly (IsInOneOf search.now.states.now)
        (F.found reports.old) (F.found reports.new)) }
    ensures reports { AddsReports F.Folder reports.old reports.new }
{
    let Some(mut archives) = NamedArchives::new(folder, search.alloc, search.names, search.states)
    else {
        return Err(Fault::TooMany);
    };
    let Search {
        alloc,
        words,
        text,
        moment,
        ..
    } = *search;
    let archives_read = &mut archives;
    let answered = match search.index {
        Some(index) => result_of(search_run(alloc, words, text, index, archives_read, moment, out)),
        None => answer_once(folder, reports, search, archives_read, out),
    };
    let lacks_memory = archives.lacks_memory();
    archives.report(reports);
    report_lack_of_memory(answered, lacks_memory)
}

/// Indexes the files to which the paths lead, and answers from that index.
fn answer_once<F: Folder, A: Archives, O: Out>(
    folder: &F,
    reports: &mut F::Reports,
    search: &Search<'_, F>,
    archives: &mut A,
    out: &mut O,
) -> Result<u8, Fault>
    requires number { A.number archives.old ≡ length search.now.names.now }
    requires archives { A.failures archives.old < 2 ^ 64 - 1 }
    requires out { O.failures out.old < 2 ^ 64 - 1 }
    ensures searched { SearchesFiles O.Out
        (asks search.now.words.now search.now.text.now search.now.moment) None
        (length search.now.names.now < 2 ^ 32)
        (λ bytes. (files_of F.Name.text (F.holds folder.now) search.now.names.now ≡ map Some bytes)
        × (F.agree reports.new ≡ true) × (A.held archives.new ≡ Some bytes))
        (files_of F.Name.text (F.holds folder.now) search.now.names.now)
        ((A.failures archives.old < A.failures archives.new)
        ⊎ CannotRead F.can_refuse F.reads_can_fail) result out.old out.new }
    ensures held { HoldsArchives A.Archives archives.old archives.new }
    ensures in_state { OnOk result (AreFoundOnly (IsInOneOf search.now.states.now)
        (F.found reports.old) (F.found reports.new)) }
    ensures counts { OnOk result (A.failures archives.new ≡ A.failures archives.old) }
    ensures reports { AddsReports F.Folder reports.old reports.new }
{
    let Search {
        alloc,
        words,
        text,
        names,
        states,
        moment,
        ..
    } = *search;
    let Ok(mut sources) = sources_of(folder, alloc, names, states) else {
        return Err(Fault::Memory);
    };
    let unread = sources.as_mut_slice();
    let reply = once_run(alloc, words, text, unread, archives, moment, out);
    let lacks_memory = lack_memory(sources.as_slice());
    report_all(sources, reports);
    report_lack_of_memory(result_of(reply), lacks_memory)
}

/// Returns the status of a reply, or its fault.
fn result_of(reply: Reply) -> Result<u8, Fault>
    ensures { result ≡ result_of_reply reply }
{
    match reply.fault {
        Some(fault) => Err(fault),
        None => Ok(reply.status),
    }
}
