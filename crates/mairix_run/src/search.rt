//! A search, and where its answer goes.

ghost use Rattle.std.specs.Prelude.{◌≡◌, ◌⊎◌, ◌<◌, ◌≤◌, ◌+◌, ◌-◌, ◌^◌, ◌&&◌, ◌∷◌, ⊤, ℕ, List, [], true, false, None, Some, Ok, All, length, map, OnOk};
ghost use Rattle.std.specs.Option.{option_map};
ghost use Rattle.mairix_options.specs.AnswerFiles.{answer_file as answer_file_of};
ghost use Rattle.mairix_run.specs.Inside.RunParts.{Ran};
ghost use Rattle.mairix_run.specs.NamesUsed.{both_names};
ghost use Rattle.mairix_run.specs.Stops.{ending_of_result};
ghost use Rattle.mairix_run.specs.Tasks.{files_at, is_index_run, search_task, search_work};
ghost use Rattle.mairix_run.specs.WholeRuns.{WritesWork};
ghost use Rattle.mairix_tool.specs.Asked.{asks};
ghost use Rattle.named_archives.specs.Names.{files_of};
ghost use Rattle.named_archives.specs.Progress.{CannotRead};
ghost use Rattle.named_archives.specs.States.{AreStatesOf, IsInOneOf};
ghost use Rattle.named_files.specs.Entries.{bytes_of};
ghost use Rattle.named_files.specs.FoundStates.{AreFoundOnly};
ghost use Rattle.named_files.specs.AddedReports.{AddsReports};

use crate::asked::Asked;
use crate::content::Content;
use crate::last_flush::flushed;
use crate::names_answer::{Search, answer_names};
use crate::read_names::ReadNames;
use crate::replacement::replace_file;
use crate::run_files::RunFiles;
use crate::stopped::{Stopped, status_or_stopped};
use crate::stream::Stream;
use mbox_cutter::Out;
use named_files::{Folder, KeptFile};
use run_faults::Fault;

/// Searches the archives' files, and returns the status, 0 or 1. The answer goes to `out`, or to the file that words
/// and rcfile name, which then replaces an older answer. An archive's file that isn't in its first state has failed.
/// Without an index the archives are indexed in memory.
///
/// # Errors
///
/// `CannotOpen` if that file can't be made; with nothing touched if it would replace an archive, the rcfile or the
/// index. Otherwise the run's own fault, or that there are more archives than numbers. No file is left then, and an
/// older answer is as it was, unless only the folder of the new one can't be brought to the disk.
pub(crate) fn run_search<F: Folder, O: Stream>(
    files: &mut RunFiles<F>,
    asked: &Asked<'_, F>,
    states: &[<F::File as KeptFile>::State],
    index: Option<&[u8]>,
    out: &mut O,
) -> Result<u8, Stopped>
    requires making { F.making files.old.folder ≡ None }
    requires searches { is_index_run asked.now.plan.now ≡ false }
    requires states { AreStatesOf F.File.state_found F.File.rest
        (map (λ name. bytes_of (F.holds files.old.folder name)) asked.now.rc.now.paths) states.now }
    requires each { length states.now ≡ length asked.now.rc.now.paths }
    requires out { O.failures out.old < 2 ^ 64 - 1 }
    ensures ran { (bytes : List (List ℕ))
        → files_at (F.holds files.old.folder) asked.entry.now.rc.now.paths ≡ Ok bytes
        → F.agree files.new.reports ≡ true → Ran F.Folder O.Out O.handed_on
        (F.agree files.new.reads ≡ true)
        (both_names (answer_file_of asked.entry.now.plan.now asked.entry.now.rc.now))
        (Ok (search_task asked.entry.now.plan.now asked.entry.now.rc.now (search_work
        (asks asked.entry.now.words.now asked.entry.now.text.now asked.entry.now.now)
        (option_map (λ index. index.now) index.entry) bytes)))
        files.old.folder files.new.folder out.old out.new (ending_of_result result) }
    // Whatever is reported: if there is an answer, each archive that was read was found in one of these states.
    ensures in_state { OnOk result (AreFoundOnly (IsInOneOf states.now)
        (F.found files.old.reads) (F.found files.new.reads)) }
    ensures none { F.making files.new.folder ≡ None }
    ensures count { O.failures out.new ≤ O.failures out.old + 1 }
    ensures reports { AddsReports F.Folder files.old.reports files.new.reports }
    ensures reads { AddsReports F.Folder files.old.reads files.new.reads }
{
    let Asked {
        words,
        text,
        now,
        rcfile,
        names,
        ..
    } = *asked;
    let archives = names.archives.as_slice();
    let search = Search {
        alloc: files.alloc,
        words,
        text,
        names: archives,
        states,
        moment: now,
        index,
    };
    match &names.file {
        Some(file) => {
            let read = ReadNames {
                rcfile,
                archives,
                database: Some(&names.database),
            };
            replace_file(files, &search, &read, file)
        }
        None => print_answer(&files.folder, &mut files.reads, &search, out),
    }
}

impl<'a, F: Folder> Content<F> for Search<'a, F> {
    ghost names = { λ search. search.names.now };

    ghost is_writable = { λ _. ⊤ };

    ghost work = { λ search bytes. search_work
        (asks search.words.now search.text.now search.moment)
        (option_map (λ index. index.now) search.index) bytes };

    ghost are_found = { λ search. AreFoundOnly (IsInOneOf search.states.now) };

    /// An answer takes the place of any file.
    fn check_old(
        &self,
        _folder: &F,
        _reports: &mut F::Reports,
        _name: &F::Name,
    ) -> Result<(), Stopped> {
        Ok(())
    }

    fn write<O: Out>(
        &self,
        folder: &F,
        reports: &mut F::Reports,
        out: &mut O,
    ) -> Result<u8, Fault> {
        answer_names(folder, reports, self, out)
    }
}

/// Writes the answer to `out`, and hands on all of it.
fn print_answer<F: Folder, O: Stream>(
    folder: &F,
    reports: &mut F::Reports,
    search: &Search<'_, F>,
    out: &mut O,
) -> Result<u8, Stopped>
    requires { O.failures out.old < 2 ^ 64 - 1 }
    ensures run { (bytes : List (List ℕ))
        → files_of F.Name.text (F.holds folder.now) search.now.names.now ≡ map Some bytes
        → F.agree reports.new ≡ true
        → WritesWork O.Out O.handed_on (CannotRead F.can_refuse F.reads_can_fail)
        (search_work (asks search.now.words.now search.now.text.now search.now.moment)
        (option_map (λ index. index.now) search.now.index) bytes) out.old out.new
        (ending_of_result result) }
    ensures in_state { OnOk result (AreFoundOnly (IsInOneOf search.now.states.now)
        (F.found reports.old) (F.found reports.new)) }
    ensures count { O.failures out.new ≤ O.failures out.old + 1 }
    ensures reports { AddsReports F.Folder reports.old reports.new }
{
    let written = search.write(folder, reports, out);
    status_or_stopped(flushed(written, out))
}
