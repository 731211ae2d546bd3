//! A whole run.

ghost use Rattle.std.specs.Prelude.{◌≡◌, ◌≢◌, ◌⊎◌, ◌<◌, ◌≤◌, ◌+◌, ◌-◌, ◌^◌, ◌∷◌, ◌++◌, ℕ, List, true, false, None, Some, Ok, Err, All, length, map, vec_len, IfErr, OnOk, OnErr, IfOk, string_bytes};
ghost use Rattle.mail_index.specs.Tables.{IsPath};
ghost use Rattle.mairix_options.specs.AnswerFiles.{answer_file};
ghost use Rattle.mairix_options.specs.CommandLine.{plan as plan_asked};
ghost use Rattle.mairix_run.specs.AskedNames.{AsksFor, AsksOnlyFor};
ghost use Rattle.mairix_run.specs.FirstStates.{OnAnswer};
ghost use Rattle.mairix_run.specs.NamesUsed.{names_asked, names_of_plan, names_of_words, names_planned, names_used, both_names};
ghost use Rattle.mairix_run.specs.Reports.{ReportsEnding};
ghost use Rattle.mairix_run.specs.Stops.{Ending, ending_of_result, ending_of_stopped};
ghost use Rattle.mairix_run.specs.Tasks.{files_at, is_index_run, search_stored_task, task_of, task_of_plan, task_of_rc};
ghost use Rattle.mairix_run.specs.Inside.RunParts.{Ran};
ghost use Rattle.mairix_run.specs.WholeRuns.{CallsFor, IsTrouble, RunLeaves, Runs, file_made, is_left_alone, names_kept};
ghost use Rattle.mairix_tool.specs.Asked.{wanted_of_words, asks};
ghost use Rattle.named_archives.specs.Names.{files_of};
ghost use Rattle.named_archives.specs.States.{AreStatesOf, IsInOneOf, noted_states};
ghost use Rattle.named_files.specs.Crashes.{LeavesOnly};
ghost use Rattle.named_files.specs.Entries.{SameWhere, bytes_of};
ghost use Rattle.named_files.specs.FoundStates.{AreFoundOnly, AreReadInFirstStates};
ghost use Rattle.named_files.specs.AddedReports.{AddsReports};

use crate::asked::Asked;
use crate::command::Command;
use crate::ending_report::report_ending;
use crate::file_names::names_of_files;
use crate::named_file::{Reading, read_named};
use crate::new_index::NewIndex;
use crate::read_names::ReadNames;
use crate::replacement::replace_file;
use crate::run_files::RunFiles;
use crate::search::run_search;
use crate::stopped::Stopped;
use crate::stream::Stream;
use crate::streams::Streams;
use crate::texts::Texts;
use mairix_options::{Plan, plan_of, read_rc};
use mbox_cutter::Out;
use named_archives::{Unopened, first_states};
use named_files::{FileName, Folder, KeptFile, Refusal};
use run_faults::Fault;
use std::alloc::Global;

/// Runs the words after the program's name over the files that they name, and returns the exit status.
///
/// Without a pattern and without `--once`, the archives are indexed into the rcfile's `database`. Otherwise they are
/// searched by the index in `database`; with `--verify` only if they are proved to be those that were indexed. With
/// `--once` they are searched by an index that is made in memory, whatever `--verify` says. An mbox goes to the file
/// that words and rcfile name, in place of an older answer, unless `--stdout` is given; any other answer goes to `out`.
///
/// A fault is written to `err` as one line, `mairix: ` and its text. If the parser refuses the words, its own text is
/// written instead, which for help and version goes to `out`. The first file that can't be opened, read or made ends
/// the run, before the query is read.
///
/// What was reported as the archives were read is added to `reads`, and all else that was reported to `reports`: what
/// names lead to, the rcfile, the index, and the first look at each archive.
///
/// The status is 0 with messages or a new index, and 1 without a message. It is 2 if words, rcfile or query are
/// refused, and 3 if the index is refused or isn't that of the archives. It is 4 if a file can't be opened, read, made
/// or renamed, if the output failed, or if an archive is no mbox. It is 5 if memory runs out, or if there are too many
/// messages or keys, or an archive is too long.
#[tactic(auto, using(crate::proofs::AskedNames::asks_only))]
pub fn run_program<F: Folder, T: Texts, O: Stream, E: Out>(
    files: &mut RunFiles<F>,
    names: &mut F::Names,
    texts: &T,
    command: &Command<'_>,
    streams: &mut Streams<O, E>,
) -> u8
    requires making { F.making files.old.folder ≡ None }
    requires out { O.failures streams.old.out < 2 ^ 64 - 2 }
    requires err { E.failures streams.old.err < 2 ^ 64 - 1 }
    // It reports how it ended, and returns the status of that. If what was reported agrees with what the files hold, it
    // did what words, rcfile and files ask for, or ended by the first refusal, or in trouble with one of the names that
    // it uses; and calls that fit this ending have changed files, in this order, and no other. What is said of its text,
    // or of the fault of its work, holds if all reads agree too. Whatever was reported: a search that has an answer read
    // each archive only in a state in which it first found one.
    ensures run { (ended : Ending) × (printed : O)
        × ReportsEnding O.Out O.handed_on E.Out
        (T.is_usage_text texts.now (map string_bytes command.now.words.now)) T.memory_can_run_out
        ended
        result printed streams.new.out streams.old.err streams.new.err
        × (F.agree files.new.reports ≡ true
        → Runs F.Folder O.Out O.handed_on (F.agree files.new.reads ≡ true)
        (names_used (F.holds files.old.folder)
        (plan_asked (map string_bytes command.now.words.now)))
        (task_of (F.holds files.old.folder) (map string_bytes command.now.words.now)
        command.now.moment) files.old.folder files.new.folder
        streams.old.out printed ended
        × CallsFor F.Folder (file_made
        (task_of (F.holds files.old.folder) (map string_bytes command.now.words.now)
        command.now.moment)) ended
        files.old.folder files.new.folder)
        × OnAnswer (plan_asked (map string_bytes command.now.words.now)) ended
        (AreReadInFirstStates (F.found files.old.reports) (F.found files.new.reports)
        (F.found files.old.reads) (F.found files.new.reads)) }
    // Each file that is read is as it was, and so is each other one, but for the one that is made.
    ensures read { F.agree files.new.reports ≡ true
        → All (λ n. F.holds files.new.folder n ≡ F.holds files.old.folder n) (names_kept
        (task_of (F.holds files.old.folder) (map string_bytes command.now.words.now)
        command.now.moment)) }
    ensures alone { F.agree files.new.reports ≡ true
        → SameWhere (is_left_alone (F.apart files.old.folder)
        (file_made (task_of (F.holds files.old.folder) (map string_bytes command.now.words.now)
        command.now.moment)))
        (F.holds files.old.folder) (F.holds files.new.folder) }
    // A crash at any moment leaves under the name of that file the old one, or the whole new one.
    ensures any_moment { F.agree files.new.reports ≡ true
        → LeavesOnly F.moment F.left_since files.old.folder files.new.folder
        (RunLeaves (F.apart files.old.folder) (F.may_leave files.old.folder)
        (F.agree files.new.reads ≡ true)
        (task_of (F.holds files.old.folder) (map string_bytes command.now.words.now)
        command.now.moment)) }
    ensures none { F.making files.new.folder ≡ None }
    ensures reports { AddsReports F.Folder files.old.reports files.new.reports }
    ensures reads { AddsReports F.Folder files.old.reads files.new.reads }
    // Whatever is reported: as long as all of it agrees, only names of the words and of the rcfile are made. No other name
    // is looked at, opened, made, renamed or removed.
    ensures named { AsksOnlyFor
        (names_of_words (F.holds files.old.folder)
        (plan_asked (map string_bytes command.now.words.now)))
        (F.made names.old) (F.made names.new) }
{
    let ended = run_words(files, names, command, &mut streams.out);
    report_ending(files.alloc, texts, command.words, ended, streams)
}

/// Runs the words, and returns the status unless the run was stopped.
#[tactic(auto, using(crate::proofs::AskedNames::asks_none))]
fn run_words<F: Folder, O: Stream>(
    files: &mut RunFiles<F>,
    names: &mut F::Names,
    command: &Command<'_>,
    out: &mut O,
) -> Result<u8, Stopped>
    requires making { F.making files.old.folder ≡ None }
    requires out { O.failures out.old < 2 ^ 64 - 1 }
    ensures asked { AsksFor
        (names_of_words (F.holds files.old.folder)
        (plan_asked (map string_bytes command.now.words.now)))
        (F.agree files.old.reports) (F.made names.old) (F.made names.new) }
    ensures ran { F.agree files.new.reports ≡ true → Ran F.Folder O.Out O.handed_on
        (F.agree files.new.reads ≡ true)
        (names_used (F.holds files.old.folder)
        (plan_asked (map string_bytes command.now.words.now)))
        (task_of (F.holds files.old.folder) (map string_bytes command.now.words.now)
        command.now.moment)
        files.old.folder files.new.folder out.old out.new (ending_of_result result) }
    ensures in_state { OnAnswer (plan_asked (map string_bytes command.now.words.now))
        (ending_of_result result)
        (AreReadInFirstStates (F.found files.old.reports) (F.found files.new.reports)
        (F.found files.old.reads) (F.found files.new.reads)) }
    ensures none { F.making files.new.folder ≡ None }
    ensures count { O.failures out.new ≤ O.failures out.old + 1 }
    ensures reports { AddsReports F.Folder files.old.reports files.new.reports }
    ensures reads { AddsReports F.Folder files.old.reads files.new.reads }
{
    let plan = match plan_of(files.alloc, command.words) {
        Ok(plan) => plan,
        Err(given) => return Err(given.into()),
    };
    run_plan(files, names, command, &plan, out)
}

/// Reads the rcfile, and does what it and the words ask for.
fn run_plan<F: Folder, O: Stream>(
    files: &mut RunFiles<F>,
    names: &mut F::Names,
    command: &Command<'_>,
    plan: &Plan,
    out: &mut O,
) -> Result<u8, Stopped>
    requires planned { plan_asked (map string_bytes command.now.words.now) ≡ Ok plan.now }
    requires making { F.making files.old.folder ≡ None }
    requires out { O.failures out.old < 2 ^ 64 - 1 }
    ensures asked { AsksFor (names_of_plan (F.holds files.old.folder) plan.now)
        (F.agree files.old.reports)
        (F.made names.old) (F.made names.new) }
    ensures ran { F.agree files.new.reports ≡ true → Ran F.Folder O.Out O.handed_on
        (F.agree files.new.reads ≡ true)
        (names_planned (F.holds files.old.folder) plan.now)
        (task_of_plan (F.holds files.old.folder) (map string_bytes command.now.words.now)
        command.now.moment plan.now)
        files.old.folder files.new.folder out.old out.new (ending_of_result result) }
    ensures in_state { is_index_run plan.now ≡ false → OnOk result
        (AreReadInFirstStates (F.found files.old.reports) (F.found files.new.reports)
        (F.found files.old.reads) (F.found files.new.reads)) }
    ensures none { F.making files.new.folder ≡ None }
    ensures count { O.failures out.new ≤ O.failures out.old + 1 }
    ensures reports { AddsReports F.Folder files.old.reports files.new.reports }
    ensures reads { AddsReports F.Folder files.old.reads files.new.reads }
{
    let alloc = files.alloc;
    let path = plan.rcfile.as_str();
    let rcfile = files.folder.name(alloc, names, &files.reports, path)?;
    let text = read_named(
        &files.folder,
        alloc,
        &mut files.reports,
        &rcfile,
        Reading::Whole,
    );
    let text = match Stopped::or_stopped(alloc, rcfile.as_str(), text) {
        Ok(text) => text,
        Err(stopped) => return Err(stopped),
    };
    let rc = match read_rc(alloc, text.as_slice()) {
        Ok(rc) => rc,
        Err(given) => return Err(given.into()),
    };
    let made = names_of_files(files, names, plan, &rc)?;
    let asked = Asked {
        words: command.words,
        plan,
        text: text.as_slice(),
        rc: &rc,
        now: command.moment,
        rcfile: &rcfile,
        names: &made,
    };
    run_asked(files, &asked, out)
}

/// Indexes the archives, or searches them. Each archive has to be there.
fn run_asked<F: Folder, O: Stream>(
    files: &mut RunFiles<F>,
    asked: &Asked<'_, F>,
    out: &mut O,
) -> Result<u8, Stopped>
    requires paths { All IsPath asked.now.rc.now.paths }
    requires making { F.making files.old.folder ≡ None }
    requires out { O.failures out.old < 2 ^ 64 - 1 }
    ensures ran { F.agree files.new.reports ≡ true → Ran F.Folder O.Out O.handed_on
        (F.agree files.new.reads ≡ true)
        (names_asked asked.entry.now.plan.now asked.entry.now.rc.now)
        (task_of_rc (F.holds files.old.folder)
        (asks asked.entry.now.words.now asked.entry.now.text.now asked.entry.now.now)
        asked.entry.now.plan.now asked.entry.now.rc.now)
        files.old.folder files.new.folder out.old out.new (ending_of_result result) }
    ensures in_state { is_index_run asked.entry.now.plan.now ≡ false → OnOk result
        (AreReadInFirstStates (F.found files.old.reports) (F.found files.new.reports)
        (F.found files.old.reads) (F.found files.new.reads)) }
    ensures none { F.making files.new.folder ≡ None }
    ensures count { O.failures out.new ≤ O.failures out.old + 1 }
    ensures reports { AddsReports F.Folder files.old.reports files.new.reports }
    ensures reads { AddsReports F.Folder files.old.reads files.new.reads }
{
    let Asked {
        plan,
        rc,
        rcfile,
        names,
        ..
    } = *asked;
    let archives = names.archives.as_slice();
    let states = match states_of(&files.folder, files.alloc, &mut files.reports, archives) {
        Ok(states) => states,
        Err(stopped) => return Err(stopped),
    };
    if is_index_run(plan) {
        let Some(file) = &names.file else {
            unreachable!();
        };
        let index = NewIndex {
            alloc: files.alloc,
            paths: rc.paths.as_slice(),
            names: archives,
        };
        let read = ReadNames {
            rcfile,
            archives,
            database: None,
        };
        return replace_file(files, &index, &read, file);
    }
    let states = states.as_slice();
    if plan.once {
        return run_search(files, asked, states, None, out);
    }
    search_stored(files, asked, states, out)
}

/// Whether a run makes an index: it does without a pattern and without `--once`.
pub(crate) fn is_index_run(plan: &Plan) -> bool
    ensures { result ≡ is_index_run plan.now }
{
    plan.patterns.as_slice().is_empty() && !plan.once
}

/// Returns the first states of the archives' files. The run is stopped at the first archive that can't be opened.
fn states_of<F: Folder>(
    folder: &F,
    alloc: Global,
    reports: &mut F::Reports,
    names: &[F::Name],
) -> Result<Vec<<F::File as KeptFile>::State>, Stopped>
    ensures ok { OnOk result (F.agree reports.new ≡ true → (bytes : List (List ℕ))
        × (files_at (F.holds folder.now) (map F.Name.text names.now) ≡ Ok bytes)) }
    ensures states { IfOk result (λ states. AreStatesOf F.File.state_found F.File.rest
        (files_of F.Name.text (F.holds folder.now) names.now) states.items) }
    ensures count { IfOk result (λ states. vec_len states ≡ length names.now) }
    ensures found { IfOk result (λ states. F.found reports.new
        ≡ noted_states states.items ++ F.found reports.old) }
    ensures err { IfErr result (λ stopped. F.agree reports.new ≡ true
        → (files_at (F.holds folder.now) (map F.Name.text names.now)
        ≡ Err (ending_of_stopped stopped))
        ⊎ IsTrouble (map F.Name.text names.now) F.can_refuse F.reads_can_fail
        (ending_of_stopped stopped)) }
    ensures reports { AddsReports F.Folder reports.old reports.new }
{
    match first_states(folder, alloc, reports, names) {
        Ok(states) => Ok(states),
        Err(Unopened { number, why }) => match why {
            Refusal::Refused => Err(Stopped::cannot_open(alloc, names[number].as_str())),
            Refusal::Memory => Err(Stopped::Fault(Fault::Memory)),
        },
    }
}

/// Searches the archives by the index in the rcfile's `database`.
fn search_stored<F: Folder, O: Stream>(
    files: &mut RunFiles<F>,
    asked: &Asked<'_, F>,
    states: &[<F::File as KeptFile>::State],
    out: &mut O,
) -> Result<u8, Stopped>
    requires states { AreStatesOf F.File.state_found F.File.rest
        (map (λ name. bytes_of (F.holds files.old.folder name)) asked.now.rc.now.paths) states.now }
    requires each { length states.now ≡ length asked.now.rc.now.paths }
    requires making { F.making files.old.folder ≡ None }
    requires searches { is_index_run asked.now.plan.now ≡ false }
    requires out { O.failures out.old < 2 ^ 64 - 1 }
    ensures ran { (bytes : List (List ℕ))
        → files_at (F.holds files.old.folder) asked.entry.now.rc.now.paths ≡ Ok bytes
        → F.agree files.new.reports ≡ true → Ran F.Folder O.Out O.handed_on
        (F.agree files.new.reads ≡ true)
        (asked.entry.now.rc.now.database ∷ both_names
        (answer_file asked.entry.now.plan.now asked.entry.now.rc.now))
        (search_stored_task (F.holds files.old.folder)
        (asks asked.entry.now.words.now asked.entry.now.text.now asked.entry.now.now)
        asked.entry.now.plan.now asked.entry.now.rc.now bytes)
        files.old.folder files.new.folder out.old out.new (ending_of_result result) }
    ensures in_state { OnOk result (AreFoundOnly (IsInOneOf states.now)
        (F.found files.old.reads) (F.found files.new.reads)) }
    ensures none { F.making files.new.folder ≡ None }
    ensures count { O.failures out.new ≤ O.failures out.old + 1 }
    ensures reports { AddsReports F.Folder files.old.reports files.new.reports }
    ensures reads { AddsReports F.Folder files.old.reads files.new.reads }
{
    let database = &asked.names.database;
    let alloc = files.alloc;
    let index = read_named(
        &files.folder,
        alloc,
        &mut files.reports,
        database,
        Reading::Index,
    );
    let index = match Stopped::or_stopped(alloc, database.as_str(), index) {
        Ok(index) => index,
        Err(stopped) => return Err(stopped),
    };
    let index = Some(index.as_slice());
    run_search(files, asked, states, index, out)
}
