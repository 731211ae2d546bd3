//! A command line at the moment of a clock.
ghost use Rattle.std.specs.Prelude.{◌≡◌, ◌<◌, ◌-◌, ◌^◌, ◌⊎◌, true, None, Err, drop, map, string_bytes, IfOk, IfErr};
ghost use Rattle.std.specs.IoError.{error_kind};
ghost use Rattle.std.specs.Vec.Iter.{into_iter_items};
ghost use Rattle.std.specs.declared.io.ErrorKind.TheVariants.{OutOfMemory};
ghost use Rattle.mairix_run.specs.Clocks.{second_shown};
ghost use Rattle.mairix_run.specs.Commands.{ReportsUnread, RunsProgram};
ghost use Rattle.named_files.specs.AddedReports.{AddsReports};
ghost use Rattle.named_files.specs.FoundStates.{AreReadInFirstStates};

use crate::clock::moment_of;
use crate::ending_report::report_unread_words;
use crate::program::run_program;
use crate::run_files::RunFiles;
use crate::stream::Stream;
use crate::streams::Streams;
use crate::texts::Texts;
use mail_dates::Moment;
use mbox_cutter::Out;
use named_files::Folder;
use std::alloc::Global;
use std::env::Args;
use std::io::{self, ErrorKind};
use std::time::SystemTime;

/// The words after the program's name, and when they are run.
#[derive(Drop)]
pub struct Command<'a> {
    /// The words.
    pub words: &'a [String],
    /// The moment from which ages, and days without a year, are counted.
    pub moment: Moment,
}

/// What the system gives a program at its start.
#[derive(Drop)]
pub struct Given {
    /// The command line, with the program's name.
    pub args: io::Result<Args>,
    /// The clock's answer.
    pub shown: io::Result<SystemTime>,
}

/// Runs a command line at the second of a clock, and returns the exit status. Its first word is the program's
/// name.
///
/// If the words can't be had, because one of them isn't UTF-8 or memory ran out, that is reported, and no file is used.
pub fn run_command<F: Folder, T: Texts, O: Stream, E: Out>(
    files: &mut RunFiles<F>,
    names: &mut F::Names,
    texts: &T,
    given: Given,
    streams: &mut Streams<O, E>,
) -> u8
    requires making { F.making files.old.folder ≡ None }
    requires out { O.failures streams.old.out < 2 ^ 64 - 2 }
    requires err { E.failures streams.old.err < 2 ^ 64 - 1 }
    // It is a run of the words after the name at this second, with all that `run_program` says; unless memory runs out.
    ensures ran { IfOk given.args (λ args. RunsProgram F.Folder O.Out O.handed_on E.Out
        (T.is_usage_text texts.now (map string_bytes (drop 1 (into_iter_items args))))
        T.memory_can_run_out
        (map string_bytes (drop 1 (into_iter_items args))) (second_shown given.shown)
        (F.agree files.new.reports ≡ true) (F.agree files.new.reads ≡ true)
        (AreReadInFirstStates (F.found files.old.reports) (F.found files.new.reports)
        (F.found files.old.reads) (F.found files.new.reads)) files.old.folder
        files.new.folder
        (F.made names.old) (F.made names.new) streams.old.out streams.new.out streams.old.err
        streams.new.err result
        ⊎ ReportsUnread E.Out T.memory_can_run_out OutOfMemory result
        files.old.folder files.new.folder names.old names.new streams.old.out streams.new.out
        streams.old.err streams.new.err) }
    ensures unread { IfErr given.args (λ error. ReportsUnread E.Out T.memory_can_run_out
        (error_kind error) result
        files.old.folder files.new.folder names.old names.new streams.old.out streams.new.out
        streams.old.err streams.new.err) }
    ensures none { F.making files.new.folder ≡ None }
    ensures reports { AddsReports F.Folder files.old.reports files.new.reports }
    ensures reads { AddsReports F.Folder files.old.reads files.new.reads }
{
    match words_given(files.alloc, given.args) {
        Ok(words) => {
            let command = Command {
                words: words.as_slice(),
                moment: moment_of(given.shown),
            };
            run_program(files, names, texts, &command, streams)
        }
        Err(kind) => report_unread_words(files.alloc, texts, kind, &mut streams.err),
    }
}

/// Returns the words after the program's name, or why they can't be had.
fn words_given(alloc: Global, args: io::Result<Args>) -> Result<Vec<String>, ErrorKind>
    ensures words { IfOk result (λ words.
        IfOk args (λ args. words.items ≡ drop 1 (into_iter_items args))) }
    ensures memory { IfErr result (λ kind. IfOk args (λ _. kind ≡ OutOfMemory)) }
    ensures unread { IfErr args (λ error. result ≡ Err (error_kind error)) }
{
    match args {
        Ok(args) => words_of(alloc, args),
        Err(error) => Err(error.kind()),
    }
}

/// Returns the words after the program's name.
fn words_of(alloc: Global, args: Args) -> Result<Vec<String>, ErrorKind>
    ensures words { IfOk result (λ words. words.items ≡ drop 1 (into_iter_items args)) }
    ensures memory { IfErr result (λ kind. kind ≡ OutOfMemory) }
{
    let mut args = args;
    let _name = args.next();
    let mut words = Vec::new(alloc);
    'words: while let Some(word) = args.next() {
        if words.push(word).is_err() {
            return Err(ErrorKind::OutOfMemory);
        }
    }
    Ok(words)
}
