//! What a run prints at its end.
ghost use Rattle.std.specs.Prelude.{◌≡◌, ◌<◌, ◌-◌, ◌^◌, ◌++◌, ◌∷◌, [], map, codes, string_bytes};
ghost use Rattle.mairix_run.specs.Streams.{TakesOrBreaksOff, EndsTaking, EndsFlushed};
ghost use Rattle.mairix_run.specs.Stops.{ending_of_result, ending_of_stopped};
ghost use Rattle.mairix_run.specs.Reports.{ReportsEnding, ReportsFault, ReportsUsage, fault_of_unread, path_line};
ghost use Rattle.run_faults.specs.declared.fault.Fault.TheVariants.{Usage};

use crate::stopped::Stopped;
use crate::stream::Stream;
use crate::streams::Streams;
use crate::texts::Texts;
use mairix_options::UsageFault;
use mbox_cutter::{DeviceFault, Out, send};
use run_faults::{FAILED, Fault, OUT_OF_MEMORY};
use std::alloc::Global;
use std::io::ErrorKind;

/// What each line on standard error begins with.
const PROGRAM: &str = "mairix: ";

/// What comes before a path in the line for a file that can't be opened, read or made.
const CANNOT_OPEN: &str = "mairix: cannot open ";

/// Reports how a run ended, and returns its status. A run with a status of its own prints nothing at its end.
pub fn report_ending<T: Texts, O: Stream, E: Out>(
    alloc: Global,
    texts: &T,
    words: &[String],
    ended: Result<u8, Stopped>,
    streams: &mut Streams<O, E>,
) -> u8
    requires out { O.failures streams.old.out < 2 ^ 64 - 1 }
    requires err { E.failures streams.old.err < 2 ^ 64 - 1 }
    ensures reported { ReportsEnding O.Out O.handed_on E.Out
        (T.is_usage_text texts.now (map string_bytes words.now)) T.memory_can_run_out
        (ending_of_result ended)
        result streams.old.out streams.new.out streams.old.err streams.new.err }
{
    match ended {
        Ok(status) => status,
        Err(stopped) => report_stopped(alloc, texts, words, stopped, streams),
    }
}

/// Prints why a run was stopped, and returns its status. This is one line on `err`; for refused words it is the
/// parser's own text, which for help and version goes to `out`.
pub fn report_stopped<T: Texts, O: Stream, E: Out>(
    alloc: Global,
    texts: &T,
    words: &[String],
    stopped: Stopped,
    streams: &mut Streams<O, E>,
) -> u8
    requires out { O.failures streams.old.out < 2 ^ 64 - 1 }
    requires err { E.failures streams.old.err < 2 ^ 64 - 1 }
    ensures reported { ReportsEnding O.Out O.handed_on E.Out
        (T.is_usage_text texts.now (map string_bytes words.now)) T.memory_can_run_out
        (ending_of_stopped stopped)
        result streams.old.out streams.new.out streams.old.err streams.new.err }
{
    match stopped {
        Stopped::CannotOpen(path) => report_path(path.as_str(), &mut streams.err),
        Stopped::Fault(Fault::Usage(fault)) => report_usage(alloc, texts, words, fault, streams),
        Stopped::Fault(fault) => report_fault(alloc, texts, fault, &mut streams.err),
    }
}

/// Prints the parser's own text: for refused words on `err`, for help and version on `out`, which is then flushed. `-r`
/// with `-x`, which the parser takes, is reported as a fault. Returns the status.
///
/// If `out` fails, that is reported on `err` as a failed output.
pub fn report_usage<T: Texts, O: Stream, E: Out>(
    alloc: Global,
    texts: &T,
    words: &[String],
    fault: UsageFault,
    streams: &mut Streams<O, E>,
) -> u8
    requires out { O.failures streams.old.out < 2 ^ 64 - 1 }
    requires err { E.failures streams.old.err < 2 ^ 64 - 1 }
    ensures reported { ReportsUsage O.Out O.handed_on E.Out
        (T.is_usage_text texts.now (map string_bytes words.now)) T.memory_can_run_out fault
        result streams.old.out streams.new.out streams.old.err streams.new.err }
{
    if let UsageFault::TwoFormats = fault {
        return report_fault(alloc, texts, Fault::Usage(fault), &mut streams.err);
    }
    let Ok(text) = texts.usage_text(alloc, words) else {
        return report_fault(alloc, texts, Fault::Memory, &mut streams.err);
    };
    if let UsageFault::Parse = fault {
        print_text(text.as_str(), &mut streams.err);
    } else if print(text.as_str(), &mut streams.out).is_err() {
        return report_fault(alloc, texts, Fault::Out, &mut streams.err);
    }
    Fault::Usage(fault).status()
}

/// Reports on `err` that the words after the program's name can't be read, for example because one isn't UTF-8, and
/// returns the exit status.
pub fn report_unread_words<T: Texts, E: Out>(
    alloc: Global,
    texts: &T,
    kind: ErrorKind,
    err: &mut E,
) -> u8
    requires { E.failures err.old < 2 ^ 64 - 1 }
    ensures reported { ReportsFault E.Out T.memory_can_run_out (fault_of_unread kind)
        result err.old err.new }
{
    let fault = match kind {
        ErrorKind::OutOfMemory => Fault::Memory,
        _ => Fault::Usage(UsageFault::Parse),
    };
    report_fault(alloc, texts, fault, err)
}

/// Prints a fault in one line, and returns its status. If there is no memory for its text, lack of memory is reported
/// instead. If `err` fails, that is reported nowhere.
pub fn report_fault<T: Texts, E: Out>(alloc: Global, texts: &T, fault: Fault, err: &mut E) -> u8
    requires { E.failures err.old < 2 ^ 64 - 1 }
    ensures reported { ReportsFault E.Out T.memory_can_run_out fault
        result err.old err.new }
{
    let Ok(text) = texts.fault_text(alloc, fault) else {
        print_line(PROGRAM, OUT_OF_MEMORY, err);
        return Fault::Memory.status();
    };
    print_line(PROGRAM, text.as_str(), err);
    fault.status()
}

/// Prints that the file with this path can't be opened, read or made, and returns the status.
fn report_path<E: Out>(path: &str, err: &mut E) -> u8
    requires { E.failures err.old < 2 ^ 64 - 1 }
    ensures status { result ≡ 4 }
    ensures taken { TakesOrBreaksOff E.Out err.old err.new (path_line path.now) }
{
    print_line(CANNOT_OPEN, path, err);
    FAILED
}

/// Prints a text, and flushes the output.
fn print<O: Stream>(text: &str, out: &mut O) -> Result<(), DeviceFault>
    requires { O.failures out.old < 2 ^ 64 - 1 }
    ensures flushed { EndsFlushed O.Out O.handed_on out.old out.new text.now result }
{
    send(out, text.as_bytes())?;
    out.flush()
}

/// Prints a text on standard error.
fn print_text<E: Out>(text: &str, err: &mut E)
    requires { E.failures err.old < 2 ^ 64 - 1 }
    ensures taken { TakesOrBreaksOff E.Out err.old err.new text.now }
{
    let _ = send(err, text.as_bytes());
}

/// Prints a line of two parts on standard error.
fn print_line<E: Out>(head: &str, text: &str, err: &mut E)
    requires { E.failures err.old < 2 ^ 64 - 1 }
    ensures taken { TakesOrBreaksOff E.Out err.old err.new (head.now ++ text.now ++ 10 ∷ []) }
{
    let _ = send_line(head.as_bytes(), text.as_bytes(), err);
}

/// Writes a line of two parts.
fn send_line<E: Out>(head: &[u8], text: &[u8], err: &mut E) -> Result<(), DeviceFault>
    requires { E.failures err.old < 2 ^ 64 - 1 }
    ensures taken { EndsTaking E.Out err.old err.new (head.now ++ text.now ++ 10 ∷ []) result }
{
    if let Err(fault) = send(err, head) {
        return Err(fault);
    }
    if let Err(fault) = send(err, text) {
        return Err(fault);
    }
    send(err, b"\n")
}
