//! The program `mairix`: prints exactly the messages of mbox archives that match.
#![tactic(auto)]

ghost use Rattle.std.specs.Prelude.{◌≡◌, [], Some};

use mairix_files::{KitFolder, Retried, SupposedNames};
use mairix_run::{
    Given, ProgramTexts, RunFiles, StdWriter, Stream, Streams, WriterStream, run_command,
};
use mbox_cutter::Out;
use named_files::{Folder, MadeNames};
use std::env;
use std::io::Write;
use std::process::ExitCode;
use std::time::SystemTime;

/// Returns a stream over a writer of std. It has taken nothing, and repeats a write that a signal has interrupted.
fn stream_over<W: Write + Drop>(writer: W) -> WriterStream<StdWriter<Retried<W>>>
    ensures taken { ⟦<WriterStream<StdWriter<Retried<W>>> as Out>⟧.taken result ≡ Some [] }
    ensures handed_on { ⟦<WriterStream<StdWriter<Retried<W>>> as Stream>⟧.handed_on result
        ≡ Some [] }
    ensures fresh { ⟦<WriterStream<StdWriter<Retried<W>>> as Out>⟧.failures result ≡ 0 }
{
    WriterStream::new(StdWriter::new(Retried::new(writer)))
}

fn main(rt: HostRuntime) -> ExitCode {
    let folder = KitFolder::new(&rt, SupposedNames::new());
    let mut files = RunFiles {
        reports: folder.no_reports(),
        reads: folder.no_reports(),
        alloc: rt.alloc(),
        folder,
    };
    let mut names = MadeNames::new();
    let given = Given {
        args: env::args(&rt),
        shown: SystemTime::now(&rt),
    };
    let mut streams = Streams {
        out: stream_over(rt.stdout()),
        err: stream_over(rt.stderr()),
    };
    let status = run_command(&mut files, &mut names, &ProgramTexts, given, &mut streams);
    names.close();
    ExitCode::from(status)
}
