//! Runs of the program over the files of a folder: what it reads, what it makes, and what it prints.
ghost use Rattle.std.specs.Prelude.{◌≡◌, None};

use crate::fixture::{NOW, bytes_of, push_words, reports};
use mail_dates::Moment;
use mairix_files::{KitFolder, SupposedNames};
use mairix_run::{Command, MemoryStream, ProgramTexts, RunFiles, Streams, run_program};
use named_files::{Folder, MadeNames};
use std::alloc::Global;
use std::{fs, process};

/// Steps that are taken one after another in the folder, which is written as `@`. [`bytes_of`] reads the texts.
///
/// `write FILE => TEXT` makes a file, `has FILE => TEXT` gives the bytes of a file, and `run WORDS => TEXT` what a run
/// prints on standard output and on standard error, and its status.
const STEPS: &str = "\
run -V => mairix 0.3.0~unreleased|exit 0
run -f, @/rc, -r, s:hello => mairix: cannot open @/rc|exit 4
write @/rc => base=@|mbox=m.mbox|database=@/m.idx|mfolder=hits|
run -f, @/rc => mairix: cannot open @/m.mbox|exit 4
write @/m.mbox => hello|
run -f, @/rc => mairix: archive 1: not an mbox|exit 4
write @/m.mbox => ^Subject: Hello||hi||
run -f, @/rc, -r, s:hello => mairix: cannot open @/m.idx|exit 4
run -f, @/rc => exit 0
run -f, @/rc, -r, s:hello => 0 58 @/m.mbox|exit 0
run -f, @/rc, -r, --verify, b:hi => 0 58 @/m.mbox|exit 0
run -f, @/rc, -r, s:absent => exit 1
run -f, @/rc, s:hello => exit 0
has @/hits => ^Subject: Hello||hi||
run -f, @/rc, q:x => mairix: query item 1: bad prefix|exit 2
write @/many => base=@|mbox={101*m.mbox:}|database=@/many.idx|mfolder=hits|
run -f, @/many => exit 0
run -f, @/many, -r, s:hello => {101*0 58 @/m.mbox|}exit 0
write @/m.mbox => ^Subject: World||hi||
run -f, @/rc, -r, s:hello => 0 58 @/m.mbox|exit 0
run -f, @/rc, -r, --verify, s:hello => mairix: archive 1: changed since it was indexed|exit 3
run -f, @/rc, --once, --stdout, s:world => ^Subject: World||hi||exit 0
has @/hits => ^Subject: Hello||hi||
";

/// Returns a text with the folder in place of each `@`. It is None if memory runs out, and so are the results below.
fn in_folder(alloc: Global, folder: &str, text: &str) -> Option<String> {
    let mut whole = String::new(alloc);
    for c in text.chars() {
        match c {
            '@' => whole.push_str(folder).ok()?,
            c => whole.push(c).ok()?,
        }
    }
    Some(whole)
}

/// Returns what a run with these words prints over the files of the system.
fn printed(rt: &HostRuntime, alloc: Global, line: &str) -> Option<Vec<u8>> {
    let mut files = files_of(alloc, KitFolder::new(rt, SupposedNames::new()));
    let mut names = MadeNames::new();
    let printed = printed_over(&mut files, &mut names, line);
    names.close();
    printed
}

/// Returns the files of a run over a folder of which nothing was reported.
pub fn files_of<F: Folder>(alloc: Global, folder: F) -> RunFiles<F>
    ensures { result.folder ≡ folder }
{
    RunFiles {
        reports: folder.no_reports(),
        reads: folder.no_reports(),
        alloc,
        folder,
    }
}

/// Returns what a run with these words prints over the files of a folder, and its status.
pub fn printed_over<F: Folder>(
    files: &mut RunFiles<F>,
    names: &mut F::Names,
    line: &str,
) -> Option<Vec<u8>>
    requires { F.making files.old.folder ≡ None }
{
    let alloc = files.alloc;
    let mut words = Vec::new(alloc);
    push_words(alloc, &mut words, line)?;
    let command = Command {
        words: &words,
        moment: Moment::new(NOW)?,
    };
    let mut streams = Streams {
        out: MemoryStream::new(alloc),
        err: MemoryStream::new(alloc),
    };
    let status = run_program(files, names, &ProgramTexts, &command, &mut streams);
    all_printed(alloc, streams.out.handed_on(), streams.err.taken(), status)
}

fn all_printed(alloc: Global, out: &[u8], err: &[u8], status: u8) -> Option<Vec<u8>> {
    let exit = format!(in alloc; "exit {status}").ok()?;
    [out, err, exit.as_str().as_bytes()].concat(alloc).ok()
}

/// Whether a step in this folder has the result that it gives.
fn is_done(rt: &HostRuntime, folder: &str, step: &str) -> Option<bool> {
    let alloc = rt.alloc();
    let step = in_folder(alloc, folder, step)?;
    let (action, text) = step.as_str().split_once(" => ")?;
    let (verb, object) = action.split_once(' ')?;
    let bytes = bytes_of(alloc, text)?;
    let found = match verb {
        "write" => return Some(fs::write(rt, object, bytes.as_slice()).is_ok()),
        "has" => fs::read(rt, object).ok(),
        _ => printed(rt, alloc, object),
    };
    Some(reports(found, &bytes))
}

#[test]
fn the_program_works_in_a_folder(rt: HostRuntime) {
    let process = process::id(rt.process());
    let folder = format!(in rt.alloc(); "/tmp/mairix-runs-{process}").expect(&rt, "a name");
    assert!(rt; fs::create_dir(&rt, folder.as_str()).is_ok());
    for step in STEPS.lines() {
        assert!(rt;
            is_done(&rt, folder.as_str(), step).unwrap_or(false),
            "{step}"
        );
    }
    assert!(rt; fs::remove_dir_all(&rt, folder.as_str()).is_ok());
}
