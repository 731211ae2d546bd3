//! Runs over a folder in memory of which each call fails in turn.
ghost use Rattle.std.specs.Prelude.{◌≡◌, None, IfSome};

use crate::failing_folder::FailingFolder;
use crate::fixture::{HELLO, RC, TWO_MESSAGES, bytes_of, index_of, reports};
use crate::program_runs::{files_of, printed_over};
use named_files::{Item, MadeNames, MemoryFolder};
use std::alloc::Global;
use std::cell::Cell;

/// The words of a run, the mail of the index that is stored, and how the run ends if its first call fails, or its
/// second, and so on: this many calls in a row have this ending. The last ending is for no failed call.
///
/// An ending is what is printed, the status, and the files that aren't as they were before. Each of these is as it is
/// after a run of which no call fails.
const RUNS: [(&str, &str, &[(u64, &str)]); 4] = [
    (
        "-f, rc",
        TWO_MESSAGES,
        &[
            (2, "mairix: cannot open rc|exit 4"),
            // The run does without the length of the rcfile.
            (1, "exit 0 m.idx.new m.idx"),
            (2, "mairix: cannot open rc|exit 4"),
            (2, "mairix: cannot open m.mbox|exit 4"),
            (3, "mairix: cannot open m.idx|exit 4"),
            (5, "mairix: out of memory|exit 5"),
            (1, "mairix: cannot open m.idx|exit 4"),
            (2, "mairix: cannot open m.idx.new|exit 4"),
            (1, "mairix: cannot open m.idx.new|exit 4 m.idx.new"),
            (3, "mairix: archive 1: read failed|exit 4 m.idx.new"),
            (4, "mairix: output failed|exit 4 m.idx.new"),
            (1, "mairix: output failed|exit 4 m.idx.new m.idx"),
            (1, "exit 0 m.idx.new m.idx"),
        ],
    ),
    (
        "-f, rc, s:hello",
        HELLO,
        &[
            (2, "mairix: cannot open rc|exit 4"),
            (1, "exit 0 hits.new hits"),
            (2, "mairix: cannot open rc|exit 4"),
            (2, "mairix: cannot open m.mbox|exit 4"),
            (3, "mairix: cannot open m.idx|exit 4"),
            // The run does without the length of the index.
            (1, "exit 0 hits.new hits"),
            (2, "mairix: cannot open m.idx|exit 4"),
            (7, "mairix: out of memory|exit 5"),
            (1, "mairix: cannot open hits|exit 4"),
            (2, "mairix: cannot open hits.new|exit 4"),
            (1, "mairix: cannot open hits.new|exit 4 hits.new"),
            (5, "mairix: archive read failed|exit 4 hits.new"),
            (3, "mairix: output failed|exit 4 hits.new"),
            (1, "mairix: output failed|exit 4 hits.new hits"),
            (1, "exit 0 hits.new hits"),
        ],
    ),
    (
        "-f, rc, --once, --stdout, s:hello",
        HELLO,
        &[
            (2, "mairix: cannot open rc|exit 4"),
            (1, "^Subject: Hello||hi||exit 0"),
            (2, "mairix: cannot open rc|exit 4"),
            (2, "mairix: cannot open m.mbox|exit 4"),
            (5, "mairix: archive 1: read failed|exit 4"),
            (5, "mairix: archive read failed|exit 4"),
            (1, "^Subject: Hello||hi||exit 0"),
        ],
    ),
    (
        "-f, rc, --verify, --stdout, s:hello",
        HELLO,
        &[
            (2, "mairix: cannot open rc|exit 4"),
            (1, "^Subject: Hello||hi||exit 0"),
            (2, "mairix: cannot open rc|exit 4"),
            (2, "mairix: cannot open m.mbox|exit 4"),
            (3, "mairix: cannot open m.idx|exit 4"),
            (1, "^Subject: Hello||hi||exit 0"),
            (2, "mairix: cannot open m.idx|exit 4"),
            (9, "mairix: archive read failed|exit 4"),
            (1, "^Subject: Hello||hi||exit 0"),
        ],
    ),
];

/// The files of the folder.
const NAMES: [&str; 6] = ["rc", "m.mbox", "m.idx.new", "m.idx", "hits.new", "hits"];

/// A run, the files before it, and these files with a new index and a new answer.
#[derive(Drop)]
struct Run {
    words: &'static str,
    indexed: &'static str,
    old: MemoryFolder,
    new: MemoryFolder,
}

impl Run {
    /// Returns a run with these words, before which the index is that of this mail. It is None if memory runs out, and
    /// so are the results below.
    fn of(alloc: Global, words: &'static str, indexed: &'static str) -> Option<Run> {
        let old = files_before(alloc, indexed)?;
        let new = files(alloc, HELLO, HELLO)?;
        Some(Run {
            words,
            indexed,
            old,
            new,
        })
    }

    /// Returns how it ends if the call with this number fails.
    fn ending(&self, alloc: Global, number: u64) -> Option<Vec<u8>> {
        let count = Cell::new(number);
        let folder = FailingFolder::new(files_before(alloc, self.indexed)?, &count);
        let mut files = files_of(alloc, folder);
        let mut names = MadeNames::new();
        let printed = printed_over(&mut files, &mut names, self.words);
        names.close();
        let mut ending = printed?;
        self.push_changes(&mut ending, files.folder.inner())?;
        Some(ending)
    }

    /// Writes the name of each file that isn't as it was before; after a question mark, if it isn't a new one either.
    fn push_changes(&self, ending: &mut Vec<u8>, folder: &MemoryFolder) -> Option<()> {
        for name in NAMES {
            let bytes = folder.bytes(name);
            if bytes != self.old.bytes(name) {
                let sign = if bytes == self.new.bytes(name) {
                    " "
                } else {
                    " ?"
                };
                push_name(ending, sign, name)?;
            }
        }
        Some(())
    }

    /// Whether it ends in this way if the call with this number fails.
    fn ends(&self, alloc: Global, number: u64, ending: &str) -> bool {
        match bytes_of(alloc, ending) {
            Some(wanted) => reports(self.ending(alloc, number), &wanted),
            None => false,
        }
    }
}

fn push_name(ending: &mut Vec<u8>, sign: &str, name: &str) -> Option<()> {
    ending.extend_from_slice(sign.as_bytes()).ok()?;
    ending.extend_from_slice(name.as_bytes()).ok()
}

/// Returns the files before a run: an older answer, and what killed runs left.
fn files_before(alloc: Global, indexed: &str) -> Option<MemoryFolder>
    ensures { IfSome result (λ folder. folder.making ≡ None) }
{
    let mut folder = files(alloc, indexed, "^Subject: Older||hi||")?;
    leave(alloc, &mut folder, "m.idx.new")?;
    leave(alloc, &mut folder, "hits.new")?;
    Some(folder)
}

/// Returns a folder with an rcfile, an archive, the index of this mail, and this answer.
fn files(alloc: Global, indexed: &str, answer: &str) -> Option<MemoryFolder>
    ensures { IfSome result (λ folder. folder.making ≡ None) }
{
    let mut folder = MemoryFolder::new(alloc);
    put(alloc, &mut folder, "rc", bytes_of(alloc, RC))?;
    put(alloc, &mut folder, "m.mbox", bytes_of(alloc, HELLO))?;
    put(alloc, &mut folder, "m.idx", index_of(alloc, RC, indexed))?;
    put(alloc, &mut folder, "hits", bytes_of(alloc, answer))?;
    Some(folder)
}

fn put(alloc: Global, folder: &mut MemoryFolder, name: &str, bytes: Option<Vec<u8>>) -> Option<()>
    ensures { folder.new.making ≡ folder.old.making }
{
    folder.put(alloc, name, Item::File(bytes?)).ok()
}

/// Leaves a part of a file under a name, as a killed run does.
fn leave(alloc: Global, folder: &mut MemoryFolder, name: &str) -> Option<()>
    ensures { folder.new.making ≡ folder.old.making }
{
    let part = bytes_of(alloc, "a part")?;
    folder.leave(alloc, name, part).ok()
}

/// Whether a run ends as is written, whichever of its calls fails.
fn ends_as_written(
    alloc: Global,
    words: &'static str,
    indexed: &'static str,
    endings: &[(u64, &str)],
) -> bool {
    let Some(run) = Run::of(alloc, words, indexed) else {
        return false;
    };
    let mut number: u64 = 0;
    let mut as_written = true;
    for (count, ending) in endings {
        for _ in 0..*count {
            number = number.saturating_add(1);
            as_written = run.ends(alloc, number, ending) && as_written;
        }
    }
    as_written
}

/// The old file stays until the new one is whole, and a failure is reported unless the run does without the call.
#[test]
fn each_call_may_fail(rt: HostRuntime) {
    for (words, indexed, endings) in RUNS {
        let as_written = ends_as_written(rt.alloc(), words, indexed, endings);
        assert!(rt; as_written, "{words}");
    }
}
