//! The system's calls on files as the kit makes them. That each is noted is proved; that it is the call that is meant has
//! to be read, since std's clauses don't say what a call does.
ghost use Rattle.std.specs.Prelude.{◌≡◌, [], IfOk, length};
ghost use Rattle.system.specs.Answers.{done_or_error};

use crate::answers::{answer_of, found_of};
use crate::call_notes::CallNotes;
use std::alloc::Global;
use std::fs::{self, File, OpenOptions, Permissions};
use std::io::{self, Read, Write};
use std::os::fd::AsRawFd;
use std::os::unix::fs::{FileExt, OpenOptionsExt, PermissionsExt};
use std::path::PathBuf;
use std::rt::Files;
use system::{CallError, Found, System};

/// The system's calls on files.
#[derive(Drop)]
pub struct KitSystem<'r, R: Files<File = File>> {
    rt: &'r R,
}

/// A record of calls. It takes no memory.
pub struct KitLog {
    notes: CallNotes,
}

/// An open file, or an open folder.
#[derive(Drop)]
pub struct KitOpened {
    file: File,
    /// The calls before the one that opened it.
    before: CallNotes,
}

impl<'r, R: Files<File = File>> KitSystem<'r, R> {
    /// Returns the system's calls.
    pub fn new(rt: &'r R) -> KitSystem<'r, R> {
        KitSystem { rt }
    }
}

impl KitLog {
    /// Returns a record without calls.
    pub fn new() -> KitLog
        ensures { result.notes.calls ≡ [] }
    {
        KitLog {
            notes: CallNotes::new(),
        }
    }

    /// Ends a record.
    pub fn close(self) {
        let KitLog { notes: _ } = self;
    }
}

impl KitOpened {
    /// Returns the open file of std. What is done with it isn't noted.
    pub fn as_file(&self) -> &File {
        &self.file
    }

    /// Returns the open file of std. What is done with it isn't noted.
    pub fn into_file(self) -> File {
        let KitOpened { file, before: _ } = self;
        file
    }
}

/// Returns a file that was opened after these calls, if it was.
fn opened(answer: io::Result<File>, before: CallNotes) -> Result<KitOpened, CallError>
    ensures before { IfOk result (λ opened. opened.before.calls ≡ before.calls) }
{
    match answer_of(answer) {
        Ok(file) => Ok(KitOpened { file, before }),
        Err(error) => Err(error),
    }
}

/// Opens an open file once more.
fn open_again<R: Files<File = File>>(rt: &R, alloc: Global, file: &File) -> io::Result<File> {
    let path = format!(in alloc; "/proc/self/fd/{}", file.as_raw_fd())?;
    OpenOptions::new()
        .read(true)
        .write(true)
        .open(rt, path.as_str())
}

impl<'r, R: Files<File = File>> System for KitSystem<'r, R> {
    type Log = KitLog;

    type File = KitOpened;

    ghost calls = { λ log. log.notes.calls };

    ghost number = { λ file. length file.before.calls };

    fn look(&self, log: &mut KitLog, name: &str) -> Result<Found, CallError> {
        let found = found_of(fs::metadata(self.rt, name));
        log.notes = log.notes.next(&(name, found));
        found
    }

    fn look_at_link(&self, log: &mut KitLog, name: &str) -> Result<Found, CallError> {
        let found = found_of(fs::symlink_metadata(self.rt, name));
        log.notes = log.notes.next(&(name, found));
        found
    }

    fn look_at_file(&self, log: &mut KitLog, file: &KitOpened) -> Result<Found, CallError> {
        let found = found_of(file.file.metadata());
        log.notes = log.notes.next(&(file, found));
        found
    }

    fn read_link(&self, log: &mut KitLog, alloc: Global, name: &str) -> Result<PathBuf, CallError> {
        let target = answer_of(self.rt.read_link(alloc, name));
        log.notes = log.notes.next(&(name, &target));
        target
    }

    fn real_path(&self, log: &mut KitLog, alloc: Global, name: &str) -> Result<PathBuf, CallError> {
        let path = answer_of(self.rt.canonicalize(alloc, name));
        log.notes = log.notes.next(&(name, &path));
        path
    }

    fn open(&self, log: &mut KitLog, name: &str) -> Result<KitOpened, CallError> {
        let file = opened(fs::open(self.rt, name), log.notes.again());
        log.notes = log.notes.next(&(name, &file));
        file
    }

    fn make(&self, log: &mut KitLog, name: &str, mode: u32) -> Result<KitOpened, CallError> {
        let mut options = OpenOptions::new();
        options.write(true).create_new(true).mode(mode);
        let file = opened(options.open(self.rt, name), log.notes.again());
        log.notes = log.notes.next(&(name, mode, &file));
        file
    }

    fn reopen(
        &self,
        log: &mut KitLog,
        alloc: Global,
        file: &KitOpened,
    ) -> Result<KitOpened, CallError> {
        let again = opened(open_again(self.rt, alloc, &file.file), log.notes.again());
        log.notes = log.notes.next(&(file, &again));
        again
    }

    fn lock(&self, log: &mut KitLog, file: &KitOpened) -> Result<(), CallError> {
        let done = answer_of(locked(&file.file));
        log.notes = log.notes.next(&(file, done));
        done
    }

    fn set_mode(&self, log: &mut KitLog, file: &KitOpened, mode: u32) -> Result<(), CallError> {
        let done = answer_of(file.file.set_permissions(Permissions::from_mode(mode)));
        log.notes = log.notes.next(&(file, mode, done));
        done
    }

    fn write(&self, log: &mut KitLog, file: &KitOpened, bytes: &[u8]) -> Result<usize, CallError> {
        let mut writer = &file.file;
        let count = answer_of(writer.write(bytes));
        log.notes = log.notes.next(&(file, bytes, count));
        count
    }

    fn sync(&self, log: &mut KitLog, file: &KitOpened) -> Result<(), CallError> {
        let done = answer_of(file.file.sync_all());
        log.notes = log.notes.next(&(file, done));
        done
    }

    fn rename(&self, log: &mut KitLog, from: &str, to: &str) -> Result<(), CallError> {
        let done = answer_of(fs::rename(self.rt, from, to));
        log.notes = log.notes.next(&(from, to, done));
        done
    }

    fn remove(&self, log: &mut KitLog, name: &str) -> Result<(), CallError> {
        let done = answer_of(fs::remove_file(self.rt, name));
        log.notes = log.notes.next(&(name, done));
        done
    }

    fn read(
        &self,
        log: &mut KitLog,
        file: &KitOpened,
        into: &mut [u8],
    ) -> Result<usize, CallError> {
        let mut reader = &file.file;
        let count = answer_of(reader.read(into));
        log.notes = log.notes.next(&(file, &*into, count));
        count
    }

    fn read_at(
        &self,
        log: &mut KitLog,
        file: &KitOpened,
        offset: u64,
        into: &mut [u8],
    ) -> Result<usize, CallError> {
        let count = answer_of(file.file.read_at(into, offset));
        log.notes = log.notes.next(&(file, offset, &*into, count));
        count
    }
}

/// Locks a file, unless another process has its lock.
fn locked(file: &File) -> io::Result<()> {
    match file.try_lock() {
        Ok(()) => Ok(()),
        Err(error) => Err(error.into()),
    }
}
