//! The system's calls on files.
ghost use Rattle.std.specs.Prelude.{◌≡◌, ◌∷◌, ◌<◌, ◌≤◌, ℕ, List, IfOk, length, take};
ghost use Rattle.std.specs.Path.{path_buf_bytes};
ghost use Rattle.system.specs.SystemCalls.{SystemCall, Looked, LookedAtLink, LookedAtFile, ReadLink, FoundPath, OpenedFile, MadeFile, ReopenedFile, LockedFile, SetMode, WroteBytes, SyncedFile, RenamedFile, RemovedName, ReadOn, ReadAt};
ghost use Rattle.system.specs.Answers.{answer_as, done_or_error};

use crate::call_error::CallError;
use crate::found::Found;
use std::alloc::Global;
use std::path::PathBuf;

/// The system's calls on files. Each method is one call, and adds that call with its names, its numbers and its answer to a
/// record (decision 129 in docs/DECISIONS.md).
///
/// Code that is generic over this trait can't make a record, and it can't drop one, since `Log` isn't `Drop`. So it can
/// make no call that isn't in the record that it was passed. Each part of a run may have a record of its own.
///
/// A name is any path. Links in it are followed, but for a link at its end where a method says so.
pub trait System {
    /// A record of calls, which only clauses read.
    type Log;

    /// An open file, or an open folder. It is closed when it is dropped.
    type File: Drop;

    /// The calls of a record, the newest first.
    ghost calls: { Self.Log → List SystemCall };

    /// Which open file it is: how many calls were in the record before the one that opened it.
    ghost number: { Self.File → ℕ };

    /// Looks at what a name leads to.
    fn look(&self, log: &mut Self::Log, name: &str) -> Result<Found, CallError>
        ensures { calls log.new ≡ Looked name.now result ∷ calls log.old };

    /// Looks at what has a name. If the name is that of a link, that is the link itself.
    fn look_at_link(&self, log: &mut Self::Log, name: &str) -> Result<Found, CallError>
        ensures { calls log.new ≡ LookedAtLink name.now result ∷ calls log.old };

    /// Looks at an open file.
    fn look_at_file(&self, log: &mut Self::Log, file: &Self::File) -> Result<Found, CallError>
        ensures { calls log.new ≡ LookedAtFile (number file.now) result ∷ calls log.old };

    /// Returns the text of the link that has a name. What isn't a link is `CallError::Other`.
    fn read_link(
        &self,
        log: &mut Self::Log,
        alloc: Global,
        name: &str,
    ) -> Result<PathBuf, CallError>
        ensures { calls log.new
            ≡ ReadLink name.now (answer_as path_buf_bytes result) ∷ calls log.old };

    /// Returns the path from the root to what a name leads to, without links.
    fn real_path(
        &self,
        log: &mut Self::Log,
        alloc: Global,
        name: &str,
    ) -> Result<PathBuf, CallError>
        ensures { calls log.new
            ≡ FoundPath name.now (answer_as path_buf_bytes result) ∷ calls log.old };

    /// Opens the file of a name, or the folder, to read it.
    fn open(&self, log: &mut Self::Log, name: &str) -> Result<Self::File, CallError>
        ensures noted { calls log.new ≡ OpenedFile name.now (done_or_error result) ∷ calls log.old }
        ensures number { IfOk result (λ file. number file ≡ length (calls log.old)) };

    /// Makes a new and empty file under a name that nothing has, to write to it. It has at most the rights of this mode:
    /// the process may have a mask that takes some away.
    fn make(&self, log: &mut Self::Log, name: &str, mode: u32) -> Result<Self::File, CallError>
        ensures noted { calls log.new
            ≡ MadeFile name.now mode (done_or_error result) ∷ calls log.old }
        ensures number { IfOk result (λ file. number file ≡ length (calls log.old)) };

    /// Opens an open file once more, to read and to write it, whatever its names are by now.
    fn reopen(
        &self,
        log: &mut Self::Log,
        alloc: Global,
        file: &Self::File,
    ) -> Result<Self::File, CallError>
        ensures noted { calls log.new
            ≡ ReopenedFile (number file.now) (done_or_error result) ∷ calls log.old }
        ensures number { IfOk result (λ again. number again ≡ length (calls log.old)) };

    /// Locks a file, unless another process has its lock. The lock ends when the file is closed.
    fn lock(&self, log: &mut Self::Log, file: &Self::File) -> Result<(), CallError>
        ensures { calls log.new ≡ LockedFile (number file.now) result ∷ calls log.old };

    /// Sets who may do what with a file.
    fn set_mode(&self, log: &mut Self::Log, file: &Self::File, mode: u32) -> Result<(), CallError>
        ensures { calls log.new ≡ SetMode (number file.now) mode result ∷ calls log.old };

    /// Writes bytes from the front of a slice to the end of what was written to a file. Returns how many.
    fn write(
        &self,
        log: &mut Self::Log,
        file: &Self::File,
        bytes: &[u8],
    ) -> Result<usize, CallError>
        ensures bound { IfOk result (λ n. n ≤ length bytes.now) }
        ensures noted { calls log.new ≡ WroteBytes (number file.now)
            (answer_as (λ n. take n bytes.now) result) ∷ calls log.old };

    /// Brings a file, or the names in a folder, to the disk.
    fn sync(&self, log: &mut Self::Log, file: &Self::File) -> Result<(), CallError>
        ensures { calls log.new ≡ SyncedFile (number file.now) result ∷ calls log.old };

    /// Gives what has a name another name, in place of what has that one. Links at the end of either aren't followed.
    fn rename(&self, log: &mut Self::Log, from: &str, to: &str) -> Result<(), CallError>
        ensures { calls log.new ≡ RenamedFile from.now to.now result ∷ calls log.old };

    /// Removes a name that isn't a folder's. If it is a link's, the link is removed, and not what it leads to.
    fn remove(&self, log: &mut Self::Log, name: &str) -> Result<(), CallError>
        ensures { calls log.new ≡ RemovedName name.now result ∷ calls log.old };

    /// Reads bytes to the front of a slice that isn't empty, from where the last such read ended. Returns how many: none
    /// only at the end of the file.
    fn read(
        &self,
        log: &mut Self::Log,
        file: &Self::File,
        into: &mut [u8],
    ) -> Result<usize, CallError>
        requires room { 0 < length into.old }
        ensures bound { IfOk result (λ n. n ≤ length into.new) }
        ensures noted { calls log.new ≡ ReadOn (number file.now)
            (answer_as (λ n. take n into.new) result) ∷ calls log.old };

    /// Reads bytes to the front of a slice that isn't empty, from an offset on. Returns how many: none only at the end of
    /// the file, or after it.
    fn read_at(
        &self,
        log: &mut Self::Log,
        file: &Self::File,
        offset: u64,
        into: &mut [u8],
    ) -> Result<usize, CallError>
        requires room { 0 < length into.old }
        ensures bound { IfOk result (λ n. n ≤ length into.new) }
        ensures noted { calls log.new ≡ ReadAt (number file.now) offset
            (answer_as (λ n. take n into.new) result) ∷ calls log.old };
}
