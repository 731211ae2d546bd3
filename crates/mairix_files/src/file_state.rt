//! Whether a file has changed.
//!
//! A search sees each archive in one state, or fails (decision 95 in docs/DECISIONS.md).
ghost use Rattle.std.specs.Prelude.{◌≡◌};
ghost use Rattle.mairix_files.specs.FileStates.{state_by_look};

use system::Found;

/// What the system reports of a file: which file it is, its length, and when its bytes and its other properties were
/// changed last.
///
/// Two reads of a file in one state give the same bytes, unless the file changed in a way that the system doesn't
/// report, such as a second change within one tick of its clock that leaves the length.
#[derive(Clone, Copy, PartialEq, Eq)]
pub struct FileState {
    device: u64,
    inode: u64,
    length: u64,
    /// When the bytes were changed last, by the system's clock: in seconds, and the nanoseconds after them.
    written: (i64, i64),
    /// When any property of the file was changed last.
    changed: (i64, i64),
}

impl FileState {
    /// Returns the state in which a file was found.
    pub(crate) fn of(found: &Found) -> FileState
        ensures { result ≡ state_by_look found.now }
    {
        FileState {
            device: found.device,
            inode: found.inode,
            length: found.length,
            written: (found.written.seconds, found.written.nanoseconds),
            changed: (found.changed.seconds, found.changed.nanoseconds),
        }
    }
}
