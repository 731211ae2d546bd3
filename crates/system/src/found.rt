//! What the system reports of a file.

use crate::file_kind::FileKind;

/// What the system reports of a file, as plain numbers.
#[derive(Clone, Copy, Debug, PartialEq, Eq)]
pub struct Found {
    /// The file system that it is on.
    pub device: u64,
    /// Its number in that file system.
    pub inode: u64,
    pub kind: FileKind,
    /// How many bytes it has.
    pub length: u64,
    /// The bits of its kind, and the twelve that say who may do what with it (`st_mode` of POSIX).
    pub mode: u32,
    /// The number of the user whose file it is.
    pub owner: u32,
    /// The number of its group.
    pub group: u32,
    /// How many names it has (hard links).
    pub links: u64,
    /// When its bytes were changed last.
    pub written: FileTime,
    /// When any of its properties was changed last.
    pub changed: FileTime,
}

/// A moment by the clock of the system.
#[derive(Clone, Copy, Debug, PartialEq, Eq)]
pub struct FileTime {
    /// The seconds since the beginning of 1970.
    pub seconds: i64,
    /// The nanoseconds after them, below 1,000,000,000.
    pub nanoseconds: i64,
}
