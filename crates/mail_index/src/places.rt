//! The offsets of the fields of an index file, and the sizes of its parts in bytes.

/// The bytes that a file begins with.
pub(crate) const MAGIC: [u8; 8] = *b"MAIRIX\r\n";

// The front of a file: offsets from its first byte.
pub(crate) const VERSION_AT: usize = 8;

pub(crate) const ARCHIVE_COUNT_AT: usize = 12;

pub(crate) const MESSAGE_COUNT_AT: usize = 16;

pub(crate) const KEY_COUNT_AT: usize = 20;

pub(crate) const ARCHIVE_BYTES_AT: usize = 24;

pub(crate) const TEXT_BYTES_AT: usize = 32;

pub(crate) const POSTING_BYTES_AT: usize = 40;

pub(crate) const FRONT: usize = 48;

/// The size of a digest, of an archive or of the file.
pub(crate) const DIGEST: usize = 32;

/// The size of the smallest file: a front and its digest.
pub(crate) const LEAST_FILE: usize = 80;

// An archive: its front, then its path, then its digest.
pub(crate) const ARCHIVE_LENGTH_AT: usize = 0;

pub(crate) const PATH_LENGTH_AT: usize = 8;

pub(crate) const ARCHIVE_FRONT: usize = 12;

// A record.
pub(crate) const ARCHIVE_AT: usize = 0;

pub(crate) const FLAGS_AT: usize = 4;

pub(crate) const OFFSET_AT: usize = 8;

pub(crate) const LENGTH_AT: usize = 16;

pub(crate) const SIZE_AT: usize = 24;

pub(crate) const DATE_AT: usize = 32;

pub(crate) const RECORD: usize = 40;

// The bits of a record's flags, and all of them.
pub(crate) const SEEN: u8 = 1;

pub(crate) const REPLIED: u8 = 2;

pub(crate) const FLAGGED: u8 = 4;

pub(crate) const DATED: u8 = 8;

pub(crate) const ALL_FLAGS: u8 = 15;

// An entry of the directory.
pub(crate) const KIND_AT: usize = 0;

pub(crate) const TEXT_LENGTH_AT: usize = 4;

pub(crate) const TEXT_PLACE_AT: usize = 8;

pub(crate) const POSTING_PLACE_AT: usize = 16;

pub(crate) const ENTRY: usize = 24;
