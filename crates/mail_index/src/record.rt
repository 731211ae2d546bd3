//! What an index says about one message.
ghost use Rattle.std.specs.Prelude.{◌≡◌, ◌≤◌, length};
ghost use Rattle.mail_index.specs.Places.{record_size};
ghost use Rattle.mail_index.specs.Records.{has_bit as has_bit_of, is_record as is_record_of};

use crate::fields::{are_zeros_at, u32_at, u64_at};
use crate::places::{
    ALL_FLAGS, ARCHIVE_AT, DATE_AT, DATED, FLAGGED, FLAGS_AT, LENGTH_AT, OFFSET_AT, REPLIED, SEEN,
    SIZE_AT,
};
use mail_words::Flags;

/// A message of an archive, as an index keeps it.
#[derive(Clone, Copy)]
pub struct Record {
    /// The archive's number, from 0.
    pub archive: u32,
    /// Where the message begins in its archive, in bytes.
    pub offset: u64,
    /// The bytes of the message, with its separator and the empty line that closes it: at least 1.
    pub length: u64,
    /// The bytes of its text, without the separator and the closing line: less than `length`.
    pub size: u64,
    /// The second of its Date field (UTC), if it has one that can be read.
    pub date: Option<i64>,
    /// Its flags: seen, replied, flagged.
    pub flags: Flags,
}

/// Whether all bits of the mask are set.
fn has_bit(flags: u8, mask: u8) -> bool
    ensures { result ≡ has_bit_of flags mask }
{
    flags & mask == mask
}

impl Record {
    ghost use Rattle.mail_index.specs.Records.{read_record};

    /// Reads the record at the front.
    #[tactic(auto, unfolding(crate::specs::Records::read_record))]
    pub(crate) fn read(bytes: &[u8]) -> Record
        requires { record_size ≤ length bytes.now }
        ensures { result ≡ read_record bytes.now }
    {
        let flags = bytes[FLAGS_AT];
        let date = if has_bit(flags, DATED) {
            Some(u64_at(bytes, DATE_AT).cast_signed())
        } else {
            None
        };
        Record {
            archive: u32_at(bytes, ARCHIVE_AT),
            offset: u64_at(bytes, OFFSET_AT),
            length: u64_at(bytes, LENGTH_AT),
            size: u64_at(bytes, SIZE_AT),
            date,
            flags: Flags {
                seen: has_bit(flags, SEEN),
                replied: has_bit(flags, REPLIED),
                flagged: has_bit(flags, FLAGGED),
            },
        }
    }
}

/// Whether the first bytes are those of a record: no unknown flag, zeros after the flags, and no date without its
/// flag.
#[tactic(auto, unfolding(crate::specs::Records::is_record))]
pub(crate) fn is_record(bytes: &[u8]) -> bool
    requires { record_size ≤ length bytes.now }
    ensures { result ≡ is_record_of bytes.now }
{
    let flags = bytes[FLAGS_AT];
    flags <= ALL_FLAGS
        && are_zeros_at(bytes, FLAGS_AT + 1)
        && (has_bit(flags, DATED) || u64_at(bytes, DATE_AT) == 0)
}
