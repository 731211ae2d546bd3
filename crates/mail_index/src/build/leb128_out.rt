//! Writes unsigned LEB128.
ghost use Rattle.std.specs.Prelude.{◌≡◌, ◌≤◌, length};
ghost use Rattle.mail_index.specs.Postings.{leb128};

use crate::build::short_bytes::ShortBytes;

/// The shortest unsigned LEB128 of a number: seven bits in a byte, the lowest first.
pub(crate) fn leb128_of(value: u32) -> ShortBytes
    ensures bytes { result ≡ leb128 5 value }
    ensures short { length result ≤ 5 }
{
    let mut bytes = ShortBytes::new();
    let mut rest = value;
    while rest >= 128 {
        bytes.push(128 + (rest % 128) as u8);
        rest /= 128;
    }
    bytes.push(rest as u8);
    bytes
}
