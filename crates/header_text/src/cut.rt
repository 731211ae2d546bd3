//! Cuts bytes in two at a byte.
ghost use Rattle.std.specs.Prelude.{◌≡◌, option_map};
ghost use Rattle.header_text.specs.Cuts.{cut_at as cut_at_of};

use memchr::memchr;

/// Returns what is before the first such byte, and what is after it, or None if the byte isn't there.
pub fn cut_at(byte: u8, bytes: &[u8]) -> Option<(&[u8], &[u8])>
    ensures { option_map (λ parts. (parts.0.now, parts.1.now)) result ≡ cut_at_of byte bytes.now }
{
    // If the bytes begin with it, as when one escape follows another, no search is needed.
    if let [first, after @ ..] = bytes
        && *first == byte
    {
        return Some((&bytes[..0], after));
    }
    let at = memchr(byte, bytes)?;
    Some((&bytes[..at], &bytes[at + 1..]))
}
