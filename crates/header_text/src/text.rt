//! Decodes bytes in a charset to text.
ghost use Rattle.std.specs.Prelude.{◌≡◌, ◌≢◌, ◌≤◌, ◌+◌, ◌*◌, ◌++◌, length, map, OnOk, IfOk, string_bytes, encode_utf8_all};
ghost use Rattle.bstr.specs.Text.{Extends};
ghost use Rattle.bstr.specs.Utf8.{lossy_chars};
ghost use Rattle.header_text.specs.Charsets.{character, text_of};

use crate::charset::Charset;
use bstr::ByteSlice;
use std::alloc::{AllocError, Global};

/// Adds the text of bytes in UTF-8, with U+FFFD for each maximal faulty part. If memory runs out, a front of it may
/// have been added.
pub fn push_lossy(bytes: &[u8], into: &mut String) -> Result<(), AllocError>
    ensures text { OnOk result (string_bytes into.new
        ≡ string_bytes into.old ++ encode_utf8_all (lossy_chars bytes.now)) }
    ensures size { OnOk result (length (string_bytes into.new)
        ≤ length (string_bytes into.old) + 3 * length bytes.now) }
    ensures kept { Extends (string_bytes into.old) (string_bytes into.new) }
    ensures front { Extends (string_bytes into.new)
        (string_bytes into.old ++ encode_utf8_all (lossy_chars bytes.now)) }
{
    bytes.to_str_lossy_into(into)
}

/// Adds the text of bytes in a charset in which each byte is a character. If memory runs out, a front of it may have
/// been added.
fn push_characters(charset: Charset, bytes: &[u8], into: &mut String) -> Result<(), AllocError>
    ensures text { OnOk result (string_bytes into.new
        ≡ string_bytes into.old ++ encode_utf8_all (map (character charset) bytes.now)) }
    ensures size { OnOk result (length (string_bytes into.new)
        ≤ length (string_bytes into.old) + 3 * length bytes.now) }
    ensures kept { Extends (string_bytes into.old) (string_bytes into.new) }
    ensures front { Extends (string_bytes into.new)
        (string_bytes into.old ++ encode_utf8_all (map (character charset) bytes.now)) }
{
    let mut rest = bytes;
    while let Some(at) = rest.find_non_ascii_byte() {
        push_lossy(&rest[..at], into)?;
        into.push(charset.character(rest[at]))?;
        rest = &rest[at + 1..];
    }
    push_lossy(rest, into)
}

/// Adds the text of bytes in a charset. In UTF-8 each maximal faulty part gives one U+FFFD (Unicode, 3.9); in any other
/// charset each byte is a character. At most three bytes of text are added for each byte.
///
/// # Errors
///
/// `AllocError` if memory runs out. Then the buffer has its old text and a front of what was to be added.
pub fn decode_into(charset: Charset, bytes: &[u8], into: &mut String) -> Result<(), AllocError>
    ensures text { OnOk result (string_bytes into.new
        ≡ string_bytes into.old ++ text_of charset bytes.now) }
    ensures size { OnOk result (length (string_bytes into.new)
        ≤ length (string_bytes into.old) + 3 * length bytes.now) }
    ensures kept { Extends (string_bytes into.old) (string_bytes into.new) }
    ensures front { Extends (string_bytes into.new)
        (string_bytes into.old ++ text_of charset bytes.now) }
{
    match charset {
        Charset::Utf8 => push_lossy(bytes, into),
        _ => push_characters(charset, bytes, into),
    }
}

/// Returns the text of bytes in a charset, as [`decode_into`] adds it.
///
/// # Errors
///
/// `AllocError` if memory runs out.
pub fn decode(alloc: Global, charset: Charset, bytes: &[u8]) -> Result<String, AllocError>
    ensures text { IfOk result (λ text. string_bytes text ≡ text_of charset bytes.now) }
    ensures size { IfOk result (λ text. length (string_bytes text) ≤ 3 * length bytes.now) }
{
    let mut text = String::new(alloc);
    decode_into(charset, bytes, &mut text).and(Ok(text))
}
