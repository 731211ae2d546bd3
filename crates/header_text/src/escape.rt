//! Decodes bytes that are written as `=` and two hexadecimal digits.
ghost use Rattle.std.specs.Prelude.{◌≡◌, ◌<◌, ◌≤◌, ◌+◌, ◌++◌, length, IfSome, OnOk, OnErr};
ghost use Rattle.bstr.specs.Text.{Extends};
ghost use Rattle.header_text.specs.Escapes.{hex_value, after_equals as after_equals_of, unescaped_bytes, q_bytes};

use crate::cut::cut_at;
use std::alloc::AllocError;

/// Returns the value of a hexadecimal digit, in either case.
fn hex_digit(b: u8) -> Option<u8>
    ensures value { result ≡ hex_value b }
    ensures small { IfSome result (λ n. n < 16) }
{
    match b {
        b'0'..=b'9' => Some(b - b'0'),
        b'A'..=b'F' => Some(b - b'A' + 10),
        b'a'..=b'f' => Some(b - b'a' + 10),
        _ => None,
    }
}

/// Decodes an `=` before these bytes. If they begin with two hexadecimal digits, returns the byte with this value and
/// what follows the digits; otherwise returns the `=` and these bytes.
fn after_equals(bytes: &[u8]) -> (u8, &[u8])
    ensures { (result.0, result.1.now) ≡ after_equals_of bytes.now }
{
    if let [high, low, rest @ ..] = bytes
        && let Some(high) = hex_digit(*high)
        && let Some(low) = hex_digit(*low)
    {
        return (high * 16 + low, rest);
    }
    (b'=', bytes)
}

/// Adds bytes as they are. Often there are none, because in text beyond ASCII most escapes follow one another.
fn add_plain(plain: &[u8], into: &mut Vec<u8>) -> Result<(), AllocError>
    ensures bytes { OnOk result (into.new.items ≡ into.old.items ++ plain.now) }
    ensures kept { Extends into.old.items into.new.items }
{
    if plain.is_empty() {
        return Ok(());
    }
    into.extend_from_slice(plain)
}

/// Adds bytes with their escapes decoded. If memory runs out, a front of them may have been added.
fn add_unescaped(bytes: &[u8], into: &mut Vec<u8>) -> Result<(), AllocError>
    ensures bytes { OnOk result (into.new.items ≡ into.old.items ++ unescaped_bytes bytes.now) }
    ensures kept { Extends into.old.items into.new.items }
{
    let mut rest = bytes;
    while let Some((plain, after)) = cut_at(b'=', rest) {
        add_plain(plain, into)?;
        let (byte, later) = after_equals(after);
        into.push(byte)?;
        rest = later;
    }
    into.extend_from_slice(rest)
}

/// Adds bytes with their escapes decoded: `=` and two hexadecimal digits, in either case, become the byte with this
/// value, and any other byte stays as it is, even an `=` that begins no escape (RFC 2045, 6.7, rule 1). At most as many
/// bytes are added as there are.
///
/// # Errors
///
/// `AllocError` if memory runs out. Then nothing is added.
pub fn unescape_into(bytes: &[u8], into: &mut Vec<u8>) -> Result<(), AllocError>
    ensures bytes { OnOk result (into.new.items ≡ into.old.items ++ unescaped_bytes bytes.now) }
    ensures size { OnOk result (length into.new.items ≤ length into.old.items + length bytes.now) }
    ensures refused { OnErr result (into.new.items ≡ into.old.items) }
{
    let start = into.len();
    let outcome = add_unescaped(bytes, into);
    if outcome.is_err() {
        into.truncate(start);
    }
    outcome
}

/// Adds the bytes of a text in Q (RFC 2047, 4.2). It is decoded as by `unescape_into`, except that `_` is a space. If
/// memory runs out, some of the bytes may have been added.
pub fn decode_q_into(text: &[u8], into: &mut Vec<u8>) -> Result<(), AllocError>
    ensures bytes { OnOk result (into.new.items ≡ into.old.items ++ q_bytes text.now) }
    ensures size { OnOk result (length into.new.items ≤ length into.old.items + length text.now) }
{
    let mut rest = text;
    while let Some((stretch, after)) = cut_at(b'_', rest) {
        unescape_into(stretch, into)?;
        into.push(b' ')?;
        rest = after;
    }
    unescape_into(rest, into)
}
