//! The characters at the front of a text that folding leaves as they are.
ghost use Rattle.std.specs.Prelude.{◌≡◌, ◌<◌, ◌≤◌, ℕ, true, false, length, slice_index, chars, encode_utf8_all};
ghost use Rattle.mail_words.specs.Inside.Folds.{is_capital_or_first, is_kept_letter, is_stop_at, keeps_itself};
ghost use Rattle.mail_words.specs.Inside.Runs.{front};

use crate::folding::keeps_itself;
use crate::lanes::kept_by_lanes;

/// Returns how many bytes the characters at the front have that folding leaves as they are.
pub(crate) fn kept_len(text: &str) -> usize
    ensures { result ≡ length (encode_utf8_all (front keeps_itself (chars text.now))) }
{
    let mut rest = text;
    'runs: loop {
        let after = rest.split_at(quick_len(rest.as_bytes())).1;
        let letters = letters_len(after);
        if letters == 0 {
            return text.len() - after.len();
        }
        rest = after.split_at(letters).1;
    }
}

/// Returns how many bytes the characters at the front have that folding keeps, found by loads. It may be fewer, but no ASCII
/// that folding keeps comes next.
fn quick_len(bytes: &[u8]) -> usize
    ensures within { result ≤ length bytes.now }
    ensures passed { (k : ℕ) → k < result → is_stop_at bytes.now k ≡ false }
    ensures end { result < length bytes.now
        → is_capital_or_first (slice_index bytes.now result) ≡ true }
{
    let mut len = kept_by_lanes(bytes);
    while len < bytes.len() && !is_capital_or_first(bytes[len]) {
        len += 1;
    }
    len
}

/// Returns whether the byte is a capital letter of ASCII, or the first byte of a character beyond ASCII.
fn is_capital_or_first(byte: u8) -> bool
    ensures { result ≡ is_capital_or_first byte }
{
    byte.is_ascii_uppercase() || byte >= 0xC0
}

/// Returns how many bytes the characters beyond ASCII at the front have that folding leaves as they are.
fn letters_len(text: &str) -> usize
    ensures { result ≡ length (encode_utf8_all (front is_kept_letter (chars text.now))) }
{
    for (len, c) in text.char_indices() {
        if !is_kept_letter(c) {
            return len;
        }
    }
    text.len()
}

/// Returns whether the character is beyond ASCII, and folding leaves it as it is.
fn is_kept_letter(c: char) -> bool
    ensures { result ≡ is_kept_letter c }
{
    !c.is_ascii() && keeps_itself(c)
}
