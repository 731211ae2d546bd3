//! Runs of word characters and joiners at the front of a text.
ghost use Rattle.std.specs.Prelude.{◌≡◌, ◌<◌, ◌≤◌, ◌-◌, ◌&&◌, ◌||◌, ℕ, Bool, true, false, nat_lt, length, slice_index, chars, encode_utf8_all, IfSome};
ghost use Rattle.std.specs.List.{list_all};
ghost use Rattle.mail_words.specs.Words.{is_word_character, is_joiner};
ghost use Rattle.mail_words.specs.Inside.Runs.{front, is_other, is_piece, joined_front, pair_code, IsPairAt};

use crate::ascii::{is_ascii_joiner, is_ascii_word_character};
use crate::character::{is_joiner, is_word_character};
use crate::lanes::len_by_lanes;

/// A class of characters, with a test for a character and one for a byte.
trait CharacterClass {
    /// Whether a character is in the class.
    ghost holds: { ℕ → Bool };

    /// Returns whether the character is in it.
    fn has(c: char) -> bool
        ensures { result ≡ holds c };

    /// Returns whether the byte is a character in the class by itself. A byte of a character beyond ASCII isn't.
    fn has_ascii(byte: u8) -> bool
        ensures { result ≡ (nat_lt byte 128 && holds byte) };
}

/// The word characters.
struct OfWords;

impl CharacterClass for OfWords {
    ghost holds = { is_word_character };

    fn has(c: char) -> bool {
        is_word_character(c)
    }

    fn has_ascii(byte: u8) -> bool {
        is_ascii_word_character(byte)
    }
}

/// All characters that aren't word characters.
struct OfGaps;

impl CharacterClass for OfGaps {
    ghost holds = { is_other };

    fn has(c: char) -> bool {
        !is_word_character(c)
    }

    fn has_ascii(byte: u8) -> bool {
        byte.is_ascii() && !is_ascii_word_character(byte)
    }
}

/// Word characters and joiners.
struct OfRuns;

impl CharacterClass for OfRuns {
    ghost holds = { is_piece };

    fn has(c: char) -> bool {
        is_word_character(c) || is_joiner(c)
    }

    fn has_ascii(byte: u8) -> bool {
        is_ascii_word_character(byte) || is_ascii_joiner(byte)
    }
}

/// Returns how many bytes the word characters at the front have.
pub(crate) fn plain_len(text: &str) -> usize
    ensures { result ≡ length (encode_utf8_all (front is_word_character (chars text.now))) }
{
    let len = len_by_lanes(text.as_bytes());
    len + front_len::<OfWords>(text.split_at(len).1)
}

/// Returns how many bytes the characters before the first word character have.
pub(crate) fn gap_len(text: &str) -> usize
    ensures { result ≡ length (encode_utf8_all (front is_other (chars text.now))) }
{
    front_len::<OfGaps>(text)
}

/// Returns whether each character is a word character or a joiner.
pub(crate) fn has_word_pieces_alone(text: &str) -> bool
    ensures { result ≡ list_all (λ c. is_word_character c || is_joiner c) (chars text.now) }
{
    front_len::<OfRuns>(text) == text.len()
}

/// Returns how many bytes the characters of a class at the front have.
fn front_len<C: CharacterClass>(text: &str) -> usize
    ensures { result ≡ length (encode_utf8_all (front C.holds (chars text.now))) }
{
    for (len, &byte) in text.as_bytes().iter().enumerate() {
        if !C::has_ascii(byte) {
            if byte.is_ascii() {
                return len;
            }
            return len + front_len_by_characters::<C>(text.split_at(len).1);
        }
    }
    text.len()
}

/// Returns the same as `front_len`, character by character: first those of two bytes, which are read without `chars`. It
/// is a function of its own, so that it isn't copied into each loop over words.
#[inline(never)]
fn front_len_by_characters<C: CharacterClass>(text: &str) -> usize
    ensures { result ≡ length (encode_utf8_all (front C.holds (chars text.now))) }
{
    let bytes = text.as_bytes();
    let mut len = 0;
    while let Some(c) = pair_at(bytes, len) {
        if !C::has(c) {
            return len;
        }
        len += 2;
    }
    len + front_len_of_any::<C>(text.split_at(len).1)
}

/// Returns the character of two bytes at a place, or None if another one is there.
#[inline(always)]
fn pair_at(bytes: &[u8], at: usize) -> Option<char>
    requires { at ≤ length bytes.now }
    ensures { IfSome result (IsPairAt bytes.now at) }
{
    if bytes.len() - at < 2 {
        return None;
    }
    let first = bytes[at];
    if first < 0xC0 || first >= 0xE0 {
        return None;
    }
    char::from_u32(pair_code(first, bytes[at + 1]))
}

/// Returns the number of the character that has these two bytes.
#[inline(always)]
fn pair_code(first: u8, second: u8) -> u32
    ensures { result ≡ pair_code first second }
{
    (first % 32) as u32 * 64 + (second % 64) as u32
}

/// Returns the same as `front_len`, character by character, however many bytes each has.
fn front_len_of_any<C: CharacterClass>(text: &str) -> usize
    ensures { result ≡ length (encode_utf8_all (front C.holds (chars text.now))) }
{
    for (len, c) in text.char_indices() {
        if !C::has(c) {
            return len;
        }
    }
    text.len()
}

/// Returns how many bytes the run of word characters and joiners at the front has, without the joiners at its end. Such
/// runs are rare, so this is a function of its own too.
#[inline(never)]
pub(crate) fn joined_len(text: &str) -> usize
    ensures { result ≡ length (encode_utf8_all (joined_front (chars text.now))) }
{
    let run = front_len::<OfRuns>(text);
    len_before_joiners(text.split_at(run).0.as_bytes())
}

/// Returns how many bytes are before the joiners at the end.
pub(crate) fn len_before_joiners(bytes: &[u8]) -> usize
    ensures within { result ≤ length bytes.now }
    ensures joiners { (k : ℕ) → result ≤ k → k < length bytes.now
        → is_joiner (slice_index bytes.now k) ≡ true }
    ensures last { 0 < result → is_joiner (slice_index bytes.now (result - 1)) ≡ false }
{
    let mut len = bytes.len();
    while len > 0 && is_ascii_joiner(bytes[len - 1]) {
        len -= 1;
    }
    len
}
