//! An iterator over the words of a text.
ghost use Rattle.std.specs.Prelude.{◌≡◌, ◌+◌, [], ◌∷◌, ◌++◌, ◌<◌, ◌≤◌, true, false, length, chars, encode_utf8_all, All, MatchOption, IfSome, drop, option_to_list};
ghost use Rattle.std.specs.Iterator.{YieldsFirstRef, item_count};
ghost use Rattle.std.specs.List.{list_all};
ghost use Rattle.std.specs.Option.{option_copied};
ghost use Rattle.mail_words.specs.Words.{words, HasWordLength, is_word_character, is_joiner, begins};
ghost use Rattle.mail_words.specs.Inside.Runs.{words_left, front, after_front, is_other, long_at};

use crate::ascii::is_ascii_joiner;
use crate::lanes::gap_and_word;
use crate::runs::{gap_len, joined_len, len_before_joiners, plain_len};
use std::marker::Model;

/// The most bytes that a word has.
pub(crate) const WORD_LIMIT: usize = 128;

/// The words of a text in the order of where they begin. If two begin together, the plain word comes before the long
/// one.
///
/// A plain word is a maximal run of word characters, which are Alphabetic or of category Mn, Mc or Nd (Unicode 18.0). A
/// long word is a maximal run of word characters and `-`, `_`, `.`, `+` and `@`, without these five at both its ends,
/// in which at least one of them is left. Words have 1 to 128 bytes; longer ones are left out. The iterator takes no
/// memory, and its time is linear in the text.
#[derive(Drop)]
pub struct Words<'a> {
    /// The long word that begins where the last plain word began, if it wasn't returned yet.
    long: Option<&'a str>,
    rest: &'a str,
    /// Whether the rest continues a run whose long word was already looked for.
    in_run: bool,
}

impl<'a> Model for Words<'a> {
    ghost use Rattle.std.specs.Prelude.{List, ℕ, ◌++◌, chars, option_to_list};
    ghost use Rattle.std.specs.Option.{option_copied};

    ghost Value = { List (List ℕ) };

    ghost use Rattle.mail_words.specs.Inside.Runs.{words_left};

    ghost view = { λ s. option_to_list (option_copied s.long)
        ++ words_left s.in_run (chars s.rest.now) };
}

impl<'a> Words<'a> {
    /// Makes the iterator over the words of a text.
    pub fn of(text: &'a str) -> Words<'a>
        ensures words { result ≡ words text.now }
        ensures bounded { All HasWordLength result }
    {
        Words {
            long: None,
            rest: text,
            in_run: false,
        }
    }
}

impl<'a> Iterator for Words<'a> {
    type Item = &'a str;

    ghost next_gives = { YieldsFirstRef (λ s. s) };

    ghost remaining = { item_count (λ s. s) };

    // Inlined, so that each loop over words keeps the rest of the text in registers.
    #[inline(always)]
    fn next(&mut self) -> Option<&'a str> {
        if let Some(long) = self.long.take() {
            return Some(long);
        }
        let place = next_place(self.rest, self.in_run)?;
        self.long = place.long;
        self.rest = place.after;
        self.in_run = true;
        Some(place.plain)
    }
}

/// A place where a plain word begins.
#[derive(Clone, Copy)]
struct WordPlace<'a> {
    plain: &'a str,
    /// The long word that begins with the plain word, if there is one.
    long: Option<&'a str>,
    /// The text after the plain word.
    after: &'a str,
}

/// Finds the next place where a word begins that has at most 128 bytes. `in_run` says whether the text may continue a
/// run whose long word was already looked for.
#[inline(always)]
fn next_place(text: &str, in_run: bool) -> Option<WordPlace<'_>>
    ensures { MatchOption result (words_left in_run (chars text.now) ≡ [])
        (λ p. words_left in_run (chars text.now) ≡ p.plain.now
        ∷ (option_to_list (option_copied p.long) ++ words_left true (chars p.after.now))) }
{
    if let Some(place) = place_by_one_load(text, in_run) {
        return Some(place);
    }
    let mut rest = text;
    let mut goes_on = in_run;
    'places: loop {
        let (start, start_goes_on) = after_gap(rest, gap_len(rest), goes_on);
        if start.is_empty() {
            return None;
        }
        let place = place_at(start, plain_len(start), start_goes_on);
        if place.plain.len() <= WORD_LIMIT {
            return Some(place);
        }
        // The long word that begins with it is longer still.
        rest = place.after;
        goes_on = true;
    }
}

/// Finds the next place, as `next_place` does, if one load has the gap and the word. Such a word is short enough to be
/// kept.
#[inline(always)]
fn place_by_one_load(text: &str, in_run: bool) -> Option<WordPlace<'_>>
    ensures { IfSome result (λ p. words_left in_run (chars text.now) ≡ p.plain.now
        ∷ (option_to_list (option_copied p.long) ++ words_left true (chars p.after.now))) }
{
    let (gap, word) = gap_and_word(text.as_bytes())?;
    let (start, goes_on) = after_gap(text, gap, in_run);
    Some(place_at(start, word, goes_on))
}

/// Returns the text after its gap, which has `gap` bytes, and whether this still continues the run.
#[inline(always)]
fn after_gap(text: &str, gap: usize, in_run: bool) -> (&str, bool)
    requires { gap ≡ length (encode_utf8_all (front is_other (chars text.now))) }
    ensures start { result.0.now ≡ drop gap text.now }
    ensures left { words_left in_run (chars text.now) ≡ words_left result.1 (chars result.0.now) }
    ensures begins { 0 < length result.0.now → begins is_word_character (chars result.0.now)
        ≡ true }
    ensures bound { length result.0.now ≤ length text.now }
{
    let (before, start) = text.split_at(gap);
    let goes_on = in_run && has_joiners_alone(before);
    (start, goes_on)
}

/// Returns whether each character is a joiner.
fn has_joiners_alone(text: &str) -> bool
    ensures { result ≡ list_all is_joiner (chars text.now) }
{
    len_before_joiners(text.as_bytes()) == 0
}

/// Returns the words that begin at the front of a text, whose plain word has `len` bytes, and the text after the plain
/// word. If `in_run`, the long word is left out, because its run began earlier.
#[inline(always)]
fn place_at(text: &str, len: usize, in_run: bool) -> WordPlace<'_>
    requires { len ≡ length (encode_utf8_all (front is_word_character (chars text.now))) }
    ensures plain { result.plain.now ≡ encode_utf8_all (front is_word_character (chars text.now)) }
    ensures long { option_to_list (option_copied result.long) ≡ long_at in_run (chars text.now) }
    ensures after { result.after.now ≡ encode_utf8_all
        (after_front is_word_character (chars text.now)) }
    ensures lengths { length result.plain.now + length result.after.now ≡ length text.now }
    ensures after_chars { chars result.after.now ≡ after_front is_word_character (chars text.now) }
{
    let (plain, after) = text.split_at(len);
    let long = if in_run { None } else { long_word(text, len) };
    WordPlace { plain, long, after }
}

/// Returns the long word that begins at the front of a text, whose plain word has `plain` bytes. Returns None if there
/// is none, or if it has more than 128 bytes.
fn long_word(text: &str, plain: usize) -> Option<&str>
    requires { plain ≡ length (encode_utf8_all (front is_word_character (chars text.now))) }
    ensures { option_to_list (option_copied result) ≡ long_at false (chars text.now) }
{
    let after = text.split_at(plain).1;
    if !begins_in_joiner(after) {
        return None;
    }
    let joined = joined_len(after);
    if joined == 0 {
        return None;
    }
    let len = plain + joined;
    if len > WORD_LIMIT {
        return None;
    }
    Some(text.split_at(len).0)
}

/// Returns whether there is a first character and it is a joiner. The first byte is enough, because all joiners are
/// ASCII.
fn begins_in_joiner(text: &str) -> bool
    ensures { result ≡ begins is_joiner (chars text.now) }
{
    match text.as_bytes() {
        [first, ..] => is_ascii_joiner(*first),
        [] => false,
    }
}
