//! Tests of a text: whether it is a word, or part of one.
ghost use Rattle.std.specs.Prelude.{◌≡◌, chars};
ghost use Rattle.mail_words.specs.Words.{is_word_character, begins, is_one_word, is_part_of_word};

use crate::runs::{has_word_pieces_alone, joined_len, plain_len};
use crate::words::WORD_LIMIT;

/// Returns whether the whole text is one plain or long word of at most 128 bytes.
#[tactic(auto, using(crate::proofs::OneWord::is_one_word_parts))]
pub fn is_one_word(text: &str) -> bool
    ensures { result ≡ is_one_word text.now }
{
    is_part_of_word(text) && begins_in_word(text) && joined_len(text) == text.len()
}

/// Returns whether the text can be part of a word: 1 to 128 bytes of word characters and joiners alone.
#[tactic(auto, unfolding(crate::specs::Words::is_part_of_word))]
pub fn is_part_of_word(text: &str) -> bool
    ensures { result ≡ is_part_of_word text.now }
{
    match text.len() {
        1..=WORD_LIMIT => has_word_pieces_alone(text),
        _ => false,
    }
}

/// Returns whether there is a first character and it is a word character.
fn begins_in_word(text: &str) -> bool
    ensures { result ≡ begins is_word_character (chars text.now) }
{
    plain_len(text) > 0
}
