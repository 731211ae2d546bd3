//! The characters of words: word characters and joiners.
ghost use Rattle.std.specs.Prelude.{◌≡◌};
ghost use Rattle.mail_words.specs.Words.{is_word_character, is_joiner};

use crate::bit_tables::is_word_below;
use unicode::properties::{GeneralCategory, is_alphabetic};

/// Returns whether a character is a word character: Alphabetic, or of category Mn, Mc or Nd.
#[tactic(auto, unfolding(crate::specs::Words::is_word_character))]
pub(crate) fn is_word_character(c: char) -> bool
    ensures { result ≡ is_word_character c }
{
    if c < '\u{800}' {
        return is_word_below(c as u32);
    }
    is_alphabetic(c)
        || matches!(
            GeneralCategory::for_char(c),
            GeneralCategory::NonspacingMark
                | GeneralCategory::SpacingMark
                | GeneralCategory::DecimalNumber
        )
}

/// Returns whether a character joins plain words to a long one: `-`, `_`, `.`, `+` or `@`.
#[tactic(auto, unfolding(crate::specs::Words::is_joiner))]
pub(crate) fn is_joiner(c: char) -> bool
    ensures { result ≡ is_joiner c }
{
    matches!(c, '-' | '_' | '.' | '+' | '@')
}
