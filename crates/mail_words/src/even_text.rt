//! Texts that can be folded as a whole, because each of their characters folds to one that is like it.
ghost use Rattle.std.specs.Prelude.{◌≡◌, ◌<◌, [], ◌∷◌, true, false, length, string_bytes, IfOk, OnErr, IsTrue, MatchOption, chars};
ghost use Rattle.std.specs.List.{list_all};
ghost use Rattle.std.specs.String.{string_capacity};
ghost use Rattle.ucd_case.specs.CaseFolding.{full_fold};
ghost use Rattle.mail_words.specs.Folding.{are_alike, folding, folds_evenly};

use crate::character::{is_joiner, is_word_character};
use crate::kept_front::kept_len;
use std::alloc::AllocError;
use ucd_case::full_folding;

/// Returns whether two characters have as many bytes, and are both word characters or neither, and both joiners or
/// neither.
fn are_alike(c: char, d: char) -> bool
    ensures { result ≡ are_alike c d }
{
    c.len_utf8() == d.len_utf8()
        && is_word_character(c) == is_word_character(d)
        && is_joiner(c) == is_joiner(d)
}

/// Returns what a character folds to, if it folds evenly.
fn even_folding(c: char) -> Option<char>
    ensures { MatchOption result (folds_evenly c ≡ false)
        (λ d. (folds_evenly c ≡ true) × (full_fold c ≡ d ∷ [])) }
{
    match full_folding(c) {
        [] => Some(c),
        [folded] if are_alike(c, *folded) => Some(*folded),
        _ => None,
    }
}

/// Folds a whole text if each of its characters folds evenly, that is to one character that has as many bytes, and is a
/// word character or a joiner only if the first one is. Returns whether it is so. If so, `into` has the folding instead
/// of what it had. If not, or after an error, `into` may have anything. The words of such a folding are the foldings of
/// the text's words ([`crate::words_fold_evenly`]).
///
/// # Errors
///
/// `AllocError` if memory runs out, which it can only if `into` has less room than the text has bytes.
pub fn fold_evenly(text: &str, into: &mut String) -> Result<bool, AllocError>
    ensures is_even { IfOk result (λ is_even. is_even ≡ list_all folds_evenly (chars text.now)) }
    ensures exact { IfOk result (λ is_even. IsTrue is_even
        → string_bytes into.new ≡ folding text.now) }

    // Memory is taken only if there is too little room.
    ensures full { OnErr result (string_capacity into.old < length text.now) }
{
    into.clear();
    let mut rest = text;
    'pieces: loop {
        let (kept, after) = rest.split_at(kept_len(rest));
        into.push_str(kept)?;
        let mut left = after.chars();
        let Some(c) = left.next() else {
            return Ok(true);
        };
        let Some(folded) = even_folding(c) else {
            return Ok(false);
        };
        into.push(folded)?;
        rest = left.as_str();
    }
}
