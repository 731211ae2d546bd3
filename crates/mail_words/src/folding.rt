//! Default caseless folding, by which words are compared.
ghost use Rattle.std.specs.Prelude.{◌≡◌, ◌*◌, ◌+◌, ◌<◌, ◌≤◌, ◌++◌, length, string_bytes, string_len, IfOk, OnOk, OnErr, IsTrue, IsAscii, chars};
ghost use Rattle.std.specs.List.{list_all};
ghost use Rattle.std.specs.Bool.{Decides};
ghost use Rattle.std.specs.String.{string_capacity};
ghost use Rattle.mail_words.specs.Folding.{folding};
ghost use Rattle.mail_words.specs.Words.{HasWordLength};
ghost use Rattle.mail_words.specs.Inside.Folds.{keeps_itself as keeps_itself_of};

use caseless::Caseless;
use std::alloc::{AllocError, Global};
use ucd_case::full_folding;

/// Returns the default caseless folding of a text (Unicode D144). Two words are equal if their foldings are. The
/// folding of a word, which has at most 128 bytes, has 1 to 1,024 bytes.
///
/// # Errors
///
/// `AllocError` if memory runs out.
pub fn fold(alloc: Global, word: &str) -> Result<String, AllocError>
    ensures exact { IfOk result (λ folded. string_bytes folded ≡ folding word.now) }
    ensures of_word { HasWordLength word.now → IfOk result
        (λ folded. (1 ≤ string_len folded) × (string_len folded ≤ 1024)) }
    ensures bound { IfOk result (λ folded. string_len folded ≤ 8 * length word.now) }
{
    let mut folded = String::new(alloc);
    fold_onto(word, &mut folded)?;
    Ok(folded)
}

/// Folds a whole text if it is ASCII, and returns whether it is. If so, `into` has the folding instead of what it had.
/// If not, or after an error, `into` may have anything. The words of such a folding are the foldings of the text's
/// words ([`crate::words_fold_with_their_text`]).
///
/// # Errors
///
/// `AllocError` if memory runs out, which it can only if `into` has less room than the text has bytes.
pub fn fold_ascii(text: &str, into: &mut String) -> Result<bool, AllocError>
    ensures is_ascii { IfOk result (λ is_ascii. Decides is_ascii (IsAscii text.now)) }
    ensures exact { IfOk result (λ is_ascii. IsTrue is_ascii
        → string_bytes into.new ≡ folding text.now) }

    // Memory is taken only if there is too little room.
    ensures full { OnErr result (string_capacity into.old < length text.now) }
{
    if !text.is_ascii() {
        return Ok(false);
    }
    into.clear();
    into.push_str(text)?;
    into.make_ascii_lowercase();
    Ok(true)
}

/// Returns whether folding leaves a character as it is.
pub(crate) fn keeps_itself(c: char) -> bool
    ensures { result ≡ keeps_itself_of c }
{
    full_folding(c).is_empty()
}

/// Returns whether folding leaves each character of a text as it is.
fn keeps_all(text: &str) -> bool
    ensures { result ≡ list_all keeps_itself_of (chars text.now) }
{
    text.chars().all(keeps_itself)
}

/// Adds the folding of a word to the end of `into`.
///
/// # Errors
///
/// `AllocError` if memory runs out, which it can only if `into` has too little room. Then `into` has what it had
/// before.
pub fn fold_onto(word: &str, into: &mut String) -> Result<(), AllocError>
    ensures exact { OnOk result
        (string_bytes into.new ≡ string_bytes into.old ++ folding word.now) }
    ensures of_word { HasWordLength word.now → OnOk result
        ((string_len into.old + 1 ≤ string_len into.new)
        × (string_len into.new ≤ string_len into.old + 1024)) }
    ensures bound { OnOk result
        (string_len into.new ≤ string_len into.old + 8 * length word.now) }

    // Memory is taken only if there is too little room.
    ensures full { OnErr result
        (string_capacity into.old < string_len into.old + length (folding word.now)) }
    ensures refused { OnErr result (string_bytes into.new ≡ string_bytes into.old) }
{
    if keeps_all(word) {
        return into.push_str(word);
    }
    let start = into.len();
    for c in word.chars().default_case_fold() {
        if let Err(want) = into.push(c) {
            into.truncate(start);
            return Err(want);
        }
    }
    Ok(())
}
