//! Calls with enough memory, a caller's loop, and texts on which a reader must not start over.
ghost use Rattle.std.specs.Prelude.{◌≡◌, string_bytes, IfOk};
ghost use Rattle.std.specs.List.{concat};
ghost use Rattle.mail_words.specs.Words.{words};

use crate::rows::bytes_of;
use mail_words::{Words, fold, fold_ascii, fold_evenly, fold_onto, is_one_word, is_part_of_word};
use std::alloc::{AllocError, Global};

/// Returns the words of a text, one after the other.
fn joined(alloc: Global, text: &str) -> Result<String, AllocError>
    ensures { IfOk result (λ all. string_bytes all ≡ concat (words text.now)) }
{
    let mut all = String::new(alloc);
    for word in Words::of(text) {
        prove!(!word.is_empty() && word.len() <= 128);
        all.push_str(word)?;
    }
    Ok(all)
}

fn word_count(text: &str) -> u32 {
    let mut count = 0u32;
    for _ in Words::of(text) {
        count = count.wrapping_add(1);
    }
    count
}

#[test]
fn words_come_in_order(rt: HostRuntime) {
    let all = joined(rt.alloc(), "e-mail, a_b!").expect(&rt, "all words");
    assert!(rt; all.as_str() == "ee-mailmailaa_bb");
}

/// Whether a word folds to this.
fn folds_to(alloc: Global, word: &str, folded: &str) -> Option<bool> {
    Some(fold(alloc, word).ok()?.as_str() == folded)
}

/// Whether words are folded after the text that is there, and a word of ASCII only is folded whole, in place of the
/// text that is there.
fn folds_all(folded: &mut String) -> Result<bool, AllocError> {
    fold_onto("ΣΑΣ", folded)?;
    fold_onto("E-MAIL", folded)?;
    let folds_onto = folded.as_str() == "before σασe-mail";
    let folds_greek = fold_ascii("ΣΑΣ", folded)?;
    let folds = fold_ascii("To E-MAIL", folded)?;
    Ok(folds_onto && !folds_greek && folds && folded.as_str() == "to e-mail")
}

/// Whether a text whose characters fold evenly is folded whole, in place of the text that is there, and no other text.
fn folds_evenly(folded: &mut String) -> Result<bool, AllocError> {
    let folds_sharp_s = fold_evenly("Straße", folded)?;
    let folds = fold_evenly("ΣΑΣ, Привет a-Çd", folded)?;
    Ok(!folds_sharp_s && folds && folded.as_str() == "σασ, привет a-çd")
}

/// Whether letters at the ends of the ranges that are looked for sixteen bytes at a time are folded, and those next to
/// them: a text with ß or ΰ isn't folded whole.
fn folds_ends_of_ranges(folded: &mut String) -> Result<bool, AllocError> {
    let folds_sharp_s = fold_evenly("à bientôt: Straße", folded)?;
    let folds_upsilon = fold_evenly("καλημέρα, ΰ", folded)?;
    let folds_ligature = fold_evenly("доброе утро, և", folded)?;
    let folds = fold_evenly("µÞàÿΫάαοπςώϏЯапрџѠѡאक Ⴀ", folded)?;
    Ok(
        !folds_sharp_s
            && !folds_upsilon
            && !folds_ligature
            && folds
            && folded.as_str() == "μþàÿϋάαοπσώϗяапрџѡѡאक ⴀ",
    )
}

#[test]
fn words_fold(rt: HostRuntime) {
    let mut folded = String::from_str(rt.alloc(), "before ").expect(&rt, "a text");
    assert!(rt; folds_all(&mut folded).unwrap_or(false));
    assert!(rt; folds_evenly(&mut folded).unwrap_or(false));
    assert!(rt; folds_ends_of_ranges(&mut folded).unwrap_or(false));
    assert!(rt; folds_to(rt.alloc(), "Straße", "strasse").unwrap_or(false));
}

/// The gate refuses each allocation of this test in turn.
#[test]
fn sweep_fold(rt: HostRuntime) {
    assert!(rt; folds_to(rt.alloc(), "Straße", "strasse").unwrap_or(true));
}

#[test]
fn pieces_are_reported(rt: HostRuntime) {
    let is_one = is_one_word("e-mail") && !is_one_word("e-mail-");
    assert!(rt; is_one && is_part_of_word("e-mail-") && !is_part_of_word(""));
    assert!(rt; is_part_of_word("aªÖØöø") && !is_part_of_word("a×") && !is_part_of_word("a÷"));
}

/// Whether the text of a row has this many words.
fn has_words(alloc: Global, row: &str, count: u32) -> Option<bool> {
    let bytes = bytes_of(alloc, row)?;
    Some(word_count(str::from_utf8(&bytes).ok()?) == count)
}

#[test]
fn long_runs_take_linear_time(rt: HostRuntime) {
    assert!(rt; has_words(rt.alloc(), "{393216*a-}", 393_216).unwrap_or(false));
    assert!(rt; has_words(rt.alloc(), "a{100000*-}b", 2).unwrap_or(false));
}
