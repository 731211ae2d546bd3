//! Laws of the words of a text. The functions do nothing, because their contracts are the laws.
ghost use Rattle.std.specs.Prelude.{◌≡◌, ℕ, List, true, map, chars, IsAscii, IsUtf8};
ghost use Rattle.std.specs.List.{list_all};
ghost use Rattle.contract_words.specs.Ranges.{AreInOrder};
ghost use Rattle.mail_words.specs.Folding.{folding, folds_evenly};
ghost use Rattle.mail_words.specs.Words.{word_ranges, words};

/// Words are in the order of where they begin; if two begin together, the shorter comes first. So no word is listed
/// twice.
pub fn words_are_in_order()
    ensures { (text : List ℕ) → AreInOrder (word_ranges text) }
{}

/// In ASCII the words of a text's folding are the foldings of its words, in order. Beyond ASCII that needn't be so,
/// because a folded word may have more bytes than a word can have.
pub fn words_fold_with_their_text()
    ensures { (text : List ℕ) → IsAscii text → words (folding text) ≡ map folding (words text) }
{}

/// If each character of a text folds evenly, the words of the text's folding are the foldings of its words too.
pub fn words_fold_evenly()
    ensures { (text : List ℕ) → IsUtf8 text → list_all folds_evenly (chars text) ≡ true
        → words (folding text) ≡ map folding (words text) }
{}
