//! Laws of the definitions that contracts use.
ghost use Rattle.std.specs.Prelude.{◌≡◌, ℕ, List};
ghost use Rattle.header_text.specs.EncodedWords.{WordAfter, AreLeftmost, value_pieces};

/// The encoded words of a value are its leftmost ones: each is the leftmost at or after the end of the one before.
pub fn encoded_words_are_leftmost()
    ensures { (value : List ℕ) → AreLeftmost value (value_pieces value).words
        (value_pieces value).rest }
{}

/// No other words are the leftmost ones.
pub fn encoded_words_are_the_only_leftmost()
    ensures { (value : List ℕ) (ws : List WordAfter) (rest : List ℕ) → AreLeftmost value ws rest
        → value_pieces value ≡ record { words = ws; rest = rest } }
{}
