//! The folded words of a text, in memory that is used again for the next text.
ghost use Rattle.std.specs.Prelude.{◌≡◌, ◌≤◌, ℕ, List, [], ◌∷◌, ◌++◌, OnOk, length, map, sum};
ghost use Rattle.std.specs.List.{AllByRecursion};
ghost use Rattle.mail_index.specs.Builders.{IsInMessage};
ghost use Rattle.mail_words.specs.Folding.{folding};
ghost use Rattle.mail_words.specs.Words.{HasWordLength, words};
ghost use Rattle.index_job.specs.Indexing.{AddsTerms};
ghost use Rattle.index_job.specs.Inside.FoldedWords.{parts_of_lengths, HoldsWords};
ghost use Rattle.index_job.specs.MessageTerms.{word_terms, HasTermLength};

use crate::batch::Batch;
use crate::waiting_lines::WaitingLines;
use mail_index::{BuildFault, Builder};
use mail_words::{TextKind, Words, fold_onto};
use std::alloc::{AllocError, Global};

/// Memory for folding texts, and the waiting lines of the open message.
#[derive(Drop)]
pub(crate) struct FoldingRoom {
    // Either a text, folded as a whole; or its words, each folded, one after another. Means nothing for the next text.
    pub(crate) folded: String,
    // The number of bytes of each of these words.
    pub(crate) lengths: Vec<usize>,
    pub(crate) waiting: WaitingLines,
}

impl FoldingRoom {
    /// Returns an empty room. Takes the memory for waiting lines.
    pub(crate) fn new(alloc: Global) -> Result<Self, AllocError> {
        Ok(FoldingRoom {
            folded: String::new(alloc),
            lengths: Vec::new(alloc),
            waiting: WaitingLines::new(alloc)?,
        })
    }

    /// Folds each word of a text, and drops what the room had before.
    pub(crate) fn fold_words(&mut self, text: &str) -> Result<(), AllocError>
        ensures folded { OnOk result (HoldsWords self.new (map folding (words text.now))) }
        ensures waiting { self.new.waiting ≡ self.old.waiting }
    {
        self.folded.clear();
        self.lengths.clear();
        for word in Words::of(text) {
            self.fold_word(word)?;
        }
        Ok(())
    }

    /// Folds a word, and appends it to the others.
    fn fold_word(&mut self, word: &str) -> Result<(), AllocError>
        requires { HasWordLength word.now }
        ensures folded { OnOk result ((ws : List (List ℕ)) → HoldsWords self.old ws
            → HoldsWords self.new (ws ++ folding word.now ∷ [])) }
        ensures waiting { self.new.waiting ≡ self.old.waiting }
    {
        let start = self.folded.len();
        fold_onto(word, &mut self.folded)?;
        self.lengths.push(self.folded.len() - start)?;
        Ok(())
    }
}

/// Adds the words of a folded text to the builder.
pub(crate) fn add_words_of(
    builder: &mut Builder,
    kind: TextKind,
    folded: &str,
) -> Result<(), BuildFault>
    requires { IsInMessage builder.old }
    ensures terms { AddsTerms (word_terms kind (words folded.now)) result builder.old builder.new }
    ensures phase { IsInMessage builder.new }
{
    let mut batch = Batch::new();
    for word in Words::of(folded) {
        batch.push(builder, kind, word.as_bytes())?;
    }
    batch.add(builder, kind)
}

/// Adds folded words with these lengths, which are in the bytes one after another.
pub(crate) fn add_cut_words(
    builder: &mut Builder,
    kind: TextKind,
    bytes: &[u8],
    lengths: &[usize],
) -> Result<(), BuildFault>
    requires phase { IsInMessage builder.old }
    requires within { sum lengths.now ≤ length bytes.now }
    requires sizes { AllByRecursion HasTermLength (parts_of_lengths lengths.now bytes.now) }
    ensures terms { AddsTerms (word_terms kind (parts_of_lengths lengths.now bytes.now)) result
        builder.old builder.new }
    ensures phase { IsInMessage builder.new }
{
    let mut batch = Batch::new();
    let mut rest = bytes;
    for &length in lengths {
        let (word, after) = rest.split_at(length);
        batch.push(builder, kind, word)?;
        rest = after;
    }
    batch.add(builder, kind)
}
