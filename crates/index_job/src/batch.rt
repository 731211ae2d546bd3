//! Folded words that are added to an index together.
ghost use Rattle.std.specs.Prelude.{◌≡◌, ◌<◌, nat_le, [], ◌∷◌, ◌++◌, IfErr, OnOk, length};
ghost use Rattle.mail_index.specs.Builders.{IsInMessage};
ghost use Rattle.index_job.specs.Indexing.{draft_with_terms, AddsTerms, IsFaultOfAdding};
ghost use Rattle.index_job.specs.MessageTerms.{word_terms, HasTermLength};

use mail_index::{BuildFault, Builder, Kind, Prefetched};
use mail_words::TextKind;
use std::marker::Model;

/// The most words of a batch. Their keys come from memory together, in about the time of one.
const MOST_WAITING: usize = 24;

/// Folded words whose keys are fetched from memory together, before any of the words is added. Takes no memory of its
/// own.
#[derive(Drop)]
pub(crate) struct Batch<'a> {
    words: [&'a [u8]; MOST_WAITING],
    // Guesses where their keys are.
    places: [Prefetched; MOST_WAITING],
    // The number of words. Items after them mean nothing.
    count: usize,
}

impl<'a> Model for Batch<'a> {
    ghost use Rattle.std.specs.Prelude.{List, ℕ, ◌≤◌, map, take};
    ghost use Rattle.std.specs.List.{AllByRecursion};
    ghost use Rattle.index_job.specs.MessageTerms.{HasTermLength};
    ghost use Rattle.index_job.specs.declared.batch.TheConstants.{MOST_WAITING};

    ghost Value = { List (List ℕ) };

    ghost view = { λ s. map (λ w. w.now) (take s.count s.words) };

    ghost invariant = { λ s. (s.count ≤ MOST_WAITING)
        × AllByRecursion HasTermLength (map (λ w. w.now) (take s.count s.words)) };
}

impl<'a> Batch<'a> {
    /// Returns an empty batch.
    pub(crate) fn new() -> Self
        ensures { result ≡ [] }
    {
        Batch {
            words: [&[]; MOST_WAITING],
            places: [Prefetched::NOWHERE; MOST_WAITING],
            count: 0,
        }
    }

    /// Adds all words of the batch to the builder. The batch is empty then.
    pub(crate) fn add(&mut self, builder: &mut Builder, kind: TextKind) -> Result<(), BuildFault>
        requires { IsInMessage builder.old }
        ensures terms { AddsTerms (word_terms kind self.old) result builder.old builder.new }
        ensures phase { IsInMessage builder.new }
        ensures none { OnOk result (self.new ≡ []) }
    {
        let count = self.count;
        builder.prefetch(&mut self.places[..count]);
        self.add_prefetched(builder, kind)?;
        self.count = 0;
        Ok(())
    }

    /// Adds each word to the builder, with the guess where its key is.
    fn add_prefetched(&self, builder: &mut Builder, kind: TextKind) -> Result<(), BuildFault>
        requires { IsInMessage builder.old }
        ensures terms { AddsTerms (word_terms kind self.now) result builder.old builder.new }
        ensures phase { IsInMessage builder.new }
    {
        for index in 0..self.count {
            let word = self.words[index];
            builder.add_prefetched(Kind::Text(kind), word, self.places[index])?;
        }
        Ok(())
    }

    /// Appends a word to the batch, unless a quick look finds that the message has it already. A full batch is added to
    /// the builder first.
    // Inlined because it is called for each word.
    #[inline(always)]
    pub(crate) fn push(
        &mut self,
        builder: &mut Builder,
        kind: TextKind,
        word: &'a [u8],
    ) -> Result<(), BuildFault>
        requires phase { IsInMessage builder.old }
        requires word { HasTermLength word.now }
        ensures ok { OnOk result
            (draft_with_terms (word_terms kind (self.old ++ word.now ∷ [])) builder.old
            ≡ draft_with_terms (word_terms kind self.new) builder.new) }
        ensures err { IfErr result
            (IsFaultOfAdding (draft_with_terms (word_terms kind self.old) builder.old)) }
        ensures phase { IsInMessage builder.new }
    {
        let key = Kind::Text(kind);
        let place = Prefetched::of(key, word);
        if builder.has_recent(key, word, place) {
            return Ok(());
        }
        if self.is_full() {
            self.add(builder, kind)?;
        }
        self.wait(word, place);
        Ok(())
    }

    /// Whether the batch has no room for another word.
    fn is_full(&self) -> bool
        ensures { result ≡ nat_le MOST_WAITING (length self.now) }
    {
        self.count >= MOST_WAITING
    }

    /// Appends a word, with a guess where its key is.
    fn wait(&mut self, word: &'a [u8], place: Prefetched)
        requires word { HasTermLength word.now }
        requires room { length self.old < MOST_WAITING }
        ensures { self.new ≡ self.old ++ word.now ∷ [] }
    {
        let count = self.count;
        self.words[count] = word;
        self.places[count] = place;
        self.count = count + 1;
    }
}
