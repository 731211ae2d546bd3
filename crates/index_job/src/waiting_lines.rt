//! Folded lines of a message's body, whose words are added to an index together.
ghost use Rattle.std.specs.Prelude.{◌≡◌, [], ◌++◌, IfOk, OnOk};
ghost use Rattle.mail_index.specs.Builders.{IsInMessage};
ghost use Rattle.mail_words.specs.Words.{words};
ghost use Rattle.mail_words.specs.declared.kind.TextKind.TheVariants.{Body};
ghost use Rattle.index_job.specs.Indexing.{AddsTerms};
ghost use Rattle.index_job.specs.Inside.WaitingLines.{with_waiting};
ghost use Rattle.index_job.specs.MessageTerms.{word_terms};

use crate::folding_room::add_words_of;
use mail_index::{BuildFault, Builder};
use mail_words::TextKind;
use std::alloc::{AllocError, Global};
use std::marker::Model;

/// The most bytes of waiting lines: enough for nearly all batches of their words to be full.
const MOST_BYTES: usize = 4096;

/// Waiting lines of a body, folded. They are added together, because the words of one line are too few to fill batches.
/// Contracts see their words.
#[derive(Drop)]
pub(crate) struct WaitingLines {
    // Each line comes after a line break, which no word has. So words don't go on in the next line.
    text: String,
}

impl Model for WaitingLines {
    ghost use Rattle.std.specs.Prelude.{List, ℕ, string_bytes};
    ghost use Rattle.mail_words.specs.Words.{words};

    ghost Value = { List (List ℕ) };

    ghost view = { λ s. words (string_bytes s.text) };
}

impl WaitingLines {
    /// Returns no lines. Takes the memory for those to come.
    pub(crate) fn new(alloc: Global) -> Result<Self, AllocError>
        ensures { IfOk result (λ lines. lines ≡ []) }
    {
        Ok(WaitingLines {
            text: String::with_capacity(alloc, MOST_BYTES)?,
        })
    }

    /// Forgets all lines.
    pub(crate) fn clear(&mut self)
        ensures { self.new ≡ [] }
    {
        self.text.clear();
    }

    /// Adds the words of all lines to the builder, and forgets the lines.
    pub(crate) fn add(&mut self, builder: &mut Builder) -> Result<(), BuildFault>
        requires { IsInMessage builder.old }
        ensures terms { AddsTerms (word_terms Body self.old) result builder.old builder.new }
        ensures phase { IsInMessage builder.new }
        ensures none { OnOk result (self.new ≡ []) }
    {
        if self.text.is_empty() {
            return Ok(());
        }
        add_words_of(builder, TextKind::Body, self.text.as_str())?;
        self.clear();
        Ok(())
    }

    /// Appends a line. If there is no room for it, it is added to the builder, after all others.
    pub(crate) fn push(&mut self, builder: &mut Builder, line: &str) -> Result<(), BuildFault>
        requires { IsInMessage builder.old }
        ensures terms { AddsTerms (word_terms Body (words line.now)) result
            (with_waiting self.old builder.old) (with_waiting self.new builder.new) }
        ensures phase { IsInMessage builder.new }
    {
        if self.text.len() + line.len() < MOST_BYTES {
            self.wait(line)?;
            return Ok(());
        }
        self.add(builder)?;
        add_words_of(builder, TextKind::Body, line)
    }

    /// Appends a line.
    fn wait(&mut self, line: &str) -> Result<(), AllocError>
        ensures { OnOk result (self.new ≡ self.old ++ words line.now) }
    {
        self.text.push('\n')?;
        self.text.push_str(line)
    }
}
