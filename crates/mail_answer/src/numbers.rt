//! The numbers of the messages of an answer, one after another.
ghost use Rattle.std.specs.Prelude.{length, IfOk};
ghost use Rattle.mail_query.specs.Meaning.{meaning};
ghost use Rattle.mail_answer.specs.Inside.CursorLists.{AreNumbers};
ghost use Rattle.mail_answer.specs.CursorNumbers.{TakesFirst};
ghost use Rattle.mail_answer.specs.Mail.{AreChosenBy};
ghost use Rattle.mail_answer.specs.TableAnswers.{mail_of_table};

use crate::cursor::{Cursor, matching};
use crate::threads::threads_of;
use mail_index::{CountedIndex, IndexView, Steps};
use mail_query::Query;
use std::alloc::{AllocError, Global};
use std::marker::Model;
use std::vec::IntoIter;

/// Where the numbers come from.
#[derive(Drop)]
enum Source<'a> {
    /// The cursor of a query: no list of numbers is kept.
    Walked(Cursor<'a>),
    /// What is left of a list of numbers.
    Listed(IntoIter<u32, Global>),
}

/// The numbers of the messages of an answer that are still to come, rising.
#[derive(Drop)]
pub(crate) struct Numbers<'a> {
    source: Source<'a>,
    // Counts the steps of the cursor.
    steps: Steps,
}

impl<'a> Model for Numbers<'a> {
    ghost use Rattle.std.specs.Prelude.{ℕ, List};
    ghost use Rattle.mail_answer.specs.Inside.NumbersToCome.{to_come};

    ghost Value = { List ℕ };

    ghost view = { λ s. to_come s.source };
}

impl<'a> Numbers<'a> {
    /// Returns the numbers of the messages that satisfy a query, or with `threads` of all messages in their threads.
    /// Without `threads` no list of them is made. Fails if memory runs out.
    pub(crate) fn chosen(
        alloc: Global,
        index: &IndexView<'a>,
        query: &Query,
        threads: bool,
    ) -> Result<Self, AllocError>
        ensures chosen { IfOk result (λ numbers. AreChosenBy threads (mail_of_table index.now)
            (meaning query.now) numbers) }
        ensures numbers { IfOk result (λ numbers. AreNumbers (length index.now.messages) numbers) }
    {
        let mut steps = Steps::new(alloc, index);
        let source = if threads {
            let satisfying = matching(alloc, index, query, &mut steps)?;
            let counted = CountedIndex::of(index);
            let numbers = threads_of(alloc, &counted, satisfying.as_slice(), &mut steps)?;
            Source::Listed(numbers.into_iter())
        } else {
            let cursor = Cursor::new(alloc, index, query, &mut steps)?;
            Source::Walked(cursor)
        };
        Ok(Numbers { source, steps })
    }

    /// The next number.
    pub(crate) fn next(&mut self) -> Option<u32>
        ensures { TakesFirst self.old self.new result }
    {
        match &mut self.source {
            Source::Walked(cursor) => cursor.next(&mut self.steps),
            Source::Listed(numbers) => numbers.next(),
        }
    }
}
