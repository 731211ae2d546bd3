//! Cursors: the messages that satisfy a query, one after another, in the order of their numbers.
//!
//! A cursor is a tree of walks (decision 74 in docs/DECISIONS.md), and it counts each posting and record that it reads
//! (decision 75).
ghost use Rattle.std.specs.Prelude.{◌≡◌, ◌≤◌, length, IfOk};
ghost use Rattle.mail_query.specs.Meaning.{meaning};
ghost use Rattle.mail_answer.specs.TableFacts.{chosen_numbers};
ghost use Rattle.mail_answer.specs.CursorAhead.{CountsPostings, Spends};
ghost use Rattle.mail_answer.specs.CursorNumbers.{TakesFirst, TakesFrom};
ghost use Rattle.mail_answer.specs.Cursors.{most_steps};

mod begin;
mod head;
mod listed;
mod marked;
mod scanned;
mod texts;
mod walk;
mod window;

use crate::cursor::begin::walk_of;
use crate::cursor::walk::Walk;
use mail_index::{CountedIndex, IndexView, Steps};
use mail_query::Query;
use std::alloc::{AllocError, Global};
use std::marker::Model;

/// The rising numbers that still come, of the messages of an index that satisfy a query. No list of them is kept.
#[derive(Drop)]
pub struct Cursor<'a> {
    walk: Walk<'a>,
    // One past the last number that was returned.
    low: u32,
    // How many messages there are.
    count: u32,
}

impl<'a> Model for Cursor<'a> {
    ghost use Rattle.mail_answer.specs.Cursors.{ToCome};
    ghost use Rattle.mail_answer.specs.CursorNumbers.{walk_to_come, AreWithin};

    ghost Value = { ToCome };

    ghost view = { λ s. walk_to_come s.low s.count s.walk };

    ghost invariant = { λ s. AreWithin s.count s.walk.truths };
}

impl<'a> Cursor<'a> {
    ghost use Rattle.mail_index.specs.Steps.{add_steps};
    ghost use Rattle.mail_answer.specs.Cursors.{most_left, look_ups, look_up_steps, LooksUp};

    /// Begins a cursor over the messages of an index that satisfy a query.
    ///
    /// Takes all the memory that the cursor needs. Each Word looks up its text once in each of its kinds, and a look-up
    /// takes at most as many steps as the number of keys has binary digits. A Part also reads each key of its kinds,
    /// and a Prefix each key that begins with its text. To find these isn't counted, because it looks up no key.
    ///
    /// # Errors
    ///
    /// `AllocError` if that memory is refused.
    pub fn new(
        alloc: Global,
        index: &IndexView<'a>,
        query: &Query,
        steps: &mut Steps,
    ) -> Result<Cursor<'a>, AllocError>
        ensures numbers { IfOk result (λ c. c.numbers ≡ chosen_numbers index.now
            (meaning query.now)) }
        ensures left { IfOk result (λ c. c.left ≤ most_left index.now (meaning query.now)) }
        ensures exact { IfOk result (λ _. steps.new
            ≡ add_steps steps.old (look_up_steps index.now.keys (meaning query.now))) }
        ensures steps { LooksUp (length index.now.keys) (look_ups (meaning query.now))
            steps.old steps.new }
    {
        let index = CountedIndex::of(index);
        let count = index.message_count();
        let walk = walk_of(alloc, &index, query.root(), steps)?;
        Ok(Cursor {
            walk,
            low: 0,
            count,
        })
    }

    /// Returns the next number and drops it, or None at the end. Takes no memory, at most as many steps as `left` falls
    /// by, and at least one for each posting that is dropped.
    #[tactic(auto, using(crate::proofs::CursorLaws::Numbers::takes_first))]
    pub fn next(&mut self, steps: &mut Steps) -> Option<u32>
        ensures number { TakesFirst self.old.numbers self.new.numbers result }
        ensures steps { Spends self.old.left self.new.left steps.old steps.new }
        ensures postings { CountsPostings self.old.postings self.new.postings steps.old steps.new }
    {
        self.next_at_least(0, steps)
    }

    /// Returns the least number still to come that is at least n, and drops it with all before it. If there is none,
    /// drops all numbers. Takes no memory, at most as many steps as `left` falls by, and at least one for each posting
    /// that is dropped.
    pub fn next_at_least(&mut self, n: u32, steps: &mut Steps) -> Option<u32>
        ensures number { TakesFrom n self.old.numbers self.new.numbers result }
        ensures steps { Spends self.old.left self.new.left steps.old steps.new }
        ensures postings { CountsPostings self.old.postings self.new.postings steps.old steps.new }
    {
        let number = self.walk.least_from(n.max(self.low), steps)?;
        prove!(number < self.count);
        self.low = number + 1;
        Some(number)
    }
}

/// The numbers that still come from the cursor.
fn numbers_of(
    alloc: Global,
    cursor: &mut Cursor<'_>,
    steps: &mut Steps,
) -> Result<Vec<u32>, AllocError>
    ensures numbers { IfOk result (λ v. v.items ≡ cursor.old.numbers) }
    ensures steps { Spends cursor.old.left cursor.new.left steps.old steps.new }
{
    let mut numbers = Vec::new(alloc);
    while let Some(number) = cursor.next(steps) {
        numbers.push(number)?;
    }
    Ok(numbers)
}

/// The rising numbers, from 0, of the messages that satisfy the query: those of its cursor, with its steps on this
/// count.
pub(crate) fn matching(
    alloc: Global,
    index: &IndexView<'_>,
    query: &Query,
    steps: &mut Steps,
) -> Result<Vec<u32>, AllocError>
    ensures numbers { IfOk result (λ v. v.items ≡ chosen_numbers index.now (meaning query.now)) }
    ensures steps { IfOk result (λ _. Spends (most_steps index.now (meaning query.now)) 0
        steps.old steps.new) }
{
    let mut cursor = Cursor::new(alloc, index, query, steps)?;
    numbers_of(alloc, &mut cursor, steps)
}

/// The rising numbers, from 0, of the messages that satisfy the query: those of its cursor.
///
/// # Errors
///
/// `AllocError` if the memory of the cursor or of the result is refused.
pub fn matches(alloc: Global, index: &IndexView<'_>, query: &Query) -> Result<Vec<u32>, AllocError>
    ensures { IfOk result (λ v. v.items ≡ chosen_numbers index.now (meaning query.now)) }
{
    matching(alloc, index, query, &mut Steps::new(alloc, index))
}
