//! The walk along a posting list.
ghost use Rattle.std.specs.Prelude.{◌≡◌, ◌+◌, [], length, IfNone};
ghost use Rattle.mail_index.specs.Tables.{RisesFrom};
ghost use Rattle.mail_answer.specs.TableFacts.{is_number_among};
ghost use Rattle.mail_answer.specs.Marks.{Adds, truth_at};
ghost use Rattle.mail_answer.specs.CursorAhead.{CountsSteps, Drops, IsFirst};
ghost use Rattle.mail_answer.specs.Inside.CursorLists.{truths_among, AreDroppedBelow, AreNumbers, is_before as is_before_of, numbers_ahead};
ghost use Rattle.mail_answer.specs.Inside.CursorMarks.{marks_in};

use crate::cursor::window::mark_at;
use mail_index::{Postings, Steps};
use std::marker::Model;

/// The messages of a posting list that still come. The first of them may have been taken from the list already.
#[derive(Drop)]
pub(crate) struct Listed<'a> {
    count: u32,
    first: Option<u32>,
    postings: Postings<'a>,
}

impl<'a> Model for Listed<'a> {
    ghost use Rattle.mail_answer.specs.Inside.CursorLists.{list_ahead, numbers_ahead, AreNumbers};
    ghost use Rattle.mail_answer.specs.CursorAhead.{WalkAhead};

    ghost Value = { WalkAhead };

    ghost view = { λ s. list_ahead s.count s.first s.postings };

    ghost invariant = { λ s. AreNumbers s.count (numbers_ahead s.first s.postings) };
}

/// Whether there is no number yet, or one below n.
pub(crate) fn is_before(first: Option<u32>, n: u32) -> bool
    ensures { result ≡ is_before_of first n }
{
    match first {
        Some(number) => number < n,
        None => true,
    }
}

/// Returns the first number that is at least n, and drops all before it. The first number may have been taken from its
/// list already.
fn first_from(
    first: Option<u32>,
    after: &mut Postings<'_>,
    n: u32,
    steps: &mut Steps,
) -> Option<u32>
    requires { RisesFrom 0 (numbers_ahead first after.old) }
    ensures rest { AreDroppedBelow n (numbers_ahead first after.old)
        (numbers_ahead result after.new) }
    ensures steps { CountsSteps (length after.old) (length after.new) steps.old steps.new }
    ensures ended { IfNone result (after.new ≡ []) }
{
    if !is_before(first, n) {
        return first;
    }
    after.next_at_least(n, steps)
}

/// Marks the numbers that are in the window from `start` on. Drops them and all before them, and returns the first of
/// the others.
///
/// This loop is most of the work of a large union. So it keeps the first number to itself, and takes each one from the
/// list without comparing it with the last.
fn mark_numbers(
    first: Option<u32>,
    after: &mut Postings<'_>,
    start: u32,
    words: &mut [u64],
    steps: &mut Steps,
) -> Option<u32>
    requires { RisesFrom 0 (numbers_ahead first after.old) }
    ensures rest { AreDroppedBelow (start + length (marks_in words.old))
        (numbers_ahead first after.old) (numbers_ahead result after.new) }
    ensures marks { Adds (λ k. is_number_among (start + k) (numbers_ahead first after.old))
        (marks_in words.old) (marks_in words.new) }
    ensures steps { CountsSteps (length after.old) (length after.new) steps.old steps.new }
    ensures ended { IfNone result (after.new ≡ []) }
{
    let mut least = first_from(first, after, start, steps);
    while let Some(number) = least {
        if !mark_at(words, (number - start) as usize) {
            break;
        }
        least = after.next(steps);
    }
    least
}

impl<'a> Listed<'a> {
    /// The walk along these postings, whose numbers are below `count`.
    pub(crate) fn new(count: u32, postings: Postings<'a>) -> Self
        requires { AreNumbers count postings }
        ensures truths { result.truths ≡ truths_among count postings.entry }
        ensures left { result.left ≡ length postings.entry }
    {
        Listed {
            count,
            first: None,
            postings,
        }
    }

    /// Returns the least number still to come that is at least n, and drops all before it.
    pub(crate) fn least_from(&mut self, n: u32, steps: &mut Steps) -> Option<u32>
        ensures rest { Drops n self.old.truths self.new.truths }
        ensures number { IsFirst self.new.truths result }
        ensures steps { CountsSteps self.old.left self.new.left steps.old steps.new }
        ensures ended { IfNone result (self.new.left ≡ 0) }
        ensures below { self.new.below ≡ self.old.below }
    {
        self.first = first_from(self.first, &mut self.postings, n, steps);
        self.first
    }

    /// Marks the messages that are in the window from `start` on. Drops them and all before them, and returns the first
    /// of the others.
    pub(crate) fn mark_from(
        &mut self,
        start: u32,
        words: &mut [u64],
        steps: &mut Steps,
    ) -> Option<u32>
        ensures rest { Drops (start + length (marks_in words.old)) self.old.truths self.new.truths }
        ensures number { IsFirst self.new.truths result }
        ensures marks { Adds (λ k. truth_at self.old.truths (start + k))
            (marks_in words.old) (marks_in words.new) }
        ensures steps { CountsSteps self.old.left self.new.left steps.old steps.new }
        ensures ended { IfNone result (self.new.left ≡ 0) }
    {
        self.first = mark_numbers(self.first, &mut self.postings, start, words, steps);
        self.first
    }
}
