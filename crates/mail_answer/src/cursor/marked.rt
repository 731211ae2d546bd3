//! The walk along many posting lists.
//!
//! A union of many lists marks the messages of a window, and walks along the marks. Going from list to list at each
//! number would be slowed down by memory at nearly every step (decision 74 in docs/DECISIONS.md).
ghost use Rattle.std.specs.Prelude.{◌≡◌, ◌+◌, ℕ, length};
ghost use Rattle.mail_answer.specs.CursorAhead.{CountsSteps, Drops, IsFirst, steps_left_in, union_of};
ghost use Rattle.mail_answer.specs.Inside.CursorMarks.{AreFew, HaveMarks, IsHead, marked_or_listed, marks_in};
ghost use Rattle.mail_answer.specs.Inside.CursorTexts.{some_has};
ghost use Rattle.mail_answer.specs.Marks.{Adds, truth_at};

use crate::cursor::head::{Head, is_none_below, lesser_of};
use crate::cursor::listed::Listed;
use crate::cursor::window::{WORDS, first_mark};
use mail_index::Steps;
use std::marker::Model;

/// The messages that are in at least one of many posting lists. Those in the window are marked. Once no mark is left,
/// the window begins anew at the least number of the lists.
#[derive(Drop)]
pub(crate) struct Marked<'a> {
    // The lists, each from its first number after the window on. Those at their end are taken out.
    lists: Vec<Listed<'a>>,
    // The least number of the lists.
    ahead: Head,
    // Whether each message of the window is in a list: a bit for each.
    words: [u64; WORDS],
    // The first message of the window.
    start: u32,
    // All messages below this number are dropped.
    low: u32,
}

impl<'a> Model for Marked<'a> {
    ghost use Rattle.mail_answer.specs.CursorAhead.{WalkAhead};
    ghost use Rattle.mail_answer.specs.Inside.CursorMarks.{HaveMarks, marks_ahead, marks_in};

    ghost Value = { WalkAhead };

    ghost view = { λ s. marks_ahead s.low s.start (marks_in s.words) s.lists.items };

    ghost invariant = { λ s. HaveMarks s.start (marks_in s.words) s.lists.items s.ahead };
}

/// Marks the messages of all lists that are in the window from `start` on. Drops them and all before them, and returns
/// the first of the others. Takes out each list that comes to its end.
fn mark_all(
    lists: &mut Vec<Listed<'_>>,
    start: u32,
    words: &mut [u64],
    steps: &mut Steps,
) -> Option<u32>
    requires { AreFew lists.old.items }
    ensures rest { Drops (start + length (marks_in words.old)) (union_of lists.old.items)
        (union_of lists.new.items) }
    ensures number { IsFirst (union_of lists.new.items) result }
    ensures marks { Adds (λ k. truth_at (union_of lists.old.items) (start + k))
        (marks_in words.old) (marks_in words.new) }
    ensures steps { CountsSteps (steps_left_in lists.old.items)
        (steps_left_in lists.new.items) steps.old steps.new }
{
    let mut least = None;
    let mut place = 0;
    while place < lists.len() {
        match lists[place].mark_from(start, words, steps) {
            Some(number) => {
                least = lesser_of(least, Some(number));
                place += 1;
            }
            None => {
                lists.swap_remove(place);
            }
        }
    }
    least
}

/// Returns the first message from n on that is in a list, and drops all before it.
#[tactic(auto, using(crate::proofs::CursorLaws::MarkedLists::drops_at_once))]
fn least_ahead(lists: &mut Vec<Listed<'_>>, ahead: Head, n: u32, steps: &mut Steps) -> Option<u32>
    requires few { AreFew lists.old.items }
    requires ahead { IsHead (union_of lists.old.items) ahead }
    ensures rest { Drops n (union_of lists.old.items) (union_of lists.new.items) }
    ensures number { IsFirst (union_of lists.new.items) result }
    ensures steps { CountsSteps (steps_left_in lists.old.items)
        (steps_left_in lists.new.items) steps.old steps.new }
{
    if let Head::Asked(first) = ahead
        && is_none_below(first, n)
    {
        return first;
    }
    mark_all(lists, n, &mut [], steps)
}

/// Begins the window anew at the first message from n on that is in a list, and returns this message. If there is none,
/// no message is left.
fn begin_window(
    lists: &mut Vec<Listed<'_>>,
    ahead: &mut Head,
    words: &mut [u64; WORDS],
    start: &mut u32,
    n: u32,
    steps: &mut Steps,
) -> Option<u32>
    requires { HaveMarks start.old (marks_in words.old) lists.old.items ahead.old }
    ensures marks { HaveMarks start.new (marks_in words.new) lists.new.items ahead.new }
    ensures rest { Drops n (union_of lists.old.items)
        (marked_or_listed start.new (marks_in words.new) lists.new.items) }
    ensures number { IsFirst (marked_or_listed start.new (marks_in words.new) lists.new.items)
        result }
    ensures steps { CountsSteps (steps_left_in lists.old.items)
        (steps_left_in lists.new.items) steps.old steps.new }
{
    let number = least_ahead(lists, *ahead, n, steps);
    *ahead = Head::Asked(number);
    *words = [0; WORDS];
    if let Some(first) = number {
        *start = first;
        *ahead = Head::Asked(mark_all(lists, first, words.as_mut_slice(), steps));
    }
    number
}

impl<'a> Marked<'a> {
    /// The walk through the messages that are in at least one of these lists.
    pub(crate) fn new(lists: Vec<Listed<'a>>) -> Self
        requires { AreFew lists.items }
        ensures truths { (m : ℕ) → truth_at result.truths m ≡ some_has m lists.entry.items }
        ensures left { result.left ≡ steps_left_in lists.entry.items }
    {
        Marked {
            lists,
            ahead: Head::Unasked,
            words: [0; WORDS],
            start: 0,
            low: 0,
        }
    }

    /// Returns the least number still to come that is at least n, and drops all before it.
    pub(crate) fn least_from(&mut self, n: u32, steps: &mut Steps) -> Option<u32>
        ensures rest { Drops n self.old.truths self.new.truths }
        ensures number { IsFirst self.new.truths result }
        ensures steps { CountsSteps self.old.left self.new.left steps.old steps.new }
        ensures below { self.new.below ≡ self.old.below }
    {
        self.low = n.max(self.low);
        if let Some(number) = first_mark(self.words.as_slice(), self.start, self.low) {
            return Some(number);
        }
        begin_window(
            &mut self.lists,
            &mut self.ahead,
            &mut self.words,
            &mut self.start,
            self.low,
            steps,
        )
    }
}
