//! The numbers of the messages that have a key, read in place.
ghost use Rattle.std.specs.Prelude.{◌≡◌, ◌↔◌, ◌+◌, ◌-◌, ◌<◌, ◌≤◌, ℕ, List, [], ◌∷◌, ◌++◌, length, IsTrue, MatchOption};
ghost use Rattle.std.specs.List.{AllByRecursion};
ghost use Rattle.mail_index.specs.Steps.{add_steps};
ghost use Rattle.mail_index.specs.PostingReads.{ArePostings, ArePosted};
ghost use Rattle.mail_index.specs.Limits.{four_byte_limit};

use crate::view::leb128::split_difference;
use crate::view::short_differences::after_short_differences;
use crate::view::steps::Steps;
use std::marker::Model;

/// The rising numbers that still come, of the messages that have a key.
#[derive(Drop)]
pub struct Postings<'a> {
    bytes: &'a [u8],
    // One past the last number.
    low: u64,
}

impl<'a> Model for Postings<'a> {
    ghost use Rattle.std.specs.Prelude.{ℕ, List};
    ghost use Rattle.mail_index.specs.PostingReads.{numbers_read, ArePostings};
    ghost use Rattle.mail_index.specs.Limits.{four_byte_limit};

    ghost Value = { List ℕ };

    ghost view = { λ s. numbers_read s.low s.bytes.now };

    ghost invariant = { λ s.
        ArePostings four_byte_limit s.low s.bytes.now (numbers_read s.low s.bytes.now) };
}

impl<'a> Postings<'a> {
    /// The numbers whose postings these bytes are.
    pub(crate) fn of(bytes: &'a [u8]) -> Self
        requires { ArePosted four_byte_limit 0 bytes.now }
        ensures { (ns : List ℕ) → ArePostings four_byte_limit 0 bytes.now ns → result ≡ ns }
    {
        Postings { bytes, low: 0 }
    }

    /// An empty list of numbers.
    pub(crate) fn none() -> Self
        ensures { result ≡ [] }
    {
        Postings { bytes: &[], low: 0 }
    }

    /// Returns the next number and drops it: one step. At the end it returns None, drops nothing and counts no step.
    pub fn next(&mut self, steps: &mut Steps) -> Option<u32>
        ensures { MatchOption result ((self.old ≡ []) × (self.new ≡ []) × (steps.new ≡ steps.old))
            (λ n. (self.old ≡ n ∷ self.new) × (steps.new ≡ add_steps steps.old 1)) }
    {
        let (difference, after) = split_difference(self.bytes)?;
        self.bytes = after;
        self.low += difference;
        steps.tick();
        Some((self.low - 1) as u32)
    }

    /// Returns the least number still to come that is at least n, and drops it with all before it. If there is none,
    /// drops all numbers. Each dropped number is one step.
    pub fn next_at_least(&mut self, n: u32, steps: &mut Steps) -> Option<u32>
        ensures number { MatchOption result (AllByRecursion (λ m. m < n) self.old × (self.new ≡ []))
            (λ m. (n ≤ m) × ((dropped : List ℕ) × AllByRecursion (λ m. m < n) dropped
            × (self.old ≡ dropped ++ m ∷ self.new))) }
        ensures steps { steps.new ≡ add_steps steps.old (length self.old - length self.new) }
    {
        while let Some(number) = self.next(steps) {
            if number >= n {
                return Some(number);
            }
        }
        None
    }
}

/// Whether these bytes are the postings of one or more rising numbers below a count.
pub(crate) fn are_postings(bytes: &[u8], count: u32) -> bool
    ensures { IsTrue result ↔ ((0 < length bytes.now) × ArePosted count 0 bytes.now) }
{
    let (mut rest, mut low) = after_short_differences(bytes, count);
    while !rest.is_empty() {
        let Some((difference, after)) = split_difference(rest) else {
            return false;
        };
        if difference == 0 || low + difference > u64::from(count) {
            return false;
        }
        rest = after;
        low += difference;
    }
    !bytes.is_empty()
}
