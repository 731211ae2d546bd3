//! The walk along the records of the messages.
ghost use Rattle.std.specs.Prelude.{◌≡◌, ◌-◌, length};
ghost use Rattle.mail_index.specs.Steps.{add_steps};
ghost use Rattle.mail_answer.specs.CursorAhead.{Drops, IsFirst, Spends};
ghost use Rattle.mail_answer.specs.Inside.CursorScans.{is_as_asked as is_as_asked_of, satisfies, Scans};

use crate::cursor::listed::is_before;
use mail_dates::Range;
use mail_index::{Record, Records, Steps};
use mail_words::Flag;
use std::marker::Model;

/// A condition on a message's record.
#[derive(Clone, Copy, Drop)]
pub(crate) enum Asked {
    /// No condition.
    Any,
    /// The date is in the range.
    Date(Range),
    /// The size is between these, both included; a `high` of None is no bound.
    Size { low: u64, high: Option<u64> },
    /// The message has the flag; if `wanted` is false, it doesn't have it.
    Flag { flag: Flag, wanted: bool },
}

/// Whether the record meets the condition.
fn is_as_asked(asked: Asked, message: Record) -> bool
    ensures { result ≡ is_as_asked_of asked message }
{
    match asked {
        Asked::Any => true,
        Asked::Date(range) => range.has(message.date),
        Asked::Size { low, high } => {
            low <= message.size && message.size <= high.unwrap_or(u64::MAX)
        }
        Asked::Flag { flag, wanted } => {
            let has = match flag {
                Flag::Seen => message.flags.seen,
                Flag::Replied => message.flags.replied,
                Flag::Flagged => message.flags.flagged,
            };
            has == wanted
        }
    }
}

/// Reads the records from the next one on, a step each, up to the first that meets the condition. Returns the number of
/// this one.
fn next_asked(records: &Records<'_>, asked: Asked, next: &mut u32, steps: &mut Steps) -> Option<u32>
    ensures found { Scans (length records.now) (satisfies records.now asked) next.old next.new
        result }
    ensures looked { steps.new ≡ add_steps steps.old (next.new - next.old) }
    ensures steps { Spends (length records.now - next.old) (length records.now - next.new)
        steps.old steps.new }
{
    while *next < records.len() {
        let number = *next;
        *next = number + 1;
        if is_as_asked(asked, records.look_at(number, steps)) {
            return Some(number);
        }
    }
    None
}

/// The messages still to come whose records meet the condition. The first of them may have been found already.
///
/// It has only the records, of which each look is a step, and no index in which it could look up a key.
#[derive(Drop)]
pub(crate) struct Scanned<'a> {
    records: Records<'a>,
    asked: Asked,
    next: u32,
    first: Option<u32>,
}

impl<'a> Model for Scanned<'a> {
    ghost use Rattle.std.specs.Prelude.{length};
    ghost use Rattle.mail_answer.specs.Inside.CursorScans.{scan_ahead, IsFound};
    ghost use Rattle.mail_answer.specs.CursorAhead.{WalkAhead};

    ghost Value = { WalkAhead };

    ghost view = { λ s. scan_ahead s.records s.asked s.next s.first };

    ghost invariant = { λ s. IsFound (length s.records) s.next s.first };
}

impl<'a> Scanned<'a> {
    ghost use Rattle.mail_answer.specs.Marks.{each_number};

    /// The walk through all messages whose records meet the condition.
    pub(crate) fn new(records: Records<'a>, asked: Asked) -> Self
        ensures truths { result.truths
            ≡ each_number (length records.entry) (satisfies records.entry asked) }
        ensures left { result.left ≡ length records.entry }
    {
        Scanned {
            records,
            asked,
            next: 0,
            first: None,
        }
    }

    /// Returns the least number still to come that is at least n, and drops all before it.
    pub(crate) fn least_from(&mut self, n: u32, steps: &mut Steps) -> Option<u32>
        ensures rest { Drops n self.old.truths self.new.truths }
        ensures number { IsFirst self.new.truths result }
        ensures steps { Spends self.old.left self.new.left steps.old steps.new }
        ensures below { self.new.below ≡ self.old.below }
    {
        if !is_before(self.first, n) {
            return self.first;
        }
        self.next = n.max(self.next);
        self.first = next_asked(&self.records, self.asked, &mut self.next, steps);
        self.first
    }
}
