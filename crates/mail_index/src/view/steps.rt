//! A count of work done.
ghost use Rattle.std.specs.Prelude.{◌≡◌, ℕ, ◌-◌};

use crate::view::index_view::IndexView;
use std::alloc::Global;
use std::marker::Model;

/// How many steps a search has taken.
///
/// One step is the comparison of one entry of the directory, the reading of one number of a key's messages, or the look
/// at one record. The count stops at the greatest value of a `u64`.
///
/// A new count needs a view of an index and an allocator, though it uses neither. A look-up has no allocator. Code that
/// goes through postings, keys, records or a `CountedIndex` has no view. So neither has what a count begins with
/// (decision 75 in docs/DECISIONS.md).
#[derive(Drop)]
pub struct Steps {
    count: u64,
}

impl Model for Steps {
    ghost Value = { ℕ };

    ghost view = { λ s. s.count };
}

impl Steps {
    ghost use Rattle.mail_index.specs.Steps.{add_steps};

    /// A count of 0, for a search of this index. Takes no memory.
    pub fn new(_alloc: Global, _index: &IndexView<'_>) -> Self
        ensures { result ≡ 0 }
    {
        Steps { count: 0 }
    }

    /// Counts one more step.
    pub fn tick(&mut self)
        ensures { self.new ≡ add_steps self.old 1 }
    {
        self.count = self.count.saturating_add(1);
    }

    /// How many steps were counted.
    pub fn count(&self) -> u64
        ensures { result ≡ self.now }
    {
        self.count
    }
}
