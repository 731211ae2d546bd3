//! Finds where the keys of a kind that begin with a text begin and end. In the order of keys they follow one another.
ghost use Rattle.std.specs.Prelude.{◌≡◌, ◌<◌, ◌≤◌, ℕ, length};
ghost use Rattle.std.specs.Ordering.{ordering_index};
ghost use Rattle.mail_index.specs.Inside.KeyRuns.{lies_to_run};
ghost use Rattle.mail_index.specs.KeysRead.{key_at};

use crate::kind::{Kind, compare_keys};
use crate::places::KIND_AT;
use crate::view::directory::Directory;
use std::cmp::Ordering;

/// Compares the key with this number with the run of keys of a kind that begin with a text.
fn compare_to_run(directory: &Directory<'_>, number: u32, kind: Kind, text: &[u8]) -> Ordering
    requires { number < length directory.now }
    ensures { result ≡ lies_to_run kind text.now (key_at directory.now number) }
{
    let entry = directory.entry_at(number);
    let own = entry.text();
    // Only as much of its own text is compared as the searched text has.
    let front = own.split_at(own.len().min(text.len())).0;
    compare_keys(entry.entries[KIND_AT], front, kind.number(), text)
}

/// Finds where a part of the keys begins, by a binary search.
///
/// A run is the keys of one kind that begin with one text. In the order of keys, first come those before the run
/// (`Less`), then the run (`Equal`), then those after it (`Greater`). Returns the number of the first key whose place
/// is `least` or later; if there is none, the number of keys.
pub(super) fn first_that_lies(
    least: Ordering,
    directory: &Directory<'_>,
    kind: Kind,
    text: &[u8],
) -> u32
    ensures within { result ≤ length directory.now }
    ensures below { (j : ℕ) → j < result
        → ordering_index (lies_to_run kind text.now (key_at directory.now j))
        < ordering_index least }
    ensures above { (j : ℕ) → result ≤ j → j < length directory.now → ordering_index least
        ≤ ordering_index (lies_to_run kind text.now (key_at directory.now j)) }
{
    let mut low = 0;
    let mut high = directory.len();
    while low < high {
        let middle = low + (high - low) / 2;
        if compare_to_run(directory, middle, kind, text) < least {
            low = middle + 1;
        } else {
            high = middle;
        }
    }
    low
}
