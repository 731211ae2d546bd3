//! The calls on names that were done, which only clauses read.
ghost use Rattle.std.specs.Prelude.{◌≡◌, ◌∷◌, [], ℕ, List};
ghost use Rattle.std.specs.Borrow.{ftrue};
ghost use Rattle.std.specs.Coded.{coded_list};
ghost use Rattle.mairix_files.specs.NameCalls.{NameCall, Made, Renamed, Kept, Discarded, Cleared};
ghost use Rattle.mairix_files.specs.NameCallCodes.{name_call_code, name_call_of};

use call_record::Record;
use std::marker::{Model, PhantomData};

// The kinds of calls, as `name_call_of` reads them.
const MADE: u64 = 0;

const RENAMED: u64 = 1;

const KEPT: u64 = 2;

const DISCARDED: u64 = 3;

const CLEARED: u64 = 4;

/// The calls on names that were done, the newest first. They aren't in memory: a value has no size, and a program without
/// its calls noted does the same. So a call can't fail for the memory of its note.
#[derive(Drop)]
pub(crate) struct KitCalls {
    marker: PhantomData<u8>,
    pub ghost done: { List NameCall } by { coded_list name_call_code },
}

impl Model for KitCalls {
    ghost also_owns = { λ _. ftrue };
}

impl KitCalls {
    /// Returns the calls of a run that has done none yet.
    pub(crate) fn new() -> KitCalls
        ensures { result.done ≡ [] }
    {
        KitCalls::of()
    }

    /// Adds a call that was done. The numbers are its kind, and 1 if what was given a name was on the disk.
    fn note(&mut self, numbers: &[u64], name: &[u8])
        ghost bytes: { List ℕ }
        ensures { self.new.done ≡ name_call_of numbers.now name.now bytes ∷ self.old.done }
    {
        *self = self.next(numbers, name);
    }

    /// Returns the calls that come after these. A proof says which ones these are, by what is passed here (decision 125
    /// in docs/DECISIONS.md).
    fn next(&self, _numbers: &[u64], _name: &[u8]) -> KitCalls
        ghost said: { List NameCall }
        ensures { result.done ≡ said }
    {
        KitCalls::of()
    }

    /// Returns any calls.
    fn of() -> KitCalls
        ghost said: { List NameCall }
        ensures { result.done ≡ said }
    {
        KitCalls {
            marker: PhantomData,
        }
    }
}

/// Notes that a file was made under this name.
pub(crate) fn note_made(calls: &mut KitCalls, name: &[u8])
    ensures { calls.new.done ≡ Made name.now ∷ calls.old.done }
{
    calls.note(&[MADE, 0], name);
}

/// Notes that the file that was made was given this name; what was written to it, and whether all of that was on the disk.
pub(crate) fn note_renamed(calls: &mut KitCalls, name: &[u8], _written: &Record, is_kept: bool)
    ghost bytes: { List ℕ }
    ensures { calls.new.done ≡ Renamed name.now bytes is_kept ∷ calls.old.done }
{
    if is_kept {
        calls.note(&[RENAMED, 1], name);
    } else {
        calls.note(&[RENAMED, 0], name);
    }
}

/// Notes that this name was brought to the disk.
pub(crate) fn note_kept(calls: &mut KitCalls, name: &[u8])
    ensures { calls.new.done ≡ Kept name.now ∷ calls.old.done }
{
    calls.note(&[KEPT, 0], name);
}

/// Notes that the file that was made was removed, if the system did that.
pub(crate) fn note_discarded(calls: &mut KitCalls)
    ensures { calls.new.done ≡ Discarded ∷ calls.old.done }
{
    calls.note(&[DISCARDED, 0], &[]);
}

/// Notes that what a killed run left under this name was removed.
pub(crate) fn note_cleared(calls: &mut KitCalls, name: &[u8])
    ensures { calls.new.done ≡ Cleared name.now ∷ calls.old.done }
{
    calls.note(&[CLEARED, 0], name);
}
