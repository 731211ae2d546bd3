//! A record of calls, which only clauses read.
ghost use Rattle.std.specs.Prelude.{◌≡◌, ℕ, List, [], ◌∷◌};
ghost use Rattle.std.specs.Borrow.{ftrue};
ghost use Rattle.std.specs.Coded.{coded_ℕ, coded_list};
ghost use Rattle.call_record.specs.Calls.{Call};
ghost use Rattle.call_record.specs.Note.{call_code, call_of};

use std::marker::{Model, PhantomData};

/// What is supposed of the bytes of archives, and each call so far with its result, the newest first. Neither is in
/// memory: a value has no size, and a program without its records does the same.
#[derive(Drop)]
pub struct Record {
    marker: PhantomData<u8>,
    pub ghost supposed: { List (List ℕ) } by { coded_list (coded_list coded_ℕ) },
    pub ghost calls: { List Call } by { coded_list call_code },
}

impl Model for Record {
    ghost also_owns = { λ _. ftrue };
}

impl Record {
    /// Makes a record without calls. Whatever is supposed, a run does the same.
    pub fn new() -> Record
        ghost bytes: { List (List ℕ) }
        ensures { (result.supposed ≡ bytes) × (result.calls ≡ []) }
    {
        Record::of()
    }

    /// Adds a call. The numbers are its kind, an archive's number, an offset or a length, and 1 for success. Other
    /// crates can add a call only by making it.
    pub(crate) fn note(&mut self, numbers: &[u64], bytes: &[u8])
        ensures { (self.new.supposed ≡ self.old.supposed)
            × (self.new.calls ≡ call_of numbers.now bytes.now ∷ self.old.calls) }
    {
        *self = self.next(numbers, bytes);
    }

    /// Makes the record that comes after this one. A proof says which one that is, by what is passed here (decision 125
    /// in docs/DECISIONS.md).
    fn next(&self, _numbers: &[u64], _bytes: &[u8]) -> Record
        ghost said: { List (List ℕ) × List Call }
        ensures { (result.supposed ≡ said.0) × (result.calls ≡ said.1) }
    {
        Record::of()
    }

    /// Makes a record, of whatever is supposed and of any calls.
    fn of() -> Record
        ghost said: { List (List ℕ) × List Call }
        ensures { (result.supposed ≡ said.0) × (result.calls ≡ said.1) }
    {
        Record {
            marker: PhantomData,
        }
    }
}
