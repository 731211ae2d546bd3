//! The calls that were made, which only clauses read.
ghost use Rattle.std.specs.Prelude.{◌≡◌, [], List};
ghost use Rattle.std.specs.Borrow.{ftrue};
ghost use Rattle.std.specs.Coded.{coded_list};
ghost use Rattle.system.specs.SystemCalls.{SystemCall};
ghost use Rattle.system.specs.SystemCallCodes.{system_call_code};

use std::marker::{Model, PhantomData};

/// The calls that were made, the newest first. They aren't in memory: a value has no size, and a program without its calls
/// noted does the same.
#[derive(Drop)]
pub(crate) struct CallNotes {
    marker: PhantomData<u8>,
    pub ghost calls: { List SystemCall } by { coded_list system_call_code },
}

impl Model for CallNotes {
    ghost also_owns = { λ _. ftrue };
}

impl CallNotes {
    /// Returns notes of no call.
    pub(crate) fn new() -> CallNotes
        ensures { result.calls ≡ [] }
    {
        CallNotes::of()
    }

    /// Returns notes of the same calls.
    pub(crate) fn again(&self) -> CallNotes
        ensures { result.calls ≡ self.now.calls }
    {
        self.next(&0u8)
    }

    /// Returns the notes that come after these. A proof says which calls they have, by what is passed here.
    pub(crate) fn next<T>(&self, _said: &T) -> CallNotes
        ghost after: { List SystemCall }
        ensures { result.calls ≡ after }
    {
        CallNotes::of()
    }

    /// Returns notes of any calls.
    fn of() -> CallNotes
        ghost said: { List SystemCall }
        ensures { result.calls ≡ said }
    {
        CallNotes {
            marker: PhantomData,
        }
    }
}
