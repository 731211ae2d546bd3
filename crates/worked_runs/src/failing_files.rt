//! Files of which one call fails: those that are read, and the one that is made.
ghost use Rattle.std.specs.Prelude.{◌≡◌, ◌<◌, ◌+◌, ◌-◌, ◌^◌};
ghost use Rattle.contract_words.specs.Devices.{Counted};

use mbox_cutter::{DeviceFault, Out, Source};
use named_files::{KeptFile, NewFile};
use std::cell::Cell;

/// Counts a call, and returns whether it has to fail. The count is the number of the call that fails, where the next
/// one is 1; 0 for none.
pub fn fails(count: &Cell<u64>) -> bool {
    let number = count.get();
    count.set(number.saturating_sub(1));
    number == 1
}

/// The calls of one file, in the count of all calls of a folder.
#[derive(Drop)]
pub struct Calls<'c> {
    count: &'c Cell<u64>,
    failures: u64,
}

impl<'c> Calls<'c> {
    /// Returns the calls of a file that wasn't called yet.
    pub fn new(count: &'c Cell<u64>) -> Calls<'c>
        ensures { result.failures ≡ 0 }
    {
        Calls { count, failures: 0 }
    }

    /// Counts a call, and returns whether it has to fail.
    pub fn fails(&mut self) -> bool
        requires { self.old.failures < 2 ^ 64 - 1 }
        ensures { Counted result self.old.failures self.new.failures }
    {
        let fails = fails(self.count);
        if fails {
            self.failures += 1;
        }
        fails
    }
}

/// A file that is read. Each call is passed on to another file, unless it has to fail.
#[derive(Drop)]
pub struct FailingFile<'c, K: KeptFile> {
    pub inner: K,
    pub calls: Calls<'c>,
}

impl<'c, K: KeptFile> Source for FailingFile<'c, K> {
    ghost rest = { λ file. K.rest file.inner };

    ghost failures = { λ file. K.failures file.inner + file.calls.failures };

    ghost whole = { λ file. K.whole file.inner };

    fn read_next(&mut self, into: &mut [u8]) -> Result<usize, DeviceFault> {
        if self.calls.fails() {
            return Err(DeviceFault);
        }
        self.inner.read_next(into)
    }
}

impl<'c, K: KeptFile> KeptFile for FailingFile<'c, K> {
    type State = K::State;

    ghost state_found = { λ file. K.state_found file.inner };

    ghost bytes = { λ file. K.bytes file.inner };

    ghost bytes_are_whole = { λ file. K.bytes_are_whole file.inner };

    fn read_at(&mut self, offset: u64, into: &mut [u8]) -> Result<usize, DeviceFault> {
        if self.calls.fails() {
            return Err(DeviceFault);
        }
        self.inner.read_at(offset, into)
    }

    fn length(&mut self) -> Result<u64, DeviceFault> {
        if self.calls.fails() {
            return Err(DeviceFault);
        }
        self.inner.length()
    }

    fn state(&mut self) -> Result<K::State, DeviceFault> {
        if self.calls.fails() {
            return Err(DeviceFault);
        }
        self.inner.state()
    }

    fn check_state(&mut self, state: K::State) -> Result<(), DeviceFault> {
        if self.calls.fails() {
            return Err(DeviceFault);
        }
        self.inner.check_state(state)
    }

    fn close(&mut self) {
        self.inner.close();
    }
}

/// A file that is made. Each call is passed on to another file, unless it has to fail.
pub struct FailingNew<'c, N: NewFile> {
    pub inner: N,
    pub calls: Calls<'c>,
}

impl<'c, N: NewFile> Out for FailingNew<'c, N> {
    ghost taken = { λ new. N.taken new.inner };

    ghost failures = { λ new. N.failures new.inner + new.calls.failures };

    fn put(&mut self, bytes: &[u8]) -> Result<usize, DeviceFault> {
        if self.calls.fails() {
            return Err(DeviceFault);
        }
        self.inner.put(bytes)
    }
}

impl<'c, N: NewFile> NewFile for FailingNew<'c, N> {
    ghost is_kept = { λ new. N.is_kept new.inner };

    ghost may_hold = { λ new. N.may_hold new.inner };

    ghost kept_whole = { λ new. N.kept_whole new.inner };
}
