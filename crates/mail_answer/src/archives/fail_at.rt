//! Archives that fail once, for tests.
ghost use Rattle.std.specs.Prelude.{◌≡◌, ◌<◌, ◌≤◌, ◌-◌, ◌+◌, ◌^◌, ℕ, List, length, take, nat_eq, IfOk};
ghost use Rattle.contract_words.specs.Archives.{IsLength, IsReadFromArchive};
ghost use Rattle.contract_words.specs.Devices.{Counted, Counts};
ghost use Rattle.contract_words.specs.Knowledge.{WasKnown};
ghost use Rattle.mail_answer.specs.Archives.{bytes_of_read};
ghost use Rattle.mail_answer.specs.FailAt.{PassesOn};

use crate::archives::Archives;
use mbox_cutter::DeviceFault;

/// Passes each call on to other archives, except that one call of `length` or `read_at` fails.
#[derive(Drop)]
pub struct FailAt<A: Archives + Drop> {
    inner: A,
    // The number of the call that fails, where the next call is 1; 0 for none.
    fail_at: u64,
    failures: u64,
}

impl<A: Archives + Drop> FailAt<A> {
    /// The call with the number `fail_at` fails, counted from 1; later calls are passed on. Takes no memory.
    pub fn new(inner: A, fail_at: u64) -> Self
        ensures inner { result.inner ≡ inner }
        ensures fail_at { result.fail_at ≡ fail_at }
        ensures failures { result.failures ≡ 0 }
    {
        FailAt {
            inner,
            fail_at,
            failures: 0,
        }
    }

    /// Counts this call, and returns whether it has to fail.
    fn fails(&mut self) -> bool
        requires { self.old.failures < 2 ^ 64 - 1 }
        ensures inner { self.new.inner ≡ self.old.inner }
        ensures fails { result ≡ nat_eq self.old.fail_at 1 }
        ensures next { self.new.fail_at ≡ self.old.fail_at - 1 }
        ensures count { Counted result self.old.failures self.new.failures }
    {
        let fails = self.fail_at == 1;
        self.fail_at = self.fail_at.saturating_sub(1);
        if fails {
            self.failures += 1;
        }
        fails
    }
}

impl<A: Archives + Drop> Archives for FailAt<A> {
    ghost held = { λ s. A.held s.inner };

    ghost number = { λ s. A.number s.inner };

    ghost failures = { λ s. A.failures s.inner + s.failures };

    ghost was = { λ s first. A.was s.inner first.inner };

    ghost lengths_asked = { λ s. A.lengths_asked s.inner };

    ghost measures = { λ s n told t. PassesOn (A.measures s.inner n told t.inner) s t told };

    ghost reads = { λ s n from told t. PassesOn (A.reads s.inner n from told t.inner) s t told };

    fn count(&self) -> u32 {
        self.inner.count()
    }

    fn length(&mut self, n: u32) -> Result<u64, DeviceFault>
        requires below { n < A.number self.old.inner }
        requires count { A.failures self.old.inner + self.old.failures < 2 ^ 64 - 1 }
        ensures bytes { IfOk result (λ bytes. IsLength n bytes (A.held self.new.inner)) }
        ensures passed { PassesOn (A.measures self.old.inner n result self.new.inner
            × Counts result (A.failures self.old.inner) (A.failures self.new.inner))
            self.old self.new result }
        ensures count { Counts result (A.failures self.old.inner + self.old.failures)
            (A.failures self.new.inner + self.new.failures) }
        ensures held { WasKnown (A.held self.old.inner) (A.held self.new.inner) }
        ensures was { (first : A) → A.was self.old.inner first → A.was self.new.inner first }
        ensures number { A.number self.new.inner ≡ A.number self.old.inner }
    {
        if self.fails() {
            return Err(DeviceFault);
        }
        self.inner.length(n)
    }

    fn read_at(&mut self, n: u32, offset: u64, into: &mut [u8]) -> Result<usize, DeviceFault>
        requires below { n < A.number self.old.inner }
        requires room { 0 < length into.old }
        requires count { A.failures self.old.inner + self.old.failures < 2 ^ 64 - 1 }
        ensures bound { IfOk result (λ bytes. bytes ≤ length into.new) }
        ensures bytes { IfOk result (λ bytes. IsReadFromArchive n offset (take bytes into.new)
            (A.held self.new.inner)) }
        ensures passed { PassesOn (A.reads self.old.inner n offset (bytes_of_read result into.new)
            self.new.inner
            × Counts result (A.failures self.old.inner) (A.failures self.new.inner))
            self.old self.new result }
        ensures asked { A.lengths_asked self.new.inner ≡ A.lengths_asked self.old.inner }
        ensures count { Counts result (A.failures self.old.inner + self.old.failures)
            (A.failures self.new.inner + self.new.failures) }
        ensures held { WasKnown (A.held self.old.inner) (A.held self.new.inner) }
        ensures was { (first : A) → A.was self.old.inner first → A.was self.new.inner first }
        ensures number { A.number self.new.inner ≡ A.number self.old.inner }
    {
        if self.fails() {
            return Err(DeviceFault);
        }
        self.inner.read_at(n, offset, into)
    }
}
