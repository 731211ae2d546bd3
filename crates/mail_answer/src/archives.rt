//! Archives that are read at any place.
//!
//! Two relations, `measures` and `reads`, describe what a call does to archives. So a contract can say in which order
//! archives are read, whether their bytes are known or not (decision 92 in docs/DECISIONS.md).
ghost use Rattle.std.specs.Prelude.{◌≡◌, ◌<◌, ◌≤◌, ◌-◌, ◌^◌, ⊤, ℕ, List, Option, Result, length, take, IfOk};
ghost use Rattle.contract_words.specs.Archives.{IsLength, IsReadFromArchive};
ghost use Rattle.contract_words.specs.Devices.{Counts};
ghost use Rattle.contract_words.specs.Knowledge.{WasKnown};
ghost use Rattle.mbox_cutter.specs.declared.device.DeviceFault.{DeviceFault};
ghost use Rattle.mail_answer.specs.Archives.{IsCount, bytes_of_read};

pub mod fail_at;
pub mod memory_archives;
pub mod stale;
pub mod verified;

use mbox_cutter::DeviceFault;

/// Archives by their numbers, from 0. What is known of their bytes after a call was known before it. If a call returns
/// something else than the bytes that were supposed, nothing is known of them from then on.
pub trait Archives {
    /// The bytes of each archive, if they are known, and if every call so far agrees with them.
    ghost held: { Self → Option (List (List ℕ)) };

    /// The number of archives.
    ghost number: { Self → ℕ };

    /// How many calls have failed.
    ghost failures: { Self → ℕ };

    /// Whether they were these other archives before any number of calls, if they keep account of that. No call changes it.
    ghost was: { Self → Self → Type 0 } = { λ _ _. ⊤ };

    /// A count that a call of `length` may change. No other call changes it: a read leaves it as it is.
    ghost lengths_asked: { Self → ℕ };

    /// What a call of `length` does: it relates the archives before it, the number, the result, and the archives after
    /// it.
    ghost measures: { Self → ℕ → Result ℕ DeviceFault → Self → Type 0 };

    /// What a call of `read_at` does: it relates the archives before it, the number, the offset, the bytes that are
    /// read, and the archives after it.
    ghost reads: { Self → ℕ → ℕ → Result (List ℕ) DeviceFault → Self → Type 0 };

    /// Returns the number of archives.
    fn count(&self) -> u32
        ensures { IsCount result (number self.now) (held self.now) };

    /// Returns the length in bytes of the archive with this number.
    fn length(&mut self, n: u32) -> Result<u64, DeviceFault>
        requires below { n < number self.old }
        requires count { failures self.old < 2 ^ 64 - 1 }
        ensures bytes { IfOk result (λ bytes. IsLength n bytes (held self.new)) }
        ensures measured { measures self.old n result self.new }
        ensures count { Counts result (failures self.old) (failures self.new) }
        ensures held { WasKnown (held self.old) (held self.new) }
        ensures was { (first : Self) → was self.old first → was self.new first }
        ensures number { number self.new ≡ number self.old };

    /// Reads the archive with this number from an offset on, and returns the number of bytes read. Into a slice that
    /// isn't empty it reads at least one byte; none only at the archive's end or after it.
    fn read_at(&mut self, n: u32, offset: u64, into: &mut [u8]) -> Result<usize, DeviceFault>
        requires below { n < number self.old }
        requires room { 0 < length into.old }
        requires count { failures self.old < 2 ^ 64 - 1 }
        ensures bound { IfOk result (λ bytes. bytes ≤ length into.new) }
        ensures bytes { IfOk result (λ bytes. IsReadFromArchive n offset (take bytes into.new)
            (held self.new)) }
        ensures read { reads self.old n offset (bytes_of_read result into.new) self.new }
        ensures asked { lengths_asked self.new ≡ lengths_asked self.old }
        ensures count { Counts result (failures self.old) (failures self.new) }
        ensures held { WasKnown (held self.old) (held self.new) }
        ensures was { (first : Self) → was self.old first → was self.new first }
        ensures number { number self.new ≡ number self.old };
}
