//! Devices: sources, from which bytes are read, and outputs, to which bytes are written. Each counts its failures.
ghost use Rattle.std.specs.Prelude.{◌≡◌, ◌<◌, ◌≤◌, ◌-◌, ◌^◌, ⊤, ℕ, List, [], Option, IsSome, length, IfOk, OnOk, OnErr};
ghost use Rattle.std.specs.Io.KnownBytes.{ReadConsumes, WriteAppends, Appends};
ghost use Rattle.contract_words.specs.Devices.{Counts, Sends};
ghost use Rattle.contract_words.specs.Knowledge.{still_known};

use thiserror::Error;

/// A call to a device failed.
#[derive(Clone, Copy, Debug, Error)]
#[error("the device failed")]
pub struct DeviceFault;

/// A source of bytes, which is read from its front to its end.
pub trait Source {
    /// The bytes that it will still give, if they are known, and if every read so far agrees with them.
    ghost rest: { Self → Option (List ℕ) };

    /// The number of its calls that have failed.
    ghost failures: { Self → ℕ };

    /// Whether these are all its bytes, those that it has given and those that it will give, if it keeps account of
    /// them. No read changes it.
    ghost whole: { Self → List ℕ → Type 0 } = { λ _ _. ⊤ };

    /// The same of the sources below it, if it reads from another source: that one has the number 0, the one that it
    /// reads from the number 1, and so on. No read changes it.
    ghost below: { Self → ℕ → List ℕ → Type 0 } = { λ _ _ _. ⊤ };

    /// The names of the references that it reads through, its own first, then those of the sources below it. No read
    /// changes them.
    ghost through: { Self → List ℕ } = { λ _. [] };

    /// Whether it was this other source before any number of reads, if it keeps account of that. No read changes it.
    ghost was: { Self → Self → Type 0 } = { λ _ _. ⊤ };

    /// Reads bytes to the front of a slice that isn't empty, and returns how many. It returns 0 only at the end.
    fn read_next(&mut self, into: &mut [u8]) -> Result<usize, DeviceFault>
        requires room { 0 < length into.old }
        requires count { failures self.old < 2 ^ 64 - 1 }
        ensures bound { IfOk result (λ n. n ≤ length into.new) }
        ensures bytes { ReadConsumes (still_known (rest self.old) (rest self.new)) (rest self.new)
            result into.new }
        ensures known { IsSome (rest self.new) → IsSome (rest self.old) }
        ensures count { Counts result (failures self.old) (failures self.new) }
        ensures whole { (bytes : List ℕ) → whole self.old bytes → whole self.new bytes }
        ensures below { (number : ℕ) (bytes : List ℕ)
            → below self.old number bytes → below self.new number bytes }
        ensures through { through self.new ≡ through self.old }
        ensures was { (first : Self) → was self.old first → was self.new first };
}

/// An output of bytes.
pub trait Out {
    /// The bytes that it has taken, if they are known.
    ghost taken: { Self → Option (List ℕ) };

    /// The number of its calls that have failed.
    ghost failures: { Self → ℕ };

    /// Takes bytes from the front of a slice that isn't empty, at least one, and returns how many.
    fn put(&mut self, bytes: &[u8]) -> Result<usize, DeviceFault>
        requires some { 0 < length bytes.now }
        requires count { failures self.old < 2 ^ 64 - 1 }
        ensures bound { IfOk result (λ n. (0 < n) × (n ≤ length bytes.now)) }
        ensures bytes { WriteAppends (taken self.old) (taken self.new) result bytes.now }
        ensures count { Counts result (failures self.old) (failures self.new) };
}

/// Writes all of the bytes, in as many calls as are needed. If a call fails, only a front of the bytes has been
/// written.
pub fn send<O: Out>(out: &mut O, bytes: &[u8]) -> Result<(), DeviceFault>
    requires { O.failures out.old < 2 ^ 64 - 1 }
    ensures ok { OnOk result (Appends (O.taken out.old) (O.taken out.new) bytes.now) }
    ensures err { OnErr result (Sends (O.taken out.old) (O.taken out.new) bytes.now) }
    ensures count { Counts result (O.failures out.old) (O.failures out.new) }
{
    let mut rest = bytes;
    while !rest.is_empty() {
        let n = out.put(rest)?;
        rest = &rest[n..];
    }
    Ok(())
}
