//! An output that gathers what it takes.
ghost use Rattle.std.specs.Prelude.{◌≡◌, ◌<◌, ◌-◌, ◌^◌, ℕ, List, Option, OnOk};
ghost use Rattle.std.specs.Io.KnownBytes.{Keeps};
ghost use Rattle.contract_words.specs.Devices.{Counts};
ghost use Rattle.mairix_run.specs.Streams.{IsFrontOf};

use mbox_cutter::{DeviceFault, Out};

/// An output that may gather what it takes, and hands it on when it is flushed.
pub trait Stream: Out {
    /// The bytes that it has handed on, if they are known.
    ghost handed_on: { Self → Option (List ℕ) };

    /// Hands on all that it has taken. If that fails, only a front of it has been handed on.
    fn flush(&mut self) -> Result<(), DeviceFault>
        requires { Self.failures self.old < 2 ^ 64 - 1 }
        ensures taken { Keeps (Self.taken self.old) (Self.taken self.new) }
        ensures all { OnOk result (handed_on self.new ≡ Self.taken self.new) }
        ensures count { Counts result (Self.failures self.old) (Self.failures self.new) };

    /// Whatever fails, it hands on only a front of what it has taken.
    ghost front: { (s : Self) → IsFrontOf (handed_on s) (Self.taken s) };
}
