//! A file that is read.
ghost use Rattle.std.specs.Prelude.{◌≡◌, ◌<◌, ◌≤◌, ◌-◌, ◌^◌, ℕ, List, Option, Some, length, take, IfOk, IfSome, OnOk};
ghost use Rattle.contract_words.specs.Devices.{Counts};
ghost use Rattle.contract_words.specs.Knowledge.{WasKnown};
ghost use Rattle.named_files.specs.Entries.{IsReadFromFile};

use mbox_cutter::{DeviceFault, Source};

/// An open file: a source that is read from its front to its end, and that is also read at any offset.
///
/// What is known of its bytes after a call was known before it. If a call returns something else than was supposed,
/// nothing is known of them from then on.
pub trait KeptFile: Source + Drop {
    /// The state of a file: what the system reports of it that changes with its bytes.
    type State: Copy;

    /// The state in which it was found since the last call that read it, if it was looked at.
    ghost state_found: { Self → Option Self.State };

    /// All its bytes, if they are known, and if every call so far agrees with them.
    ghost bytes: { Self → Option (List ℕ) };

    /// Reads from an offset on to the front of a slice that isn't empty, and returns the number of bytes read. It reads
    /// at least one byte; none only at the file's end or after it. Where the source is read next doesn't change.
    fn read_at(&mut self, offset: u64, into: &mut [u8]) -> Result<usize, DeviceFault>
        requires room { 0 < length into.old }
        requires count { Self.failures self.old < 2 ^ 64 - 1 }
        ensures known { WasKnown (bytes self.old) (bytes self.new) }
        ensures rest { Self.rest self.new ≡ Self.rest self.old }
        ensures whole { (bytes : List ℕ) → Self.whole self.old bytes → Self.whole self.new bytes }
        ensures through { Self.through self.new ≡ Self.through self.old }
        ensures bound { IfOk result (λ n. n ≤ length into.new) }
        ensures bytes { IfOk result (λ n. IsReadFromFile offset (take n into.new)
            (bytes self.new)) }
        ensures count { Counts result (Self.failures self.old) (Self.failures self.new) };

    /// Returns the length in bytes of a plain file. Anything else has none: then the call fails.
    fn length(&mut self) -> Result<u64, DeviceFault>
        requires { Self.failures self.old < 2 ^ 64 - 1 }
        ensures known { WasKnown (bytes self.old) (bytes self.new) }
        ensures rest { Self.rest self.new ≡ Self.rest self.old }
        ensures whole { (bytes : List ℕ) → Self.whole self.old bytes → Self.whole self.new bytes }
        ensures through { Self.through self.new ≡ Self.through self.old }
        ensures length { IfOk result (λ n. IfSome (bytes self.new) (λ all. n ≡ length all)) }
        ensures count { Counts result (Self.failures self.old) (Self.failures self.new) };

    /// Returns the state in which it is.
    fn state(&mut self) -> Result<Self::State, DeviceFault>
        requires { Self.failures self.old < 2 ^ 64 - 1 }
        ensures known { bytes self.new ≡ bytes self.old }
        ensures rest { Self.rest self.new ≡ Self.rest self.old }
        ensures whole { (bytes : List ℕ) → Self.whole self.old bytes → Self.whole self.new bytes }
        ensures through { Self.through self.new ≡ Self.through self.old }
        ensures found { IfOk result (λ state. state_found self.new ≡ Some state) }
        ensures count { Counts result (Self.failures self.old) (Self.failures self.new) };

    /// Fails if it isn't in this state.
    fn check_state(&mut self, state: Self::State) -> Result<(), DeviceFault>
        requires { Self.failures self.old < 2 ^ 64 - 1 }
        ensures known { bytes self.new ≡ bytes self.old }
        ensures rest { Self.rest self.new ≡ Self.rest self.old }
        ensures whole { (bytes : List ℕ) → Self.whole self.old bytes → Self.whole self.new bytes }
        ensures through { Self.through self.new ≡ Self.through self.old }
        ensures found { OnOk result (state_found self.new ≡ Some state) }
        ensures count { Counts result (Self.failures self.old) (Self.failures self.new) };

    /// Closes the file. What is known of its bytes stays, and so does the state in which it was found. A call that reads
    /// it after that fails.
    fn close(&mut self)
        ensures known { bytes self.new ≡ bytes self.old }
        ensures rest { Self.rest self.new ≡ Self.rest self.old }
        ensures whole { (bytes : List ℕ) → Self.whole self.old bytes → Self.whole self.new bytes }
        ensures through { Self.through self.new ≡ Self.through self.old }
        ensures found { state_found self.new ≡ state_found self.old }
        ensures count { Self.failures self.new ≡ Self.failures self.old };

    /// The bytes that are known are all its bytes, before and after any call.
    ghost bytes_are_whole: { (file : Self) (all : List ℕ) → Self.whole file all
        → IfSome (bytes file) (λ known. known ≡ all) };
}
