//! Files by their numbers, which are read at any offset.
ghost use Rattle.std.specs.Prelude.{◌≡◌, ◌≤◌, ◌<◌, ℕ, length, IfOk};
ghost use Rattle.call_record.specs.Calls.{Call};
ghost use Rattle.call_record.specs.Noted.{call_of_length, call_of_read_at};

use std::io;

/// Files by their numbers, from 0, which are read at any offset.
///
/// No clause of std says which bytes are at an offset of a file, nor how long it is. So the two calls are described by
/// a relation, and a body that makes another call of the system than it should has to be found by reading it.
pub trait NumberedFiles {
    /// The number of files.
    ghost number: { Self → ℕ };

    /// What a call does: it relates the files before it, the call with its result, and the files after it.
    ghost answers: { Self → Call → Self → Type 0 };

    /// Returns the length in bytes of the file with this number.
    fn length(&mut self, n: u32) -> io::Result<u64>
        requires below { n < number self.old }
        ensures number { number self.new ≡ number self.old }
        ensures answers { answers self.old (call_of_length n result) self.new };

    /// Reads the file with this number from an offset on, and returns the number of bytes read. Into a slice that isn't
    /// empty it reads at least one byte; none only at the file's end or after it.
    fn read_at(&mut self, n: u32, offset: u64, into: &mut [u8]) -> io::Result<usize>
        requires below { n < number self.old }
        requires room { 0 < length into.old }
        ensures number { number self.new ≡ number self.old }
        ensures bound { IfOk result (λ count. count ≤ length into.new) }
        ensures answers { answers self.old (call_of_read_at n offset result into.new) self.new };
}
