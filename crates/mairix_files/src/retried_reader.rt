//! A reader that signals don't stop.
ghost use Rattle.std.specs.Prelude.{◌≡◌, ◌≢◌, ◌≤◌, length, IfOk, IfErr};
ghost use Rattle.std.specs.Io.KnownBytes.{ReadConsumes};
ghost use Rattle.std.specs.IoError.{error_kind};

use std::io;
use std::io::{ErrorKind, Read};

/// Reads as another reader does, but repeats a read that a signal has interrupted.
#[derive(Drop)]
pub(crate) struct RetriedReader<R: Read + Drop> {
    pub(crate) reader: R,
}

impl<R: Read + Drop> RetriedReader<R> {
    /// Returns a reader of this one.
    pub(crate) fn new(reader: R) -> RetriedReader<R>
        ensures { result.reader ≡ reader }
    {
        RetriedReader { reader }
    }
}

impl<R: Read + Drop> Read for RetriedReader<R> {
    ghost remaining = { λ s. R.remaining s.reader };

    fn read(&mut self, into: &mut [u8]) -> io::Result<usize> {
        read_retried(&mut self.reader, into)
    }
}

/// Reads once, and repeats that while a signal interrupts it.
fn read_retried<R: Read>(reader: &mut R, into: &mut [u8]) -> io::Result<usize>
    ensures bound { IfOk result (λ n. n ≤ length into.new) }
    ensures bytes { ReadConsumes (R.remaining reader.old) (R.remaining reader.new) result into.new }
    ensures retried { IfErr result (λ error. error_kind error ≢ ErrorKind.Interrupted) }
{
    for _ in 0..u64::MAX {
        match reader.read(into) {
            Ok(count) => return Ok(count),
            Err(error) => {
                if error.kind() != ErrorKind::Interrupted {
                    return Err(error);
                }
            }
        }
    }
    Err(ErrorKind::Other.into())
}
