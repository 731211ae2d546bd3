//! A writer that signals don't stop.
ghost use Rattle.std.specs.Prelude.{◌≡◌, ◌≢◌, ◌≤◌, length, IfOk, IfErr};
ghost use Rattle.std.specs.Io.KnownBytes.{WriteAppends};
ghost use Rattle.std.specs.IoError.{error_kind};

use std::io;
use std::io::{ErrorKind, Write};

/// Writes as another writer does, but repeats a write that a signal has interrupted.
#[derive(Drop)]
pub struct Retried<W: Write + Drop> {
    writer: W,
}

impl<W: Write + Drop> Retried<W> {
    /// Returns a writer to this one.
    pub fn new(writer: W) -> Retried<W>
        ensures { ⟦<Retried<W> as Write>⟧.contents result ≡ W.contents writer }
    {
        Retried { writer }
    }
}

impl<W: Write + Drop> Write for Retried<W> {
    ghost contents = { λ s. W.contents s.writer };

    fn write(&mut self, bytes: &[u8]) -> io::Result<usize> {
        write_retried(&mut self.writer, bytes)
    }

    fn flush(&mut self) -> io::Result<()> {
        self.writer.flush()
    }
}

/// Writes once, and repeats that while a signal interrupts it.
fn write_retried<W: Write>(writer: &mut W, bytes: &[u8]) -> io::Result<usize>
    ensures bound { IfOk result (λ n. n ≤ length bytes.now) }
    ensures bytes { WriteAppends (W.contents writer.old) (W.contents writer.new) result bytes.now }
    ensures retried { IfErr result (λ error. error_kind error ≢ ErrorKind.Interrupted) }
{
    for _ in 0..u64::MAX {
        match writer.write(bytes) {
            Ok(count) => return Ok(count),
            Err(error) => {
                if error.kind() != ErrorKind::Interrupted {
                    return Err(error);
                }
            }
        }
    }
    Err(ErrorKind::Other.into())
}
