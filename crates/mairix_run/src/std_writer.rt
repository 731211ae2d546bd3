//! Writers that are flushed.
ghost use Rattle.std.specs.Prelude.{◌≡◌, ⊤, Bool, is_ok};
ghost use Rattle.std.specs.Io.KnownBytes.{Keeps};

use std::io;
use std::io::Write;

/// A writer that hands on what it gathers when it is flushed.
///
/// No clause of std says that a flush does this. So the call is described by a relation, and a body that makes another
/// call than it should has to be found by reading it.
pub trait Flush: Write {
    /// What a flush does: it relates the writer before it, whether it succeeded, and the writer after it.
    ghost flushes: { Self → Bool → Self → Type 0 };

    /// Hands on all that it gathers.
    fn flush_all(&mut self) -> io::Result<()>
        ensures contents { Keeps (Self.contents self.old) (Self.contents self.new) }
        ensures flushes { flushes self.old (is_ok result) self.new };
}

/// A writer of std, which is flushed by its own call.
#[derive(Drop)]
pub struct StdWriter<W: Write + Drop> {
    writer: W,
}

impl<W: Write + Drop> StdWriter<W> {
    /// Returns a writer that does as this one does.
    pub fn new(writer: W) -> StdWriter<W>
        ensures { ⟦<StdWriter<W> as Write>⟧.contents result ≡ W.contents writer }
    {
        StdWriter { writer }
    }
}

impl<W: Write + Drop> Write for StdWriter<W> {
    ghost contents = { λ s. W.contents s.writer };

    fn write(&mut self, bytes: &[u8]) -> io::Result<usize> {
        self.writer.write(bytes)
    }

    fn flush(&mut self) -> io::Result<()> {
        self.writer.flush()
    }
}

impl<W: Write + Drop> Flush for StdWriter<W> {
    ghost flushes = { λ _ _ _. ⊤ };

    // Believed: that this hands on all that the writer gathers.
    fn flush_all(&mut self) -> io::Result<()> {
        self.writer.flush()
    }
}
