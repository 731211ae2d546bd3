//! A stream over a writer.
ghost use Rattle.std.specs.Prelude.{◌≡◌, ◌<◌, ◌≤◌, ◌-◌, ◌^◌, ℕ, List, [], Some, length, is_ok, IfOk, OnOk, OnErr};
ghost use Rattle.std.specs.Io.KnownBytes.{Keeps, WriteAppends};
ghost use Rattle.contract_words.specs.Devices.{Counts};
ghost use Rattle.call_record.specs.Calls.{taken_after};
ghost use Rattle.call_record.specs.Noted.{Notes, call_of_write};
ghost use Rattle.mairix_run.specs.WriterStreams.{flushed_bytes, front_flushed, handed_on_of};

use crate::std_writer::Flush;
use crate::stream::Stream;
use call_record::{Record, write_noted};
use mbox_cutter::{DeviceFault, Out};

/// A stream over a writer. It gathers nothing itself: each call is one write, or one flush. It keeps a record of what the
/// writer took, and has handed on what that was when it was flushed last.
#[derive(Drop)]
pub struct WriterStream<W: Flush + Drop> {
    writer: W,
    /// What the writer took.
    noted: Record,
    /// What it had taken when it was flushed last. The record supposes these bytes.
    flushed: Record,
    failures: u64,
    ghost within: { length (flushed_bytes flushed) ≤ length (taken_after noted.calls) },
}

impl<W: Flush + Drop> WriterStream<W> {
    /// Makes a stream over a writer, whatever that has taken before. It has taken nothing, and handed on nothing.
    pub fn new(writer: W) -> WriterStream<W>
        ensures taken { ⟦<WriterStream<W> as Out>⟧.taken result ≡ Some [] }
        ensures handed_on { ⟦<WriterStream<W> as Stream>⟧.handed_on result ≡ Some [] }
        ensures fresh { ⟦<WriterStream<W> as Out>⟧.failures result ≡ 0 }
        ensures writer { result.writer ≡ writer }
    {
        let noted = Record::new();
        let flushed = all_noted(&noted);
        WriterStream {
            writer,
            noted,
            flushed,
            failures: 0,
        }
    }
}

/// Returns a record that supposes bytes which were taken.
fn all_noted(_noted: &Record) -> Record
    ghost bytes: { List ℕ }
    ensures { flushed_bytes result ≡ bytes }
{
    Record::new()
}

impl<W: Flush + Drop> Out for WriterStream<W> {
    ghost taken = { λ s. Some (taken_after s.noted.calls) };

    ghost failures = { λ s. s.failures };

    fn put(&mut self, bytes: &[u8]) -> Result<usize, DeviceFault>
        requires some { 0 < length bytes.now }
        requires count { self.old.failures < 2 ^ 64 - 1 }
        ensures bound { IfOk result (λ n. (0 < n) × (n ≤ length bytes.now)) }
        ensures bytes { WriteAppends (Some (taken_after self.old.noted.calls))
            (Some (taken_after self.new.noted.calls)) result bytes.now }
        ensures count { Counts result self.old.failures self.new.failures }
        // What the writer took is what is noted, and nothing else.
        ensures noted { Notes (call_of_write result bytes.now) self.old.noted self.new.noted }
        ensures contents { WriteAppends (W.contents self.old.writer) (W.contents self.new.writer)
            result bytes.now }
        // Nothing is handed on.
        ensures handed_on { handed_on_of self.new.flushed self.new.noted
            ≡ handed_on_of self.old.flushed self.old.noted }
    {
        match write_noted(&mut self.writer, &mut self.noted, bytes) {
            Ok(n) => Ok(n),
            Err(_) => {
                self.failures += 1;
                Err(DeviceFault)
            }
        }
    }
}

impl<W: Flush + Drop> Stream for WriterStream<W> {
    ghost handed_on = { λ s. Some (handed_on_of s.flushed s.noted) };

    ghost front = { λ s. front_flushed s.flushed s.noted };

    fn flush(&mut self) -> Result<(), DeviceFault>
        requires { self.old.failures < 2 ^ 64 - 1 }
        ensures taken { Keeps (Some (taken_after self.old.noted.calls))
            (Some (taken_after self.new.noted.calls)) }
        ensures all { OnOk result (Some (handed_on_of self.new.flushed self.new.noted)
            ≡ Some (taken_after self.new.noted.calls)) }
        ensures count { Counts result self.old.failures self.new.failures }
        // The writer is flushed once.
        ensures flushed { W.flushes self.old.writer (is_ok result) self.new.writer }
        // A flush that fails has handed on nothing for certain.
        ensures failed { OnErr result (handed_on_of self.new.flushed self.new.noted
            ≡ handed_on_of self.old.flushed self.old.noted) }
    {
        let flushed = self.writer.flush_all();
        if flushed.is_ok() {
            self.flushed = all_noted(&self.noted);
            return Ok(());
        }
        self.failures += 1;
        Err(DeviceFault)
    }
}
