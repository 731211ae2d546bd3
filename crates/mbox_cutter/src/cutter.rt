//! Cuts an mbox archive into messages, and reports them as events.
ghost use Rattle.std.specs.Prelude.{◌≡◌, [], IsSome, Ok, Err, false, ◌-◌, ◌^◌, ◌<◌, IfOk};
ghost use Rattle.std.specs.Option.{option_map};

use crate::buffer::Buffer;
use crate::device::Source;
use crate::event::{CutFault, Event};
use crate::line_reader::LineReader;
use crate::scan::{Phase, Scan};
use std::alloc::{AllocError, Global};
use std::marker::Model;

/// Cuts an mbox archive (RFC 4155) into its messages. It reads the archive once, through a buffer of a fixed size.
///
/// A message starts at each separator that is the archive's first line or directly follows an empty line. Its span
/// ends at the next start or at the archive's end. Its text is the span without the separator and without an empty
/// line at its end.
#[derive(Drop)]
pub struct Cutter<'a, S: Source> {
    scan: Scan<'a, S>,
}

impl<'a, S: Source> Model for Cutter<'a, S> {
    ghost use Rattle.mbox_cutter.specs.Progress.{Progress};

    ghost Value = { Progress S };

    ghost use Rattle.mbox_cutter.specs.Inside.Cutter.{progress, IsCutter};

    ghost view = { progress S.rest };

    ghost invariant = { IsCutter S.rest };
}

impl<'a, S: Source> Cutter<'a, S> {
    ghost use Rattle.mbox_cutter.specs.Events.{coming_of};
    ghost use Rattle.mbox_cutter.specs.Places.{is_failed, HasLine};
    ghost use Rattle.mbox_cutter.specs.Progress.{Advances, event_with_line};

    /// Makes a cutter of the bytes that the source still gives. At most `most` bytes are allowed. It takes all the
    /// memory that the cutter needs, 128 KiB, and fails only if there isn't as much.
    pub fn new(alloc: Global, source: &'a mut S, most: u64) -> Result<Self, AllocError>
        ensures source { IfOk result (λ c. c.source.ghost_name ≡ source.entry.ghost_name) }
        ensures same { IfOk result (λ c. c.source.now ≡ source.old) }
        ensures place { IfOk result (λ c.
            c.place ≡ record { phase = Phase.Between; offset = 0; most = most }) }
        ensures coming { IfOk result (λ c.
            c.coming ≡ option_map (coming_of most) (S.rest source.old)) }
    {
        let buffer = Buffer::new(alloc)?;
        Ok(Cutter::over(buffer, source, most))
    }

    /// Makes a cutter that uses this buffer. It takes no memory.
    pub fn over(buffer: Buffer, source: &'a mut S, most: u64) -> Self
        ensures source { result.source.ghost_name ≡ source.entry.ghost_name }
        ensures same { result.source.now ≡ source.old }
        ensures place { result.place ≡ record { phase = Phase.Between; offset = 0; most = most } }
        ensures coming { result.coming ≡ option_map (coming_of most) (S.rest source.old) }
    {
        Cutter {
            scan: Scan {
                reader: LineReader::over(buffer, source),
                offset: 0,
                most,
                phase: Phase::Between,
            },
        }
    }

    /// Gives back the source, and the buffer for the next cutter. The source has been read at least up to the last event,
    /// and perhaps further.
    pub fn into_parts(self) -> (&'a mut S, Buffer)
        ensures name { result.0.ghost_name ≡ self.entry.source.ghost_name }
        ensures same { result.0.now ≡ self.entry.source.now }
    {
        let Cutter { scan } = self;
        let Scan { reader, .. } = scan;
        reader.into_parts()
    }

    /// Returns the next event. It takes no memory.
    ///
    /// For each message the events are `Start`, the lines of its text as `Line`, and `End`. After the last message each
    /// call returns `Done`.
    ///
    /// # Errors
    ///
    /// `Device` if the source failed in this call. `NotAnMbox` if the first line that isn't empty is no separator, and
    /// it ends within `most` bytes. `ArchiveTooLong` if the archive has more than `most` bytes. After a fault each call
    /// returns `Failed`.
    pub fn next_event(&mut self) -> Result<Event, CutFault>
        requires count { is_failed self.old.place.phase ≡ false →
            S.failures self.old.source.now < 2 ^ 64 - 1 }
        ensures again { self.old.place.phase ≡ Phase.Failed → result ≡ Err CutFault.Failed }
        ensures once { result ≡ Err CutFault.Failed → self.old.place.phase ≡ Phase.Failed }
        ensures done { self.old.place.phase ≡ Phase.Ended →
            result ≡ Ok (Event.Done self.old.place.offset) }
        ensures line { IfOk result (λ event. HasLine (event_with_line self.new.line event)) }
        ensures advances { Advances S.Source self.old result self.new }
    {
        if let Phase::Failed = self.scan.phase {
            return Err(CutFault::Failed);
        }
        match self.scan.advance() {
            Ok(event) => Ok(event),
            Err(fault) => {
                self.scan.phase = Phase::Failed;
                Err(fault)
            }
        }
    }

    /// Returns the line of the last event, a `Start` or a `Line`. It has its LF, if there is one.
    pub fn line(&self) -> &[u8]
        ensures { result.now ≡ self.now.line }
    {
        self.scan.reader.line()
    }
}
