//! The place in an archive while it is cut, and the steps from each place to the next.
ghost use Rattle.std.specs.Prelude.{◌≡◌, Ok, false, ◌+◌, ◌-◌, ◌^◌, ◌<◌, ◌≤◌, length, IfOk, IfErr, IfSome};

use crate::device::{DeviceFault, Source};
use crate::event::{CutFault, Event};
use crate::line::is_empty_line;
use crate::line_reader::LineReader;
use crate::separator::is_separator;

#[derive(Clone, Copy)]
pub(crate) enum Phase {
    // Before the first message, or after one: a separator, an empty line or the end comes.
    Between,
    // Inside the message that started at this offset, `size` bytes of whose text were reported: no start comes.
    Inside { start: u64, size: u64 },
    Ended,
    Failed,
}

impl From<DeviceFault> for CutFault {
    ghost use Rattle.mbox_cutter.specs.declared.event.CutFault.TheVariants.{Device};

    ghost from_gives = { λ _ fault. fault ≡ Device };

    fn from(_fault: DeviceFault) -> CutFault {
        CutFault::Device
    }
}

#[derive(Drop)]
pub(crate) struct Scan<'a, S: Source> {
    pub(crate) reader: LineReader<'a, S>,
    // The number of bytes taken so far.
    pub(crate) offset: u64,
    pub(crate) most: u64,
    pub(crate) phase: Phase,
}

impl<'a, S: Source> Scan<'a, S> {
    ghost use Rattle.mbox_cutter.specs.Coming.{is_device_fault};
    ghost use Rattle.mbox_cutter.specs.Places.{is_failed};
    ghost use Rattle.mbox_cutter.specs.LineReaders.{known_until};
    ghost use Rattle.mbox_cutter.specs.Inside.Ahead.{ReadsOn};
    ghost use Rattle.mbox_cutter.specs.Inside.Scan.{closes_at, place_of, FindsLine, IsScan, Passes, Steps};

    /// Returns the length of the next line, or 0 at the end. Fails if the source does, or if the line goes over the
    /// limit.
    fn line_length(&mut self) -> Result<usize, CutFault>
        requires place { self.old.offset ≤ self.old.most }
        requires count { S.failures self.old.reader.source.now < 2 ^ 64 - 1 }
        ensures { FindsLine S.Source self.old result self.new }
    {
        let n = self.reader.line_length_after(0)?;
        if n as u64 > self.most - self.offset {
            return Err(CutFault::ArchiveTooLong);
        }
        Ok(n)
    }

    /// Takes a step from between two messages, or from before the first.
    fn start(&mut self) -> Result<Event, CutFault>
        requires phase { self.old.phase ≡ Phase.Between }
        requires scan { IsScan S.rest self.old }
        requires count { S.failures self.old.reader.source.now < 2 ^ 64 - 1 }
        ensures { Steps S.Source self.old result self.new }
    {
        'empties: loop {
            let n = self.line_length()?;
            if n == 0 {
                self.phase = Phase::Ended;
                return Ok(Event::Done {
                    length: self.offset,
                });
            }
            let line = self.reader.part(0, n);
            if is_separator(line) {
                let offset = self.offset;
                let phase = Phase::Inside {
                    start: offset,
                    size: 0,
                };
                self.pass(n, phase);
                return Ok(Event::Start { offset });
            }
            if !is_empty_line(line) {
                return Err(CutFault::NotAnMbox);
            }
            self.pass(n, Phase::Between);
        }
    }

    /// Takes a step from inside the message that started at `start`, after `size` bytes of its text.
    fn go_on(&mut self, start: u64, size: u64) -> Result<Event, CutFault>
        requires phase { self.old.phase ≡ Phase.Inside start size }
        requires scan { IsScan S.rest self.old }
        requires count { S.failures self.old.reader.source.now < 2 ^ 64 - 1 }
        ensures { Steps S.Source self.old result self.new }
    {
        let n = self.line_length()?;
        if n == 0 {
            self.phase = Phase::Between;
            let length = self.offset - start;
            return Ok(Event::End { length, size });
        }
        let line = self.reader.part(0, n);
        let inside = Phase::Inside {
            start,
            size: size + n as u64,
        };
        if !is_empty_line(line) {
            self.pass(n, inside);
            return Ok(Event::Line);
        }
        if self.closes(n)? {
            self.pass(n, Phase::Between);
            let length = self.offset - start;
            Ok(Event::End { length, size })
        } else {
            self.pass(n, inside);
            Ok(Event::Line)
        }
    }

    /// Returns whether a separator or the end comes after an empty line of `n` bytes.
    fn closes(&mut self, n: usize) -> Result<bool, CutFault>
        requires near { n ≤ 2 }
        requires within { n ≤ length self.old.reader.unread }
        requires count { S.failures self.old.reader.source.now < 2 ^ 64 - 1 }
        ensures place { place_of self.new ≡ place_of self.old }
        ensures reads { ReadsOn S.Source (is_device_fault result) self.old.reader self.new.reader }
        ensures closes { IfOk result (λ is.
            IfSome (known_until S.rest self.old.reader self.new.reader)
            (λ bytes. is ≡ closes_at n bytes)) }
        ensures err { IfErr result (λ fault. fault ≡ CutFault.Device) }
    {
        let m = self.reader.line_length_after(n)?;
        if m == 0 {
            return Ok(true);
        }
        Ok(is_separator(self.reader.part(n, m)))
    }

    /// Takes the next `n` bytes, and begins this phase.
    fn pass(&mut self, n: usize, phase: Phase)
        requires within { n ≤ length self.old.reader.unread }
        requires fits { self.old.offset + n ≤ self.old.most }
        ensures { Passes n phase self.old self.new }
    {
        self.reader.take(n);
        self.offset += n as u64;
        self.phase = phase;
    }

    /// Takes the next step, from any place.
    pub(crate) fn advance(&mut self) -> Result<Event, CutFault>
        requires live { is_failed self.old.phase ≡ false }
        requires scan { IsScan S.rest self.old }
        requires count { S.failures self.old.reader.source.now < 2 ^ 64 - 1 }
        ensures steps { Steps S.Source self.old result self.new }
        ensures done { self.old.phase ≡ Phase.Ended → result ≡ Ok (Event.Done self.old.offset) }
    {
        match self.phase {
            Phase::Between => self.start(),
            Phase::Inside { start, size } => self.go_on(start, size),
            Phase::Ended => Ok(Event::Done {
                length: self.offset,
            }),
            Phase::Failed => Err(CutFault::Failed),
        }
    }
}
