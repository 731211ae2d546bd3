//! The events and the faults of a cutter.
use std::error::Error;
use std::fmt;

/// Why a cutter can't go on.
#[derive(Clone, Copy, Debug)]
pub enum CutFault {
    /// The source failed.
    Device,
    /// The first line that isn't empty isn't a separator.
    NotAnMbox,
    /// The archive has more bytes than are allowed.
    ArchiveTooLong,
    /// An earlier call has failed.
    Failed,
}

impl fmt::Display for CutFault {
    ghost use Rattle.std.specs.Prelude.{Some};
    ghost use Rattle.mbox_cutter.specs.FaultTexts.{text_of_cut};

    ghost output = { λ fault. Some (text_of_cut fault) };

    fn fmt<W: fmt::Write>(&self, f: &mut fmt::Formatter<W>) -> fmt::Result {
        f.write_str(match self {
            CutFault::Device => "read failed",
            CutFault::NotAnMbox => "not an mbox",
            CutFault::ArchiveTooLong => "too long",
            CutFault::Failed => "failed before",
        })
    }
}

impl Error for CutFault {}

/// A step through an archive. `Cutter::line` has the line of a start and of a line. Offsets, lengths and sizes are in
/// bytes.
#[derive(Clone, Copy)]
pub enum Event {
    /// A message starts at this offset in the archive. The line is its separator.
    Start { offset: u64 },
    /// The next line of the message's text.
    Line,
    /// The message ends; its span has this length, and its text this size.
    End { length: u64, size: u64 },
    /// The archive ends; it has this length.
    Done { length: u64 },
}
