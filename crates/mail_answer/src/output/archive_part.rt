//! A part of an archive as a source, so that its lines are read as those of a whole archive are (decision 120 in
//! docs/DECISIONS.md).
ghost use Rattle.std.specs.Prelude.{◌≡◌, ◌<◌, None};
ghost use Rattle.std.proofs.Props.{props};
ghost use Rattle.mail_answer.specs.Inside.Readings.{reading, IsInsideArchive};

use crate::archives::Archives;
use mbox_cutter::{DeviceFault, Source};

/// The most bytes of a read.
const PIECE: u64 = 32_768;

/// A part of an archive. A read of it fails if the read of the archive does, or if the archive ends before the part.
#[derive(Drop)]
pub(crate) struct ArchivePart<'a, A: Archives> {
    pub(crate) archives: &'a mut A,
    pub(crate) archive: u32,
    // The offset of the next byte, and the number of bytes left.
    pub(crate) next: u64,
    pub(crate) left: u64,
    // The number of reads that failed because the archive had ended. After such a read no byte is left.
    pub(crate) early_ends: u64,
    ghost inside: { IsInsideArchive (A.number archives.now) (A.held archives.now)
        (reading archive next left) } by { Prim.hlevel props },
    ghost fresh: { 0 < early_ends → A.held archives.now ≡ None },
    ghost ended: { 0 < early_ends → left ≡ 0 },
}

impl<'a, A: Archives> Source for ArchivePart<'a, A> {
    ghost use Rattle.std.specs.Prelude.{◌+◌};
    ghost use Rattle.mail_answer.specs.Inside.Readings.{bytes_left};
    ghost use Rattle.mail_answer.specs.Inside.ArchiveParts.{ReadsPart};

    ghost rest = { λ s. bytes_left (A.held s.archives.now)
        (reading s.archive s.next s.left) };

    ghost failures = { λ s. A.failures s.archives.now + s.early_ends };

    ghost was = { λ s first. ReadsPart A.Archives first s };

    fn read_next(&mut self, into: &mut [u8]) -> Result<usize, DeviceFault> {
        let most = self.left.min(PIECE).min(into.len() as u64) as usize;
        if most == 0 {
            return Ok(0);
        }
        let n = self
            .archives
            .read_at(self.archive, self.next, &mut into[..most])?;
        if n == 0 {
            self.early_ends += 1;
            self.left = 0;
            return Err(DeviceFault);
        }
        self.next += n as u64;
        self.left -= n as u64;
        Ok(n)
    }
}
