//! Reads the lines of a source, through a buffer of a fixed size (decision 120 in docs/DECISIONS.md).
ghost use Rattle.std.specs.Prelude.{◌≡◌, ◌⊎◌, ℕ, List, Ok, true, false, ◌+◌, ◌-◌, ◌^◌, ◌<◌, ◌≤◌, is_err, length, take, drop, slice_range, IfOk, OnOk, IfSome};
ghost use Rattle.std.specs.Io.KnownBytes.{IsAtEnd};
ghost use Rattle.contract_words.specs.Devices.{Counts};
ghost use Rattle.mbox_cutter.specs.Inside.Ahead.{IsLineLength, ReadsAfter, ReadsOn, TakesLine};
ghost use Rattle.mbox_cutter.specs.LineReaders.{known_bytes, TakesKnownLine};
ghost use Rattle.mbox_cutter.specs.Lines.{IsLine};
ghost use Rattle.contract_words.specs.Knowledge.{still_known};
ghost use Rattle.mbox_cutter.specs.Sources.{ReadsSource, Stays};

use crate::buffer::{Buffer, ROOM};
use crate::device::{DeviceFault, Source};
use crate::line::line_end;
use std::marker::Model;

/// Reads a source line by line, and once. The bytes `from..to` of the buffer have been read and not taken yet.
#[derive(Drop)]
pub struct LineReader<'a, S: Source> {
    source: &'a mut S,
    buffer: Vec<u8>,
    // The length of the line that was taken last. It ends at `from`.
    taken: usize,
    from: usize,
    to: usize,
    // Whether the source has reported its end.
    ended: bool,
}

impl<'a, S: Source> Model for LineReader<'a, S> {
    ghost use Rattle.mbox_cutter.specs.LineReaders.{BytesAhead};

    ghost Value = { BytesAhead S };

    ghost use Rattle.mbox_cutter.specs.Inside.ReaderFields.{ahead_of_reader, IsLineReader};

    ghost view = { ahead_of_reader };

    ghost invariant = { IsLineReader S.rest };
}

impl<'a, S: Source> LineReader<'a, S> {
    /// Makes a reader of the bytes that the source still gives. It takes no memory.
    pub fn over(buffer: Buffer, source: &'a mut S) -> Self
        ensures source { result.source.ghost_name ≡ source.entry.ghost_name }
        ensures same { result.source.now ≡ source.old }
        ensures known { known_bytes S.rest result ≡ S.rest source.old }
    {
        LineReader {
            source,
            buffer: buffer.bytes,
            taken: 0,
            from: 0,
            to: 0,
            ended: false,
        }
    }

    /// Gives back the source, after what was read, and the buffer for the next reader.
    pub fn into_parts(self) -> (&'a mut S, Buffer)
        ensures name { result.0.ghost_name ≡ self.entry.source.ghost_name }
        ensures same { result.0.now ≡ self.entry.source.now }
    {
        let LineReader { source, buffer, .. } = self;
        (source, Buffer { bytes: buffer })
    }

    /// Returns the bytes that have been read and not taken yet, without the first `skip` of them.
    fn unread_after(&self, skip: usize) -> &[u8]
        requires { skip ≤ length self.now.unread }
        ensures rest { result.now ≡ drop skip self.now.unread }
        ensures length { skip + length result.now ≡ length self.now.unread }
        ensures bound { length self.now.unread ≤ ROOM }
    {
        &self.buffer[self.from + skip..self.to]
    }

    /// Takes the next line, and returns its length, or 0 if no line is left. `line` returns it. If the source fails,
    /// no byte is taken.
    #[tactic(auto, using(crate::proofs::LineReaders::takes_line))]
    pub fn next_line(&mut self) -> Result<usize, DeviceFault>
        requires { S.failures self.old.source.now < 2 ^ 64 - 1 }
        ensures length { IfOk result (λ n. n ≡ length self.new.line) }
        ensures one { IfOk result (λ n. 0 < n → IsLine self.new.line) }
        ensures line { TakesKnownLine S.rest self.old result self.new }
        ensures end { result ≡ Ok 0 → IsAtEnd (S.rest self.new.source.now) }
        ensures reads { ReadsSource S.Source (is_err result) self.old.source self.new.source }
    {
        let n = self.line_length_after(0)?;
        self.take(n);
        Ok(n)
    }

    /// Returns the line that was taken last. It has its LF, if there is one.
    pub fn line(&self) -> &[u8]
        ensures { result.now ≡ self.now.line }
    {
        &self.buffer[self.from - self.taken..self.from]
    }

    /// Takes the next `n` bytes.
    pub(crate) fn take(&mut self, n: usize)
        requires { n ≤ length self.old.unread }
        ensures { TakesLine n self.old self.new }
    {
        self.taken = n;
        self.from += n;
    }

    /// Returns the `n` bytes after the next `skip` bytes.
    pub(crate) fn part(&self, skip: usize, n: usize) -> &[u8]
        requires { skip + n ≤ length self.now.unread }
        ensures unread { result.now ≡ take n (drop skip self.now.unread) }
        ensures known { IfSome (known_bytes S.rest self.now)
            (λ bytes. result.now ≡ take n (drop skip bytes)) }
        ensures length { length result.now ≡ n }
    {
        self.unread_after(skip).split_at(n).0
    }

    /// Returns the length of the line after the next `skip` bytes, or 0 at the end. It reads as much as it needs.
    pub(crate) fn line_length_after(&mut self, skip: usize) -> Result<usize, DeviceFault>
        requires near { skip ≤ 2 }
        requires within { skip ≤ length self.old.unread }
        requires count { S.failures self.old.source.now < 2 ^ 64 - 1 }
        ensures reads { ReadsOn S.Source (is_err result) self.old self.new }
        ensures length { IfOk result (λ n. IsLineLength S.Source skip self.old self.new n) }
    {
        'more: loop {
            let rest = self.unread_after(skip);
            let len = rest.len();
            match line_end(rest) {
                Some(n) => return Ok(n),
                None if self.ended => return Ok(len),
                None => self.fill()?,
            }
        }
    }

    /// Reads more bytes. After it there are more than before, or the source has reported its end.
    fn fill(&mut self) -> Result<(), DeviceFault>
        requires room { length self.old.unread < ROOM }
        requires open { self.old.ended ≡ false }
        requires count { S.failures self.old.source.now < 2 ^ 64 - 1 }
        ensures reads { ReadsOn S.Source (is_err result) self.old self.new }
        ensures grows { OnOk result
            ((self.new.ended ≡ true) ⊎ (length self.old.unread < length self.new.unread)) }
        ensures bound { length self.new.unread ≤ ROOM }
    {
        let held = self.to - self.from;
        move_to_front(self.buffer.as_mut_slice(), self.from, self.to);
        self.taken = 0;
        self.from = 0;
        self.to = held;
        let n = read_after(self.source, self.buffer.as_mut_slice(), held)?;
        self.to += n;
        self.ended = n == 0;
        Ok(())
    }
}

/// Moves the bytes `from..to` to the front.
fn move_to_front(buffer: &mut [u8], from: usize, to: usize)
    requires order { from ≤ to }
    requires within { to ≤ length buffer.old }
    ensures { take (to - from) buffer.new ≡ slice_range buffer.old from to }
{
    buffer.copy_within(from..to, 0);
}

/// Reads into the buffer, after its first `held` bytes.
fn read_after<S: Source>(
    source: &mut S,
    buffer: &mut [u8],
    held: usize,
) -> Result<usize, DeviceFault>
    requires room { held < length buffer.old }
    requires count { S.failures source.old < 2 ^ 64 - 1 }
    ensures count { Counts result (S.failures source.old) (S.failures source.new) }
    ensures stays { Stays S.Source source.old source.new }
    ensures bytes { ReadsAfter held (still_known (S.rest source.old) (S.rest source.new))
        (S.rest source.new) result buffer.old buffer.new }
{
    source.read_next(&mut buffer[held..])
}
