//! Bytes of a file that are read before they are needed.
ghost use Rattle.std.specs.Prelude.{◌≡◌, ◌<◌, ◌≤◌, ◌-◌, ◌^◌, Some, length, take, drop, min, IfOk, IfSome, OnOk, vec_len, vec_items};
ghost use Rattle.named_files.specs.Entries.{IsReadFromFile};
ghost use Rattle.named_archives.specs.Ahead.{CallsInState, IsPiece, IsReadInto};
ghost use Rattle.named_archives.specs.declared.read_ahead.TheConstants.{MOST};

use mbox_cutter::DeviceFault;
use named_files::KeptFile;
use std::alloc::{AllocError, Global};

/// The most bytes that are read at once.
const MOST: usize = 65_536;

/// An open file that has to be in one state, which is compared after each call that reads it. Reads that follow one
/// another are served from larger pieces.
///
/// Adjacent messages are read in one call. A piece has at most as many bytes as were just read without a gap. So single
/// reads in other places cost no more than without pieces, and at most twice the bytes that are needed are read.
#[derive(Drop)]
pub struct ReadAhead<F: KeptFile> {
    file: F,
    state: F::State,
    /// The memory for a piece, empty before the first piece.
    room: Vec<u8>,
    /// How many bytes of it are a piece of the file.
    held: usize,
    /// The offset in the file at which the piece begins.
    offset: u64,
    /// The offset at which the last read ended.
    end: u64,
    /// How many bytes were read up to there without a gap.
    in_a_row: u64,
    ghost in_room: { held ≤ vec_len room },
    // As long as the file's bytes are known, the piece is in them.
    ghost piece: { IsPiece offset (take held (vec_items room)) (F.bytes file) },
    // A piece is kept only as long as the file is found in its state.
    ghost in_state: { 0 < held → F.state_found file ≡ Some state },
}

impl<F: KeptFile> ReadAhead<F> {
    /// Reads nothing yet, and takes no memory.
    pub fn new(alloc: Global, file: F, state: F::State) -> ReadAhead<F>
        ensures file { result.file ≡ file }
        ensures state { result.state ≡ state }
    {
        ReadAhead {
            file,
            state,
            room: Vec::new(alloc),
            held: 0,
            offset: 0,
            end: 0,
            in_a_row: 0,
        }
    }

    /// Returns the file.
    pub fn into_file(self) -> F
        ensures { result ≡ self.file }
    {
        let ReadAhead { file, .. } = self;
        file
    }

    /// Returns the length in bytes of a plain file.
    ///
    /// # Errors
    ///
    /// If the file has no length, if the call fails, or if the file isn't in its state. What was read ahead is forgotten then.
    pub fn length(&mut self) -> Result<u64, DeviceFault>
        requires { F.failures self.old.file < 2 ^ 64 - 1 }
        ensures state { self.new.state ≡ self.old.state }
        ensures length { IfOk result (λ n. IfSome (F.bytes self.new.file)
            (λ all. n ≡ length all)) }
        ensures call { CallsInState F.rest F.bytes F.state_found F.failures self.old.state result
            self.old.file self.new.file }
    {
        let length = length_in_state(&mut self.file, self.state);
        if length.is_err() {
            self.held = 0;
        }
        length
    }

    /// Reads the file from an offset on, and returns the number of bytes read. Into a slice that isn't empty it reads at
    /// least one byte; none only at the file's end or after it.
    ///
    /// # Errors
    ///
    /// If the file can't be read, or isn't in its state after it was read. What was read ahead is forgotten then.
    pub fn read(&mut self, offset: u64, into: &mut [u8]) -> Result<usize, DeviceFault>
        requires room { 0 < length into.old }
        requires count { F.failures self.old.file < 2 ^ 64 - 1 }
        ensures state { self.new.state ≡ self.old.state }
        ensures bytes { IfOk result (IsReadInto offset into.new (F.bytes self.new.file)) }
        // All that is given was read while the file was in its state.
        ensures call { CallsInState F.rest F.bytes F.state_found F.failures self.old.state result
            self.old.file self.new.file }
    {
        let read = self.read_there(offset, into)?;
        self.follow(offset, read);
        Ok(read)
    }

    /// Counts the bytes that were read without a gap, up to the end of this read.
    fn follow(&mut self, offset: u64, read: usize)
        ensures state { self.new.state ≡ self.old.state }
        ensures file { self.new.file ≡ self.old.file }
    {
        let read = read as u64;
        self.in_a_row = if offset == self.end {
            self.in_a_row.saturating_add(read)
        } else {
            read
        };
        self.end = offset.saturating_add(read);
    }

    /// Reads from the piece, or if its bytes don't begin there, from the file.
    fn read_there(&mut self, offset: u64, into: &mut [u8]) -> Result<usize, DeviceFault>
        requires room { 0 < length into.old }
        requires count { F.failures self.old.file < 2 ^ 64 - 1 }
        ensures state { self.new.state ≡ self.old.state }
        ensures bytes { IfOk result (IsReadInto offset into.new (F.bytes self.new.file)) }
        ensures call { CallsInState F.rest F.bytes F.state_found F.failures self.old.state result
            self.old.file self.new.file }
    {
        let read = self.give(offset, into);
        if read > 0 {
            return Ok(read);
        }
        self.read_on(offset, into)
    }

    /// Copies bytes of the piece from this offset on, and returns how many were copied; 0 if the piece doesn't have the
    /// first one.
    fn give(&self, offset: u64, into: &mut [u8]) -> usize
        ensures bound { result ≤ length into.new }
        ensures front { offset ≡ self.now.offset → (result ≡ min self.now.held (length into.new)) }
        ensures bytes { offset ≡ self.now.offset
            → take result into.new ≡ take result (vec_items self.now.room) }
        ensures some { 0 < result → 0 < self.now.held }
        ensures held { IfSome (F.bytes self.now.file) (λ all. take result into.new
            ≡ take result (drop offset all)) }
    {
        let Some(front) = offset.checked_sub(self.offset) else {
            return 0;
        };
        if front >= self.held as u64 {
            return 0;
        }
        copy_front(&self.room[front as usize..self.held], into)
    }

    /// Reads bytes that aren't in the piece. They are read as the beginning of a new piece if the read begins where the
    /// last one ended, and the piece has room for more than is needed. If there is no memory for a piece, only what is
    /// needed is read.
    fn read_on(&mut self, offset: u64, into: &mut [u8]) -> Result<usize, DeviceFault>
        requires room { 0 < length into.old }
        requires count { F.failures self.old.file < 2 ^ 64 - 1 }
        ensures state { self.new.state ≡ self.old.state }
        ensures bytes { IfOk result (IsReadInto offset into.new (F.bytes self.new.file)) }
        ensures call { CallsInState F.rest F.bytes F.state_found F.failures self.old.state result
            self.old.file self.new.file }
    {
        let size = self.in_a_row.min(MOST as u64) as usize;
        if offset != self.end || size <= into.len() || self.make_room().is_err() {
            return self.read_here(offset, into);
        }
        self.read_piece(offset, size)?;
        Ok(self.give(offset, into))
    }

    /// Reads from the file. The piece stays, unless the read fails.
    fn read_here(&mut self, offset: u64, into: &mut [u8]) -> Result<usize, DeviceFault>
        requires room { 0 < length into.old }
        requires count { F.failures self.old.file < 2 ^ 64 - 1 }
        ensures state { self.new.state ≡ self.old.state }
        ensures bytes { IfOk result (IsReadInto offset into.new (F.bytes self.new.file)) }
        ensures call { CallsInState F.rest F.bytes F.state_found F.failures self.old.state result
            self.old.file self.new.file }
    {
        let read = read_in_state(&mut self.file, self.state, offset, into);
        if read.is_err() {
            self.held = 0;
        }
        read
    }

    /// Forgets the piece, and takes memory for another one.
    fn make_room(&mut self) -> Result<(), AllocError>
        ensures state { self.new.state ≡ self.old.state }
        ensures file { self.new.file ≡ self.old.file }
        ensures none { self.new.held ≡ 0 }
        ensures room { OnOk result (vec_len self.new.room ≡ MOST) }
    {
        self.held = 0;
        self.room.resize(MOST, 0)
    }

    /// Reads a piece of at most this many bytes from an offset on.
    fn read_piece(&mut self, offset: u64, size: usize) -> Result<(), DeviceFault>
        requires none { self.old.held ≡ 0 }
        requires some { 0 < size }
        requires room { size ≤ vec_len self.old.room }
        requires count { F.failures self.old.file < 2 ^ 64 - 1 }
        ensures state { self.new.state ≡ self.old.state }
        ensures offset { self.new.offset ≡ offset }
        ensures bytes { OnOk result (IsReadFromFile offset
            (take self.new.held (vec_items self.new.room)) (F.bytes self.new.file)) }
        ensures call { CallsInState F.rest F.bytes F.state_found F.failures self.old.state result
            self.old.file self.new.file }
    {
        self.offset = offset;
        let room = self.room.as_mut_slice();
        let read = fill(&mut self.file, self.state, offset, room, size)?;
        self.held = read;
        Ok(())
    }
}

/// Reads at most this many bytes of a file to the front of a slice.
fn fill<F: KeptFile>(
    file: &mut F,
    state: F::State,
    offset: u64,
    room: &mut [u8],
    size: usize,
) -> Result<usize, DeviceFault>
    requires some { 0 < size }
    requires room { size ≤ length room.old }
    requires count { F.failures file.old < 2 ^ 64 - 1 }
    ensures bytes { IfOk result (IsReadInto offset room.new (F.bytes file.new)) }
    ensures call { CallsInState F.rest F.bytes F.state_found F.failures state result
        file.old file.new }
{
    read_in_state(file, state, offset, &mut room[..size])
}

/// Reads from a file, and then checks that it is in this state: bytes that were read while the file changed aren't
/// used.
fn read_in_state<F: KeptFile>(
    file: &mut F,
    state: F::State,
    offset: u64,
    into: &mut [u8],
) -> Result<usize, DeviceFault>
    requires room { 0 < length into.old }
    requires count { F.failures file.old < 2 ^ 64 - 1 }
    ensures bytes { IfOk result (IsReadInto offset into.new (F.bytes file.new)) }
    ensures call { CallsInState F.rest F.bytes F.state_found F.failures state result
        file.old file.new }
{
    let read = file.read_at(offset, into)?;
    file.check_state(state).and(Ok(read))
}

/// Asks a file for its length, and then checks that it is in this state.
fn length_in_state<F: KeptFile>(file: &mut F, state: F::State) -> Result<u64, DeviceFault>
    requires { F.failures file.old < 2 ^ 64 - 1 }
    ensures length { IfOk result (λ n. IfSome (F.bytes file.new) (λ all. n ≡ length all)) }
    ensures call { CallsInState F.rest F.bytes F.state_found F.failures state result
        file.old file.new }
{
    let length = file.length()?;
    file.check_state(state).and(Ok(length))
}

/// Copies as many bytes to the front of a slice as it has room for, and returns how many these are.
fn copy_front(from: &[u8], into: &mut [u8]) -> usize
    ensures count { result ≡ min (length from.now) (length into.old) }
    ensures bytes { take result into.new ≡ take result from.now }
{
    let count = from.len().min(into.len());
    into[..count].copy_from_slice(&from[..count]);
    count
}
