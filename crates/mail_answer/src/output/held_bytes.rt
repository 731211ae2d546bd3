//! A buffer of bytes whose memory is kept when bytes are dropped.
ghost use Rattle.std.specs.Prelude.{◌≡◌, ◌<◌, ◌≤◌, ◌+◌, ◌-◌, ◌^◌, ◌++◌, [], false, length, take, IfOk, IfErr, OnOk, OnErr, IfSome};
ghost use Rattle.contract_words.specs.Archives.{archive_at};
ghost use Rattle.contract_words.specs.Devices.{Counted, Counts};
ghost use Rattle.mail_answer.specs.Faults.{has_fault, is_of_output, is_of_archives, is_stale, IfStale};
ghost use Rattle.mail_answer.specs.Inside.Calls.{KeepsArchives};
ghost use Rattle.mail_answer.specs.Inside.Readings.{AppendsRead, ReadsAppended, ReadsTail};

use crate::archives::Archives;
use crate::fault::AnswerFaultKind;
use mbox_cutter::DeviceFault;
use std::alloc::{AllocError, Global};
use std::marker::Model;

/// A buffer of bytes: the first `count` bytes of `room`. Dropping bytes doesn't shorten `room`, so only growth fills it
/// with zeros. The bytes of `room` after the first `count` are never used.
#[derive(Drop)]
pub(crate) struct HeldBytes {
    room: Vec<u8>,
    count: usize,
}

impl Model for HeldBytes {
    ghost use Rattle.std.specs.Prelude.{ℕ, List, ◌≤◌, length, take};

    ghost Value = { List ℕ };

    ghost view = { λ s. take s.count s.room.items };

    ghost invariant = { λ s. s.count ≤ length s.room.items };
}

impl HeldBytes {
    /// Returns no bytes. Takes no memory.
    pub(crate) fn new(alloc: Global) -> Self
        ensures { result ≡ [] }
    {
        HeldBytes {
            room: Vec::new(alloc),
            count: 0,
        }
    }

    /// The number of bytes.
    pub(crate) fn len(&self) -> usize
        ensures { result ≡ length self.now }
    {
        self.count
    }

    /// The bytes.
    pub(crate) fn as_slice(&self) -> &[u8]
        ensures { result.now ≡ self.now }
    {
        &self.room[..self.count]
    }

    /// Drops all bytes.
    pub(crate) fn clear(&mut self)
        ensures { self.new ≡ [] }
    {
        self.count = 0;
    }

    /// Appends bytes. If memory runs out, nothing changes.
    pub(crate) fn extend(&mut self, bytes: &[u8]) -> Result<(), AllocError>
        ensures ok { OnOk result (self.new ≡ self.old ++ bytes.now) }
        ensures refused { OnErr result (self.new ≡ self.old) }
    {
        make_room(&mut self.room, self.count, bytes.len())?;
        let end = self.count + bytes.len();
        self.room[self.count..end].copy_from_slice(bytes);
        self.count = end;
        Ok(())
    }

    /// Reads at most this many bytes of an archive, from an offset on, and appends them. Returns their number, which is
    /// at least 1. Fails with Stale if the archive has ended there; otherwise if the read fails or if memory runs out.
    pub(crate) fn read<A: Archives>(
        &mut self,
        archives: &mut A,
        archive: u32,
        offset: u64,
        most: usize,
    ) -> Result<usize, AnswerFaultKind>
        requires below { archive < A.number archives.old }
        requires some { 0 < most }
        requires few { most ≤ 65536 }
        requires count { A.failures archives.old < 2 ^ 64 - 1 }
        ensures keeps { KeepsArchives A.Archives archives.old archives.new }
        ensures bound { IfOk result (λ n. n ≤ most) }
        ensures bytes { IfOk result (λ n. AppendsRead archive offset n (A.held archives.new)
            self.old self.new) }
        ensures read { ReadsAppended A.Archives archive offset archives.old archives.new
            self.old self.new result }
        ensures refused { OnErr result (self.new ≡ self.old) }
        ensures count { Counted (has_fault is_of_archives result) (A.failures archives.old)
            (A.failures archives.new) }
        ensures own { has_fault is_of_output result ≡ false }
        ensures stale { IfErr result (λ kind. IfStale kind (λ n. n ≡ archive)) }
        ensures unread { IfErr result (λ kind. kind ≡ AnswerFaultKind.OutOfMemory
            → archives.new ≡ archives.old) }
        ensures fresh { IfSome (A.held archives.new) (λ bytes. offset < length
            (archive_at bytes archive) → has_fault is_stale result ≡ false) }
    {
        make_room(&mut self.room, self.count, most)?;
        let room = self.room.as_mut_slice();
        let Ok(n) = read_after(archives, archive, offset, self.count, most, room) else {
            return Err(AnswerFaultKind::Device);
        };
        if n == 0 {
            return Err(AnswerFaultKind::Stale(archive));
        }
        self.count += n;
        Ok(n)
    }
}

/// Makes room for this many more bytes after the first `held`, which don't change.
fn make_room(room: &mut Vec<u8>, held: usize, more: usize) -> Result<(), AllocError>
    requires within { held ≤ length room.old.items }
    requires few { held + more < 2 ^ 64 }
    ensures room { OnOk result (held + more ≤ length room.new.items) }
    ensures within { held ≤ length room.new.items }
    ensures same { take held room.new.items ≡ take held room.old.items }
{
    if held + more <= room.len() {
        return Ok(());
    }
    room.resize(held + more, 0)
}

/// Reads at most this many bytes of an archive, from an offset on, into the room after the first `held` bytes.
#[tactic(auto, using(crate::proofs::OutputLaws::ReadingLemmas::tail_result))]
fn read_after<A: Archives>(
    archives: &mut A,
    archive: u32,
    offset: u64,
    held: usize,
    most: usize,
    room: &mut [u8],
) -> Result<usize, DeviceFault>
    requires below { archive < A.number archives.old }
    requires some { 0 < most }
    requires room { held + most ≤ length room.old }
    requires count { A.failures archives.old < 2 ^ 64 - 1 }
    ensures keeps { KeepsArchives A.Archives archives.old archives.new }
    ensures bound { IfOk result (λ n. n ≤ most) }
    ensures room { length room.new ≡ length room.old }
    ensures same { take held room.new ≡ take held room.old }
    ensures bytes { IfOk result (λ n. ReadsTail A.Archives archive offset held n
        archives.old archives.new room.old room.new) }
    ensures count { Counts result (A.failures archives.old) (A.failures archives.new) }
{
    archives.read_at(archive, offset, &mut room[held..held + most])
}
