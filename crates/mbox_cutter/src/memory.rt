//! Devices in memory. Their bytes are known, and they fail where their maker wants them to.
ghost use Rattle.std.specs.Prelude.{◌≡◌, ◌<◌, ◌≤◌, ◌-◌, ◌^◌, ◌↔◌, [], Some, length, IfOk, IfSome, OnErr, IsErr};
ghost use Rattle.std.specs.Io.KnownBytes.{ReadConsumes, WriteAppends};
ghost use Rattle.contract_words.specs.Devices.{Counts};

use crate::device::{DeviceFault, Out, Source};
use std::alloc::{AllocError, Global};
use std::marker::Model;

/// A source in memory, which gives its bytes in pieces, and one of whose reads may fail.
#[derive(Drop)]
pub struct MemorySource {
    bytes: Vec<u8>,
    at: usize,
    piece: usize,
    // The number of the read that fails. The next read has the number 1.
    fail_at: Option<u64>,
    failures: u64,
}

impl Model for MemorySource {
    ghost use Rattle.mbox_cutter.specs.Memory.{Giving};

    ghost Value = { Giving };

    ghost use Rattle.mbox_cutter.specs.Inside.MemoryFields.{giving, IsGiving};

    ghost view = { giving };

    ghost invariant = { IsGiving };
}

impl MemorySource {
    /// Makes a source of these bytes, and fails only for lack of memory. A read gives at most `piece` bytes. Read
    /// number `fail_at`, counted from 1, fails, and later reads go on after it.
    pub fn new(
        alloc: Global,
        bytes: &[u8],
        piece: usize,
        fail_at: Option<u64>,
    ) -> Result<Self, AllocError>
        requires { 0 < piece }
        ensures { IfOk result (λ s.
            s ≡ record { rest = bytes.now; piece = piece; fail_at = fail_at; failures = 0 }) }
    {
        let bytes = bytes.to_vec(alloc)?;
        Ok(MemorySource {
            bytes,
            at: 0,
            piece,
            fail_at,
            failures: 0,
        })
    }
}

impl Source for MemorySource {
    ghost use Rattle.mbox_cutter.specs.Memory.{next_failure, piece_length};

    ghost rest = { λ s. Some s.rest };

    ghost failures = { λ s. s.failures };

    fn read_next(&mut self, into: &mut [u8]) -> Result<usize, DeviceFault>
        requires room { 0 < length into.old }
        requires count { self.old.failures < 2 ^ 64 - 1 }
        ensures bound { IfOk result (λ n. n ≤ length into.new) }
        ensures bytes { ReadConsumes (Some self.old.rest) (Some self.new.rest) result into.new }
        ensures count { Counts result self.old.failures self.new.failures }
        ensures fails { IsErr result ↔ (self.old.fail_at ≡ Some 1) }
        ensures piece { IfOk result (λ n. n ≡ piece_length self.old (length into.old)) }
        ensures next { (self.new.fail_at ≡ next_failure self.old.fail_at)
            × (self.new.piece ≡ self.old.piece) }
    {
        if let Some(read) = self.fail_at {
            self.fail_at = Some(read.saturating_sub(1));
            if read == 1 {
                self.failures += 1;
                return Err(DeviceFault);
            }
        }
        let left = self.bytes.len() - self.at;
        let n = left.min(self.piece).min(into.len());
        into[..n].copy_from_slice(&self.bytes[self.at..self.at + n]);
        self.at += n;
        Ok(n)
    }
}

/// An output in memory, which keeps the bytes that it takes.
#[derive(Drop)]
pub struct MemoryOut {
    bytes: Vec<u8>,
    room: Option<u64>,
    failures: u64,
}

impl Model for MemoryOut {
    ghost use Rattle.mbox_cutter.specs.Memory.{Taking};

    ghost Value = { Taking };

    ghost use Rattle.mbox_cutter.specs.Inside.MemoryFields.{taking};

    ghost view = { taking };
}

impl MemoryOut {
    /// Makes an output that takes at most `room` bytes in all; None is no limit. After these each call fails. A call
    /// also fails if there is no memory for its bytes.
    pub fn new(alloc: Global, room: Option<u64>) -> Self
        ensures { result ≡ record { taken = []; room = room; failures = 0 } }
    {
        MemoryOut {
            bytes: Vec::new(alloc),
            room,
            failures: 0,
        }
    }

    /// Returns all bytes that it has taken.
    pub fn bytes(&self) -> &[u8]
        ensures { result.now ≡ self.now.taken }
    {
        self.bytes.as_slice()
    }
}

impl Out for MemoryOut {
    ghost use Rattle.mbox_cutter.specs.Memory.{room_for, room_after};

    ghost taken = { λ s. Some s.taken };

    ghost failures = { λ s. s.failures };

    fn put(&mut self, bytes: &[u8]) -> Result<usize, DeviceFault>
        requires some { 0 < length bytes.now }
        requires count { self.old.failures < 2 ^ 64 - 1 }
        ensures bound { IfOk result (λ n. (0 < n) × (n ≤ length bytes.now)) }
        ensures bytes { WriteAppends (Some self.old.taken) (Some self.new.taken) result bytes.now }
        ensures count { Counts result self.old.failures self.new.failures }
        ensures takes { IfOk result (λ n. (n ≡ room_for self.old.room (length bytes.now))
            × (self.new.room ≡ room_after self.old.room n)) }
        ensures full { OnErr result (self.new.room ≡ self.old.room) }
    {
        let room = self.room.unwrap_or(u64::MAX);
        let fitting = room.min(bytes.len() as u64) as usize;
        if fitting == 0 || self.bytes.extend_from_slice(&bytes[..fitting]).is_err() {
            self.failures += 1;
            return Err(DeviceFault);
        }
        if self.room.is_some() {
            self.room = Some(room - fitting as u64);
        }
        Ok(fitting)
    }
}
