//! A stream in memory.
ghost use Rattle.std.specs.Prelude.{◌≡◌, ◌<◌, ◌≤◌, ◌-◌, ◌^◌, [], true, Some, length, take, is_ok, IfOk};
ghost use Rattle.std.specs.Io.KnownBytes.{WriteAppends};
ghost use Rattle.contract_words.specs.Devices.{Counts};

use crate::stream::Stream;
use mbox_cutter::{DeviceFault, Out};
use std::alloc::Global;
use std::marker::Model;

/// A stream in memory. It keeps the bytes that it takes, and how many of them it has handed on. A call fails only if
/// there is no memory for its bytes.
#[derive(Drop)]
pub struct MemoryStream {
    bytes: Vec<u8>,
    handed_on: usize,
    failures: u64,
}

impl Model for MemoryStream {
    ghost use Rattle.mairix_run.specs.Streams.{Gathering};

    ghost Value = { Gathering };

    ghost use Rattle.mairix_run.specs.MemoryFields.{gathering, HandsOnOnlyTaken};

    ghost view = { gathering };

    ghost invariant = { HandsOnOnlyTaken };
}

impl MemoryStream {
    /// Makes a stream that has taken nothing.
    pub fn new(alloc: Global) -> Self
        ensures { result ≡ record { taken = []; handed_on = 0; failures = 0 } }
    {
        MemoryStream {
            bytes: Vec::new(alloc),
            handed_on: 0,
            failures: 0,
        }
    }

    /// Returns all bytes that it has taken.
    pub fn taken(&self) -> &[u8]
        ensures { result.now ≡ self.now.taken }
    {
        self.bytes.as_slice()
    }

    /// Returns all bytes that it has handed on.
    pub fn handed_on(&self) -> &[u8]
        ensures { result.now ≡ take self.now.handed_on self.now.taken }
    {
        let bytes = self.bytes.as_slice();
        &bytes[..self.handed_on]
    }
}

impl Out for MemoryStream {
    ghost taken = { λ s. Some s.taken };

    ghost failures = { λ s. s.failures };

    fn put(&mut self, bytes: &[u8]) -> Result<usize, DeviceFault>
        requires some { 0 < length bytes.now }
        requires count { self.old.failures < 2 ^ 64 - 1 }
        ensures bound { IfOk result (λ n. (0 < n) × (n ≤ length bytes.now)) }
        ensures bytes { WriteAppends (Some self.old.taken) (Some self.new.taken) result bytes.now }
        ensures count { Counts result self.old.failures self.new.failures }
        ensures all { IfOk result (λ n. n ≡ length bytes.now) }
        ensures gathers { self.new.handed_on ≡ self.old.handed_on }
    {
        if self.bytes.extend_from_slice(bytes).is_err() {
            self.failures += 1;
            return Err(DeviceFault);
        }
        Ok(bytes.len())
    }
}

impl Stream for MemoryStream {
    ghost use Rattle.mairix_run.specs.Streams.{handed_on_is_front};

    ghost handed_on = { λ s. Some (take s.handed_on s.taken) };

    ghost front = { handed_on_is_front };

    fn flush(&mut self) -> Result<(), DeviceFault>
        requires { self.old.failures < 2 ^ 64 - 1 }
        ensures taken { self.new.taken ≡ self.old.taken }
        ensures all { Some (take self.new.handed_on self.new.taken) ≡ Some self.new.taken }
        ensures count { Counts result self.old.failures self.new.failures }
        ensures ok { is_ok result ≡ true }
    {
        self.handed_on = self.bytes.len();
        Ok(())
    }
}
