//! A file of a folder in memory that is read.
ghost use Rattle.std.specs.Prelude.{◌≡◌, ◌≤◌, ℕ, List, Some, length, min, take, drop};
ghost use Rattle.contract_words.specs.Devices.{Counts};

use crate::kept_file::KeptFile;
use mbox_cutter::{DeviceFault, Source};

/// A file of a folder in memory that is read. Its bytes are known, and no call fails.
#[derive(Drop)]
pub struct MemoryFile {
    bytes: Vec<u8>,
    at: usize,
    ghost inside: { at ≤ length bytes.items },
}

impl MemoryFile {
    /// Returns a file of these bytes, which is read from its front.
    pub(crate) fn new(bytes: Vec<u8>) -> MemoryFile
        ensures rest { ⟦<MemoryFile as Source>⟧.rest result ≡ Some bytes.items }
        ensures bytes { ⟦<MemoryFile as KeptFile>⟧.bytes result ≡ Some bytes.items }
        ensures whole { ⟦<MemoryFile as Source>⟧.whole result bytes.items }
    {
        MemoryFile { bytes, at: 0 }
    }
}

/// Copies as many bytes as there is room for, and returns how many these are.
fn copy_front(from: &[u8], into: &mut [u8]) -> usize
    ensures count { result ≡ min (length from.now) (length into.old) }
    ensures bytes { take result into.new ≡ take result from.now }
{
    let count = from.len().min(into.len());
    into[..count].copy_from_slice(&from[..count]);
    count
}

impl Source for MemoryFile {
    ghost rest = { λ file. Some (drop file.at file.bytes.items) };

    ghost failures = { λ _. 0 };

    ghost whole = { λ file bytes. file.bytes.items ≡ bytes };

    fn read_next(&mut self, into: &mut [u8]) -> Result<usize, DeviceFault> {
        let n = copy_front(&self.bytes[self.at..], into);
        self.at += n;
        Ok(n)
    }
}

impl KeptFile for MemoryFile {
    type State = ();

    ghost state_found = { λ _. Some tt };

    ghost bytes = { λ file. Some file.bytes.items };

    ghost bytes_are_whole = { λ _ _ is. is };

    fn read_at(&mut self, offset: u64, into: &mut [u8]) -> Result<usize, DeviceFault> {
        let at = offset.min(self.bytes.len() as u64) as usize;
        Ok(copy_front(&self.bytes[at..], into))
    }

    fn length(&mut self) -> Result<u64, DeviceFault> {
        Ok(self.bytes.len() as u64)
    }

    fn state(&mut self) -> Result<(), DeviceFault>
        ensures known { Some self.new.bytes.items ≡ Some self.old.bytes.items }
        ensures rest { Some (drop self.new.at self.new.bytes.items)
            ≡ Some (drop self.old.at self.old.bytes.items) }
        ensures whole { (bytes : List ℕ)
            → self.old.bytes.items ≡ bytes → self.new.bytes.items ≡ bytes }
        ensures count { Counts result 0 0 }
    {
        Ok(())
    }

    fn check_state(&mut self, _state: ()) -> Result<(), DeviceFault>
        ensures known { Some self.new.bytes.items ≡ Some self.old.bytes.items }
        ensures rest { Some (drop self.new.at self.new.bytes.items)
            ≡ Some (drop self.old.at self.old.bytes.items) }
        ensures whole { (bytes : List ℕ)
            → self.old.bytes.items ≡ bytes → self.new.bytes.items ≡ bytes }
        ensures count { Counts result 0 0 }
    {
        self.state()
    }

    fn close(&mut self)
        ensures known { Some self.new.bytes.items ≡ Some self.old.bytes.items }
        ensures rest { Some (drop self.new.at self.new.bytes.items)
            ≡ Some (drop self.old.at self.old.bytes.items) }
        ensures whole { (bytes : List ℕ)
            → self.old.bytes.items ≡ bytes → self.new.bytes.items ≡ bytes }
    {
        // Nothing in memory is to be closed.
    }
}
