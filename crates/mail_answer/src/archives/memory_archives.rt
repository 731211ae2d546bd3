//! Archives in memory.
ghost use Rattle.std.specs.Prelude.{◌≡◌, ◌<◌, ◌≤◌, ◌-◌, ◌^◌, ◌++◌, ◌∷◌, ℕ, List, [], Some, Ok, length, take, drop, min, IfOk, OnOk, OnErr};
ghost use Rattle.contract_words.specs.Archives.{IsLength, IsReadFromArchive, archive_at};
ghost use Rattle.contract_words.specs.Devices.{Counts};

use crate::archives::Archives;
use mbox_cutter::DeviceFault;
use std::alloc::{AllocError, Global};
use std::marker::Model;

/// Archives in memory, which never fail.
#[derive(Drop)]
pub struct MemoryArchives {
    alloc: Global,
    archives: Vec<Vec<u8>>,
}

impl Model for MemoryArchives {
    ghost use Rattle.std.specs.Prelude.{ℕ, List, ◌≤◌, length, map};

    ghost Value = { List (List ℕ) };

    ghost view = { λ s. map (λ archive. archive.items) s.archives.items };

    ghost invariant = { λ s. length s.archives.items ≤ 2147483647 };
}

impl MemoryArchives {
    /// Returns no archives. Takes no memory.
    pub fn new(alloc: Global) -> Self
        ensures { result ≡ [] }
    {
        MemoryArchives {
            alloc,
            archives: Vec::new(alloc),
        }
    }

    /// Adds an archive with these bytes after the others. If memory runs out, nothing changes.
    pub fn add(&mut self, bytes: &[u8]) -> Result<(), AllocError>
        requires { length self.old < 2147483647 }
        ensures ok { OnOk result (self.new ≡ self.old ++ bytes.now ∷ []) }
        ensures refused { OnErr result (self.new ≡ self.old) }
    {
        let archive = bytes.to_vec(self.alloc)?;
        self.archives.push(archive)?;
        Ok(())
    }
}

impl Archives for MemoryArchives {
    ghost held = { λ s. Some s };

    ghost number = { λ s. length s };

    ghost failures = { λ s. 0 };

    ghost was = { λ s first. s ≡ first };

    ghost lengths_asked = { λ _. 0 };

    ghost measures = { λ _ _ _ _. Unit {0} };

    ghost reads = { λ _ _ _ _ _. Unit {0} };

    fn count(&self) -> u32 {
        self.archives.len() as u32
    }

    fn length(&mut self, n: u32) -> Result<u64, DeviceFault>
        requires below { n < length self.old }
        requires count { 0 < 2 ^ 64 - 1 }
        ensures held { Some self.new ≡ Some self.old }
        ensures was { (first : List (List ℕ)) → self.old ≡ first → self.new ≡ first }
        ensures number { length self.new ≡ length self.old }
        ensures bytes { IfOk result (λ bytes. IsLength n bytes (Some self.old)) }
        ensures count { Counts result 0 0 }
        ensures never { result ≡ Ok (length (archive_at self.old n)) }
    {
        Ok(self.archives[n as usize].len() as u64)
    }

    fn read_at(&mut self, n: u32, offset: u64, into: &mut [u8]) -> Result<usize, DeviceFault>
        requires below { n < length self.old }
        requires room { 0 < length into.old }
        requires count { 0 < 2 ^ 64 - 1 }
        ensures held { Some self.new ≡ Some self.old }
        ensures was { (first : List (List ℕ)) → self.old ≡ first → self.new ≡ first }
        ensures number { length self.new ≡ length self.old }
        ensures bound { IfOk result (λ bytes. bytes ≤ length into.new) }
        ensures bytes { IfOk result (λ bytes. IsReadFromArchive n offset (take bytes into.new)
            (Some self.old)) }
        ensures count { Counts result 0 0 }
        ensures never { result ≡ Ok (min (length (drop offset (archive_at self.old n)))
            (length into.old)) }
    {
        let archive = self.archives[n as usize].as_slice();
        let at = offset.min(archive.len() as u64) as usize;
        let rest = archive.split_at(at).1;
        let n = rest.len().min(into.len());
        into[..n].copy_from_slice(&rest[..n]);
        Ok(n)
    }
}
