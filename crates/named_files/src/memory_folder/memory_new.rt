//! A file of a folder in memory that is made.
ghost use Rattle.named_files.specs.Entries.{File};
ghost use Rattle.named_files.specs.MemoryFolders.{held_of};
ghost use Rattle.std.specs.Prelude.{◌≡◌, [], true, false, Some};

use crate::memory_folder::item::Item;
use crate::memory_folder::step::Found;
use crate::new_file::NewFile;
use mbox_cutter::{DeviceFault, Out};
use std::alloc::Global;

/// A file of a folder in memory that is made. A call fails if memory runs out.
pub struct MemoryNew {
    pub(crate) bytes: Vec<u8>,
    /// Whether all of them are on the disk.
    pub(crate) is_kept: bool,
    failures: u64,
}

impl MemoryNew {
    /// Returns an empty file.
    pub(crate) fn new(alloc: Global) -> MemoryNew
        ensures { (result.bytes.items ≡ []) × (result.failures ≡ 0) }
    {
        MemoryNew {
            bytes: Vec::new(alloc),
            is_kept: false,
            failures: 0,
        }
    }

    /// Returns what a name leads to that this file takes.
    pub(crate) fn into_found(self) -> Found
        ensures { held_of result ≡ record {
          entry = File self.bytes.items;
          is_on_disk = self.is_kept;
          is_left = false;
        } }
    {
        let MemoryNew {
            bytes,
            is_kept,
            failures: _,
        } = self;
        Found {
            item: Item::File(bytes),
            is_on_disk: is_kept,
            is_left: false,
        }
    }
}

impl Out for MemoryNew {
    ghost taken = { λ new. Some new.bytes.items };

    ghost failures = { λ new. new.failures };

    fn put(&mut self, bytes: &[u8]) -> Result<usize, DeviceFault> {
        self.is_kept = false;
        if self.bytes.extend_from_slice(bytes).is_err() {
            self.failures += 1;
            return Err(DeviceFault);
        }
        Ok(bytes.len())
    }
}

impl NewFile for MemoryNew {
    ghost is_kept = { λ new. new.is_kept };

    ghost may_hold = { λ new c. new.is_kept ≡ true → c ≡ new.bytes.items };

    ghost kept_whole = { λ _ _ kept may. may kept };
}
