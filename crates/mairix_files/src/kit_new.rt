//! A file of the system that is made.
ghost use Rattle.std.specs.Prelude.{◌≡◌, ◌≤◌, ◌<◌, ◌+◌, ◌-◌, ◌^◌, ◌++◌, [], true, false, Some, IfOk, IsTrue, OnErr, OnOk, ◌⊎◌, length, take, drop, vec_len, vec_capacity};
ghost use Rattle.std.specs.Io.KnownBytes.{WriteAppends};
ghost use Rattle.call_record.specs.Calls.{taken_after};
ghost use Rattle.contract_words.specs.Devices.{Counts};
ghost use Rattle.call_record.specs.Noted.{Notes, call_of_write};
ghost use Rattle.mairix_files.specs.KitNews.{bytes_put};
ghost use Rattle.mairix_files.specs.NewFileChains.{SyncsMarked, SyncsNotMarked};
ghost use Rattle.system.specs.declared.call_error.CallError.{CallError};

use crate::answers::PRIVATE;
use crate::new_file::{NamedFile, keep_marked};
use crate::retried::Retried;
use call_record::{Record, write_noted};
use kit_system::KitOpened;
use mbox_cutter::{DeviceFault, Out};
use named_files::NewFile;
use std::alloc::{AllocError, Global};
use std::fs::File;
use std::io;
use system::System;

/// How many bytes are gathered before they are written.
const GATHERED: usize = 65_536;

/// A file of the system that is made, with a record of what was written to it. What is put into it is gathered first. It
/// has one descriptor.
pub struct KitNew {
    pub(crate) file: KitOpened,
    /// What was put into it and isn't written yet. It never grows beyond its room.
    gathered: Vec<u8>,
    /// The writes to the file.
    noted: Record,
    /// The mode that it is to have under its own name.
    mode: u32,
    /// Whether all of it is on the disk.
    pub(crate) is_kept: bool,
    pub(crate) failures: u64,
    // What is on the disk was written.
    ghost written: { is_kept ≡ true → gathered.items ≡ [] },
}

/// Returns the memory for what is gathered.
pub(crate) fn gathering_room(alloc: Global) -> Result<Vec<u8>, AllocError>
    ensures { IfOk result (λ room. room.items ≡ []) }
{
    Vec::with_capacity(alloc, GATHERED)
}

impl KitNew {
    /// Returns a new and empty file, which gathers in this memory what is put into it.
    pub(crate) fn new(file: KitOpened, room: Vec<u8>) -> KitNew
        requires { room.items ≡ [] }
        ensures taken { ⟦<KitNew as Out>⟧.taken result ≡ Some [] }
        ensures fresh { ⟦<KitNew as Out>⟧.failures result ≡ 0 }
    {
        KitNew {
            file,
            gathered: room,
            noted: Record::new(),
            mode: PRIVATE,
            is_kept: false,
            failures: 0,
        }
    }

    /// Whether all that was put into it was written.
    pub(crate) fn is_written(&self) -> bool
        ensures { IsTrue result → self.now.gathered.items ≡ [] }
    {
        self.gathered.is_empty()
    }

    /// Returns the file, all of which was written, the writes to it, and whether all of it is on the disk.
    pub(crate) fn into_written(self) -> (NamedFile<KitOpened>, Record, bool)
        requires { self.gathered.items ≡ [] }
        ensures bytes { taken_after result.1.calls ≡ bytes_put self.noted self.gathered.items }
        ensures kept { result.2 ≡ self.is_kept }
    {
        let KitNew {
            file,
            gathered: _,
            noted,
            mode,
            is_kept,
            failures: _,
        } = self;
        (NamedFile::new(file, mode), noted, is_kept)
    }

    /// Closes the file. What is gathered isn't written.
    pub(crate) fn close(self) {
        let KitNew {
            file: _,
            gathered: _,
            noted: _,
            mode: _,
            is_kept: _,
            failures: _,
        } = self;
    }

    /// Brings all that was put into it to the disk, with the mode that it is to have under its own name, and the mark.
    pub(crate) fn sync<S: System<File = KitOpened>>(
        &mut self,
        system: &S,
        log: &mut S::Log,
        mode: u32,
    ) -> Result<(), DeviceFault>
        requires { self.old.failures < 2 ^ 64 - 1 }
        ensures taken { ⟦<KitNew as Out>⟧.taken self.new ≡ ⟦<KitNew as Out>⟧.taken self.old }
        ensures kept { OnOk result (self.new.is_kept ≡ true) }
        ensures count { Counts result self.old.failures self.new.failures }
        ensures on_disk { OnOk result (SyncsMarked (S.number self.old.file) mode
            (S.calls log.old) (S.calls log.new)) }
        ensures not_on_disk { OnErr result ((S.calls log.new ≡ S.calls log.old)
            ⊎ ((error : CallError) × SyncsNotMarked (S.number self.old.file) mode error
            (S.calls log.old) (S.calls log.new))) }
        ensures file { self.new.file ≡ self.old.file }
    {
        self.is_kept = false;
        self.mode = mode;
        let written = self.write_gathered();
        if written.is_ok() && keep_marked(system, log, &self.file, mode).is_ok() {
            self.is_kept = true;
            return Ok(());
        }
        self.failures += 1;
        Err(DeviceFault)
    }

    /// Takes bytes from the front of a slice. They are gathered, unless they would fill the whole room: then they are
    /// written at once. If there is no room for them, what was gathered before is written first.
    fn take_front(&mut self, bytes: &[u8]) -> io::Result<usize>
        requires some { 0 < length bytes.now }
        requires open { self.old.is_kept ≡ false }
        ensures bound { IfOk result (λ n. (0 < n) × (n ≤ length bytes.now)) }
        ensures bytes { WriteAppends (Some (bytes_put self.old.noted self.old.gathered.items))
            (Some (bytes_put self.new.noted self.new.gathered.items)) result bytes.now }
        ensures same { (self.new.failures ≡ self.old.failures) × (self.new.is_kept ≡ false) }
    {
        if bytes.len() > self.gathered.capacity() - self.gathered.len() {
            self.write_gathered()?;
        }
        if bytes.len() >= self.gathered.capacity() {
            return write_once(self.file.as_file(), &mut self.noted, bytes);
        }
        append(&mut self.gathered, bytes);
        Ok(bytes.len())
    }

    /// Writes all that is gathered. If that fails, what wasn't written stays gathered.
    #[tactic(auto, using(crate::proofs::Writing::still_put))]
    fn write_gathered(&mut self) -> io::Result<()>
        requires { self.old.is_kept ≡ false }
        ensures bytes { bytes_put self.new.noted self.new.gathered.items
            ≡ bytes_put self.old.noted self.old.gathered.items }
        ensures all { OnOk result (self.new.gathered.items ≡ []) }
        ensures same { (self.new.failures ≡ self.old.failures) × (self.new.is_kept ≡ false) }
        ensures file { self.new.file ≡ self.old.file }
    {
        let (count, result) = write_front(
            self.file.as_file(),
            &mut self.noted,
            self.gathered.as_slice(),
        );
        remove_front(&mut self.gathered, count);
        result
    }
}

/// Writes until all bytes are written or a write fails. Returns how many were written, and whether that failed.
fn write_front(file: &File, noted: &mut Record, bytes: &[u8]) -> (usize, io::Result<()>)
    ensures bound { result.0 ≤ length bytes.now }
    ensures all { OnOk result.1 (result.0 ≡ length bytes.now) }
    ensures bytes { taken_after «noted».new.calls
        ≡ taken_after «noted».old.calls ++ take result.0 bytes.now }
{
    let mut count = 0;
    while count < bytes.len() {
        match write_once(file, noted, &bytes[count..]) {
            Ok(n) => count += n,
            Err(error) => return (count, Err(error)),
        }
    }
    (count, Ok(()))
}

/// Writes to a file once, and repeats that while a signal interrupts it. What the file took is noted.
fn write_once(file: &File, noted: &mut Record, bytes: &[u8]) -> io::Result<usize>
    requires { 0 < length bytes.now }
    ensures bound { IfOk result (λ n. (0 < n) × (n ≤ length bytes.now)) }
    ensures noted { Notes (call_of_write result bytes.now) noted.old noted.new }
{
    let mut writer = Retried::new(file);
    write_noted(&mut writer, noted, bytes)
}

/// Removes bytes from the front of a buffer.
fn remove_front(buffer: &mut Vec<u8>, count: usize)
    requires { count ≤ vec_len buffer.old }
    ensures { buffer.new.items ≡ drop count buffer.old.items }
{
    let length = buffer.len();
    buffer.as_mut_slice().copy_within(count..length, 0);
    buffer.truncate(length - count);
}

/// Appends bytes to a buffer that has room for them.
fn append(buffer: &mut Vec<u8>, bytes: &[u8])
    requires { vec_len buffer.old + length bytes.now ≤ vec_capacity buffer.old }
    ensures { buffer.new.items ≡ buffer.old.items ++ bytes.now }
{
    let Ok(()) = buffer.extend_from_slice(bytes) else {
        unreachable!();
    };
}

impl Out for KitNew {
    ghost taken = { λ new. Some (bytes_put new.noted new.gathered.items) };

    ghost failures = { λ new. new.failures };

    fn put(&mut self, bytes: &[u8]) -> Result<usize, DeviceFault> {
        self.is_kept = false;
        match self.take_front(bytes) {
            Ok(n) => Ok(n),
            Err(_) => {
                self.failures += 1;
                Err(DeviceFault)
            }
        }
    }
}

impl NewFile for KitNew {
    ghost is_kept = { λ new. new.is_kept };

    ghost may_hold = { λ new c. new.is_kept ≡ true → c ≡ bytes_put new.noted new.gathered.items };

    ghost kept_whole = { λ _ _ kept may. may kept };
}
