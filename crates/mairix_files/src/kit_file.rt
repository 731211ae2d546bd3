//! A file of the system that is read.
ghost use Rattle.std.specs.Prelude.{◌≡◌, ◌<◌, ◌≤◌, ◌-◌, ◌^◌, ℕ, List, [], None, Some, IsSome, IsSomeAnd, IfOk, IfSome, is_some, length, take};
ghost use Rattle.std.specs.Io.KnownBytes.{ReadConsumes};
ghost use Rattle.contract_words.specs.Archives.{archive_at};
ghost use Rattle.contract_words.specs.Devices.{Counts};
ghost use Rattle.contract_words.specs.Knowledge.{WasKnown, still_known};
ghost use Rattle.call_record.specs.Noted.{call_of_length, call_of_read_at, call_of_read};
ghost use Rattle.named_files.specs.Entries.{IsReadFromFile};
ghost use Rattle.mairix_files.specs.KitFiles.{GivesOn, NotesIf, bytes_held, file_supposed, held_is_supposed, rest_held};

use crate::file_state::FileState;
use crate::retried_reader::RetriedReader;
use call_record::{NumberedFiles, Record, length_noted, read_at_noted, read_noted};
use kit_system::found_of;
use mbox_cutter::{DeviceFault, Source};
use named_files::KeptFile;
use std::fs::OpenFile;
use std::io;
use std::io::{ErrorKind, Read};
use std::os::unix::fs::FileExt;

/// The number of the file among those that are `Opened`: there is only one.
const ONLY: u32 = 0;

/// A file of the system that is read, with a record of its calls. The record supposes the bytes of one file. They are
/// known as long as they agree with each call. If the record supposes no file, nothing is known of its bytes.
///
/// The type of the open file is a parameter, so that a clause can say that a read in order reads this file. std says
/// nothing of what is left of a `File`: of that type alone, any other reader would do as well.
#[derive(Drop)]
pub struct KitFile<F: Read + OpenFile + FileExt + Drop> {
    /// None once it is closed.
    opened: Option<Opened<F>>,
    /// The state in which it was found since the last call that read it.
    pub(crate) state: Option<FileState>,
    failures: u64,
    record: Record,
}

/// An open file, as the only one of some files by their numbers.
#[derive(Drop)]
struct Opened<F: Read + OpenFile + FileExt + Drop> {
    file: RetriedReader<F>,
}

impl<F: Read + OpenFile + FileExt + Drop> KitFile<F> {
    /// Returns an open file, which is read from its front. Whatever the record supposes, it does the same.
    pub(crate) fn new(file: F, record: Record) -> KitFile<F>
        requires { «record».calls ≡ [] }
        ensures rest { ⟦<KitFile<F> as Source>⟧.rest result ≡ file_supposed «record» }
        ensures bytes { ⟦<KitFile<F> as KeptFile>⟧.bytes result ≡ file_supposed «record» }
        ensures whole { ⟦<KitFile<F> as Source>⟧.whole result (archive_at «record».supposed 0) }
        ensures fresh { ⟦<KitFile<F> as Source>⟧.failures result ≡ 0 }
        ensures file { IsSomeAnd result.opened (λ opened. opened.file.reader ≡ file) }
    {
        let opened = Opened {
            file: RetriedReader::new(file),
        };
        KitFile {
            opened: Some(opened),
            state: None,
            failures: 0,
            record,
        }
    }
}

impl<F: Read + OpenFile + FileExt + Drop> NumberedFiles for Opened<F> {
    ghost number = { λ _. 1 };

    // Neither call changes what is read next in order.
    ghost answers = { λ old _ new. new ≡ old };

    // Believed: that this is the length of the file.
    fn length(&mut self, _n: u32) -> io::Result<u64> {
        let found = self.file.reader.metadata()?;
        if found.is_file() {
            Ok(found.len())
        } else {
            Err(ErrorKind::InvalidInput.into())
        }
    }

    // Believed: that these are bytes of the file from this offset on.
    fn read_at(&mut self, _n: u32, offset: u64, into: &mut [u8]) -> io::Result<usize> {
        self.file.reader.read_at(into, offset)
    }
}

impl<F: Read + OpenFile + FileExt + Drop> Source for KitFile<F> {
    ghost rest = { λ file. rest_held file.record };

    ghost failures = { λ file. file.failures };

    ghost whole = { λ file bytes. archive_at file.record.supposed 0 ≡ bytes };

    fn read_next(&mut self, into: &mut [u8]) -> Result<usize, DeviceFault>
        requires room { 0 < length into.old }
        requires count { self.old.failures < 2 ^ 64 - 1 }
        ensures bound { IfOk result (λ n. n ≤ length into.new) }
        ensures bytes { ReadConsumes
            (still_known (rest_held self.old.record) (rest_held self.new.record))
            (rest_held self.new.record) result into.new }
        ensures known { IsSome (rest_held self.new.record) → IsSome (rest_held self.old.record) }
        ensures count { Counts result self.old.failures self.new.failures }
        ensures whole { (bytes : List ℕ) → archive_at self.old.record.supposed 0 ≡ bytes
            → archive_at self.new.record.supposed 0 ≡ bytes }
        // The result is noted, and nothing else. A closed file isn't read.
        ensures noted { NotesIf (is_some self.old.opened) (call_of_read result into.new)
            self.old.record self.new.record }
        // If the file's own bytes are known, they are given, and none is left out.
        ensures file { GivesOn (λ opened. F.remaining opened.file.reader) self.old.opened
            self.new.opened result into.new }
    {
        self.state = None;
        if let Some(opened) = &mut self.opened {
            if let Ok(n) = read_noted(&mut opened.file, &mut self.record, into) {
                return Ok(n);
            }
        }
        self.failures += 1;
        Err(DeviceFault)
    }
}

impl<F: Read + OpenFile + FileExt + Drop> KeptFile for KitFile<F> {
    type State = FileState;

    ghost state_found = { λ file. file.state };

    ghost bytes = { λ file. bytes_held file.record };

    ghost bytes_are_whole = { λ file all is. held_is_supposed file.record all is };

    fn read_at(&mut self, offset: u64, into: &mut [u8]) -> Result<usize, DeviceFault>
        requires room { 0 < length into.old }
        requires count { self.old.failures < 2 ^ 64 - 1 }
        ensures known { WasKnown (bytes_held self.old.record) (bytes_held self.new.record) }
        ensures rest { rest_held self.new.record ≡ rest_held self.old.record }
        ensures whole { (bytes : List ℕ) → archive_at self.old.record.supposed 0 ≡ bytes
            → archive_at self.new.record.supposed 0 ≡ bytes }
        ensures bound { IfOk result (λ n. n ≤ length into.new) }
        ensures bytes { IfOk result (λ n. IsReadFromFile offset (take n into.new)
            (bytes_held self.new.record)) }
        ensures count { Counts result self.old.failures self.new.failures }
        ensures noted { NotesIf (is_some self.old.opened) (call_of_read_at 0 offset result into.new)
            self.old.record self.new.record }
        // What is read next in order doesn't change.
        ensures file { self.new.opened ≡ self.old.opened }
    {
        self.state = None;
        if let Some(opened) = &mut self.opened {
            if let Ok(n) = read_at_noted(opened, &mut self.record, ONLY, offset, into) {
                return Ok(n);
            }
        }
        self.failures += 1;
        Err(DeviceFault)
    }

    fn length(&mut self) -> Result<u64, DeviceFault>
        requires { self.old.failures < 2 ^ 64 - 1 }
        ensures known { WasKnown (bytes_held self.old.record) (bytes_held self.new.record) }
        ensures rest { rest_held self.new.record ≡ rest_held self.old.record }
        ensures whole { (bytes : List ℕ) → archive_at self.old.record.supposed 0 ≡ bytes
            → archive_at self.new.record.supposed 0 ≡ bytes }
        ensures length { IfOk result (λ n. IfSome (bytes_held self.new.record)
            (λ all. n ≡ length all)) }
        ensures count { Counts result self.old.failures self.new.failures }
        ensures noted { NotesIf (is_some self.old.opened) (call_of_length 0 result)
            self.old.record self.new.record }
        ensures file { self.new.opened ≡ self.old.opened }
    {
        self.state = None;
        if let Some(opened) = &mut self.opened {
            if let Ok(n) = length_noted(opened, &mut self.record, ONLY) {
                return Ok(n);
            }
        }
        self.failures += 1;
        Err(DeviceFault)
    }

    fn state(&mut self) -> Result<FileState, DeviceFault>
        requires { self.old.failures < 2 ^ 64 - 1 }
        ensures known { bytes_held self.new.record ≡ bytes_held self.old.record }
        ensures rest { rest_held self.new.record ≡ rest_held self.old.record }
        ensures whole { (bytes : List ℕ) → archive_at self.old.record.supposed 0 ≡ bytes
            → archive_at self.new.record.supposed 0 ≡ bytes }
        ensures found { IfOk result (λ state. self.new.state ≡ Some state) }
        ensures count { Counts result self.old.failures self.new.failures }
        ensures file { self.new.opened ≡ self.old.opened }
    {
        if let Some(opened) = &self.opened {
            if let Ok(found) = found_of(opened.file.reader.metadata()) {
                let state = FileState::of(&found);
                self.state = Some(state);
                return Ok(state);
            }
        }
        self.failures += 1;
        Err(DeviceFault)
    }

    fn check_state(&mut self, state: FileState) -> Result<(), DeviceFault> {
        let found = self.state()?;
        if found == state {
            return Ok(());
        }
        self.failures += 1;
        Err(DeviceFault)
    }

    fn close(&mut self)
        ensures known { bytes_held self.new.record ≡ bytes_held self.old.record }
        ensures rest { rest_held self.new.record ≡ rest_held self.old.record }
        ensures whole { (bytes : List ℕ) → archive_at self.old.record.supposed 0 ≡ bytes
            → archive_at self.new.record.supposed 0 ≡ bytes }
        ensures found { self.new.state ≡ self.old.state }
        ensures count { self.new.failures ≡ self.old.failures }
        ensures closed { self.new.opened ≡ None }
    {
        self.opened = None;
    }
}
