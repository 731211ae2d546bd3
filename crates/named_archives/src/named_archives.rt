//! The files of some names as archives, which are read at any place.
ghost use Rattle.std.specs.Prelude.{⊤, ◌≡◌, ◌<◌, ◌≤◌, ◌-◌, ◌^◌, ◌&&◌, ◌↔◌, ℕ, true, false, None, Some, IsSome, All, map, length, take, slice_get, IfOk, IfSome, OnOk, OnErr};
ghost use Rattle.std.specs.Option.{ForSome};
ghost use Rattle.std.proofs.Props.{props};
ghost use Rattle.contract_words.specs.Archives.{IsLength, IsReadFromArchive};
ghost use Rattle.contract_words.specs.Devices.{Counted, Counts};
ghost use Rattle.contract_words.specs.Knowledge.{WasKnown};
ghost use Rattle.named_files.specs.Entries.{IsReadFromFile};
ghost use Rattle.named_files.specs.AddedReports.{AddsReports};
ghost use Rattle.named_files.specs.FoundStates.{AreFoundOnly};
ghost use Rattle.named_files.specs.Reported.{AddsReport};
ghost use Rattle.named_archives.specs.Names.{files_of, held_while, IsFileAt, IsInState, IsStillOpen};
ghost use Rattle.named_archives.specs.Progress.{has_agreed, is_for_memory, FailsFor};
ghost use Rattle.named_archives.specs.States.{IsInOneOf};

use crate::read_ahead::ReadAhead;
use mail_answer::Archives;
use mbox_cutter::DeviceFault;
use named_files::{Folder, KeptFile, Refusal};
use std::alloc::Global;

/// The files of some names by their numbers, of which at most one is open at a time: the one that was used last. A name
/// that leads to no file has no length, and can't be read.
///
/// Each file has to be in the state in which it was when the run first looked at it; otherwise the call fails. Their
/// bytes are known as long as what was returned agrees with what is supposed, of the open file and of all that were
/// closed.
#[derive(Drop)]
pub struct NamedArchives<'p, F: Folder> {
    folder: &'p F,
    alloc: Global,
    names: &'p [F::Name],
    /// The state of each file.
    states: &'p [<F::File as KeptFile>::State],
    /// The number of the file that was opened last.
    number: u32,
    /// That file, while it is open.
    current: Option<ReadAhead<F::File>>,
    /// What was reported of the files that were closed.
    closed: F::Reports,
    failures: u64,
    /// Why a file couldn't be opened when that failed last.
    refused: Option<Refusal>,
    ghost few: { length names.now < 2 ^ 32 },
    ghost each: { length states.now ≡ length names.now },
    ghost right: { F.reports_are_right → F.agree closed ≡ true },
    ghost counted: { ForSome current (λ a. F.File.failures a.file ≤ failures) },
    ghost opened: { ForSome current (λ a. IsFileAt
        (files_of F.Name.text (F.holds folder.now) names.now)
        states.now number (F.File.bytes a.file) a.state) },
    // No call fails without a cause.
    ghost failed: { 0 < failures → FailsFor refused
        (All IsSome (files_of F.Name.text (F.holds folder.now) names.now)) F.can_refuse
        F.reads_can_fail },
    // As long as no call has failed, each file was found in its state after it was read: the open one, and all that were
    // closed.
    ghost in_state: { failures ≡ 0
        → ForSome current (λ a. F.File.state_found a.file ≡ Some a.state) },
    ghost closed_in_state: { failures ≡ 0
        → All (IsInOneOf states.now) (F.found closed) } by { Prim.hlevel props },
}

impl<'p, F: Folder> NamedArchives<'p, F> {
    /// Opens no file yet. Returns None for more than 4,294,967,295 names, because there are no numbers for them.
    pub fn new(
        folder: &'p F,
        alloc: Global,
        names: &'p [F::Name],
        states: &'p [<F::File as KeptFile>::State],
    ) -> Option<NamedArchives<'p, F>>
        requires { length states.now ≡ length names.now }
        ensures few { IsSome result ↔ length names.now < 2 ^ 32 }
        ensures number { IfSome result (λ archives. ⟦<NamedArchives<'p, F> as Archives>⟧.number
            archives ≡ length names.now) }
        ensures held { IfSome result (λ archives. ⟦<NamedArchives<'p, F> as Archives>⟧.held archives
            ≡ held_while true (files_of F.Name.text (F.holds folder.now) names.now)) }
        ensures files { IfSome result (λ archives.
            files_of F.Name.text (F.holds archives.folder.now) archives.names.now
            ≡ files_of F.Name.text (F.holds folder.now) names.now) }
        ensures states { IfSome result (λ archives. archives.states.now ≡ states.now) }
        ensures fresh { IfSome result (λ archives. ⟦<NamedArchives<'p, F> as Archives>⟧.failures
            archives ≡ 0) }
    {
        if names.len() > u32::MAX as usize {
            return None;
        }
        Some(NamedArchives {
            folder,
            alloc,
            names,
            states,
            number: 0,
            current: None,
            closed: folder.no_reports(),
            failures: 0,
            refused: None,
        })
    }

    /// Whether memory ran out when a file couldn't be opened last.
    pub fn lacks_memory(&self) -> bool
        ensures { result ≡ is_for_memory self.now.refused }
    {
        matches!(self.refused, Some(Refusal::Memory))
    }

    /// Closes the file that is open, and adds all that was reported of the files.
    pub fn report(mut self, reports: &mut F::Reports)
        ensures noted { AddsReport F.reports_are_right
            (F.agree self.entry.closed && has_agreed (λ a. F.File.rest a.file)
            (λ a. F.File.bytes a.file) self.entry.current)
            (F.agree reports.old) (F.agree reports.new) }
        // If all reports agree, the bytes of all archives stayed known.
        ensures known { F.agree reports.new ≡ true
            → All IsSome (files_of F.Name.text (F.holds self.entry.folder.now) self.entry.names.now)
            → IsSome (⟦<NamedArchives<'p, F> as Archives>⟧.held self.entry) }
        // If no call has failed, each file was found in one of the states, and that is noted.
        ensures in_state { self.entry.failures ≡ 0 → AreFoundOnly (IsInOneOf self.entry.states.now)
            (F.found reports.old) (F.found reports.new) }
        ensures reports { AddsReports F.Folder reports.old reports.new }
    {
        self.close_open();
        let NamedArchives { folder, closed, .. } = self;
        folder.add_reports(reports, closed);
    }

    /// Closes the file that is open, and takes over what was reported of its bytes.
    fn close_open(&mut self)
        ensures none { self.new.current ≡ None }
        ensures noted { F.agree self.new.closed ≡ (F.agree self.old.closed
            && has_agreed (λ a. F.File.rest a.file) (λ a. F.File.bytes a.file)
            self.old.current) }
        ensures same { (self.new.folder.now ≡ self.old.folder.now)
            × (self.new.names.now ≡ self.old.names.now)
            × (self.new.states.now ≡ self.old.states.now) }
        ensures count { self.new.failures ≡ self.old.failures }
    {
        if let Some(ahead) = self.current.take() {
            self.folder.take_back(&mut self.closed, ahead.into_file());
        }
    }
}

impl<'p, F: Folder> NamedArchives<'p, F> {
    /// Whether the file with this number is open.
    fn is_open(&self, n: u32) -> bool
        ensures { result ≡ true → (self.now.number ≡ n) × IsSome self.now.current }
    {
        self.number == n && self.current.is_some()
    }

    /// Opens the file with this number. It has to be a plain file, since no other has a length or is read at any place.
    fn open_file(&mut self, n: u32) -> Result<ReadAhead<F::File>, DeviceFault>
        requires none { self.old.current ≡ None }
        requires below { n < length self.old.names.now }
        requires count { self.old.failures < 2 ^ 64 - 1 }
        ensures opened { IfOk result (λ a. IsFileAt
            (files_of F.Name.text (F.holds self.old.folder.now) self.old.names.now)
            self.old.states.now n (F.File.bytes a.file) a.state) }
        ensures fresh { IfOk result (λ a. F.File.failures a.file ≡ 0) }
        ensures none { self.new.current ≡ None }
        ensures closed { self.new.closed ≡ self.old.closed }
        ensures same { (self.new.folder.now ≡ self.old.folder.now)
            × (self.new.names.now ≡ self.old.names.now)
            × (self.new.states.now ≡ self.old.states.now) }
        ensures count { Counts result self.old.failures self.new.failures }
    {
        match self.folder.open_plain(self.alloc, &self.names[n as usize]) {
            Ok(file) => { Ok(ReadAhead::new(self.alloc, file, self.states[n as usize])) }
            Err(why) => {
                self.refused = Some(why);
                self.failures += 1;
                Err(DeviceFault)
            }
        }
    }

    /// Keeps a file that was opened, and then read or looked at for its length; whether that failed is given.
    fn keep(&mut self, n: u32, ahead: ReadAhead<F::File>, has_failed: bool)
        requires none { self.old.current ≡ None }
        requires opened { IsFileAt
            (files_of F.Name.text (F.holds self.old.folder.now) self.old.names.now)
            self.old.states.now n (F.File.bytes ahead.file) ahead.state }
        requires counted { Counted has_failed 0 (F.File.failures ahead.file) }
        requires in_state { has_failed ≡ false → F.File.state_found ahead.file ≡ Some ahead.state }
        requires count { self.old.failures < 2 ^ 64 - 1 }
        ensures kept { (self.new.number ≡ n) × (self.new.current ≡ Some ahead) }
        ensures closed { self.new.closed ≡ self.old.closed }
        ensures same { (self.new.folder.now ≡ self.old.folder.now)
            × (self.new.names.now ≡ self.old.names.now)
            × (self.new.states.now ≡ self.old.states.now) }
        ensures count { Counted has_failed self.old.failures self.new.failures }
    {
        if has_failed {
            self.failures += 1;
        }
        self.number = n;
        self.current = Some(ahead);
    }
}

impl<'p, F: Folder> Archives for NamedArchives<'p, F> {
    ghost held = { λ a. held_while (F.agree a.closed && has_agreed (λ a. F.File.rest a.file)
        (λ a. F.File.bytes a.file) a.current)
        (files_of F.Name.text (F.holds a.folder.now) a.names.now) };

    ghost number = { λ a. length a.names.now };

    ghost failures = { λ a. a.failures };

    ghost lengths_asked = { λ _. 0 };

    // Each has to be in the same state.
    ghost was = { λ a first. (files_of F.Name.text (F.holds a.folder.now) a.names.now
        ≡ files_of F.Name.text (F.holds first.folder.now) first.names.now)
        × (a.states.now ≡ first.states.now) };

    // Nothing carries a record of calls.
    ghost measures = { λ _ _ _ _. ⊤ };

    ghost reads = { λ _ _ _ _ _. ⊤ };

    fn count(&self) -> u32 {
        self.names.len() as u32
    }

    fn length(&mut self, n: u32) -> Result<u64, DeviceFault>
        requires below { n < length self.old.names.now }
        requires count { self.old.failures < 2 ^ 64 - 1 }
        ensures held { WasKnown
            (held_while (F.agree self.old.closed && has_agreed (λ a. F.File.rest a.file)
            (λ a. F.File.bytes a.file) self.old.current)
            (files_of F.Name.text (F.holds self.old.folder.now) self.old.names.now))
            (held_while (F.agree self.new.closed && has_agreed (λ a. F.File.rest a.file)
            (λ a. F.File.bytes a.file) self.new.current)
            (files_of F.Name.text (F.holds self.new.folder.now) self.new.names.now)) }
        ensures files { files_of F.Name.text (F.holds self.new.folder.now) self.new.names.now
            ≡ files_of F.Name.text (F.holds self.old.folder.now) self.old.names.now }
        ensures number { length self.new.names.now ≡ length self.old.names.now }
        ensures bytes { IfOk result (λ bytes. IsLength n bytes
            (held_while (F.agree self.new.closed && has_agreed (λ a. F.File.rest a.file)
            (λ a. F.File.bytes a.file) self.new.current)
            (files_of F.Name.text (F.holds self.new.folder.now) self.new.names.now))) }
        // The length was read while the file was in its state.
        ensures in_state { OnOk result ((self.new.number ≡ n) × IsInState
            (λ a. F.File.state_found a.file) self.new.states.now n self.new.current) }
        ensures states { self.new.states.now ≡ self.old.states.now }
        ensures count { Counts result self.old.failures self.new.failures }
    {
        if self.is_open(n) {
            return self.length_here();
        }
        self.length_first(n)
    }

    fn read_at(&mut self, n: u32, offset: u64, into: &mut [u8]) -> Result<usize, DeviceFault>
        requires below { n < length self.old.names.now }
        requires room { 0 < length into.old }
        requires count { self.old.failures < 2 ^ 64 - 1 }
        ensures held { WasKnown
            (held_while (F.agree self.old.closed && has_agreed (λ a. F.File.rest a.file)
            (λ a. F.File.bytes a.file) self.old.current)
            (files_of F.Name.text (F.holds self.old.folder.now) self.old.names.now))
            (held_while (F.agree self.new.closed && has_agreed (λ a. F.File.rest a.file)
            (λ a. F.File.bytes a.file) self.new.current)
            (files_of F.Name.text (F.holds self.new.folder.now) self.new.names.now)) }
        ensures files { files_of F.Name.text (F.holds self.new.folder.now) self.new.names.now
            ≡ files_of F.Name.text (F.holds self.old.folder.now) self.old.names.now }
        ensures number { length self.new.names.now ≡ length self.old.names.now }
        ensures bound { IfOk result (λ bytes. bytes ≤ length into.new) }
        ensures bytes { IfOk result (λ bytes. IsReadFromArchive n offset (take bytes into.new)
            (held_while (F.agree self.new.closed && has_agreed (λ a. F.File.rest a.file)
            (λ a. F.File.bytes a.file) self.new.current)
            (files_of F.Name.text (F.holds self.new.folder.now) self.new.names.now))) }
        // What is given was read while the file was in its state.
        ensures in_state { OnOk result ((self.new.number ≡ n) × IsInState
            (λ a. F.File.state_found a.file) self.new.states.now n self.new.current) }
        ensures states { self.new.states.now ≡ self.old.states.now }
        ensures count { Counts result self.old.failures self.new.failures }
    {
        if self.is_open(n) {
            return self.read_here(offset, into);
        }
        self.read_first(n, offset, into)
    }
}

impl<'p, F: Folder> NamedArchives<'p, F> {
    /// Opens the file with this number, and asks it for its length. Another one that is open is closed before.
    fn length_first(&mut self, n: u32) -> Result<u64, DeviceFault>
        requires below { n < length self.old.names.now }
        requires count { self.old.failures < 2 ^ 64 - 1 }
        ensures agreed { (F.agree self.new.closed && has_agreed (λ a. F.File.rest a.file)
            (λ a. F.File.bytes a.file) self.new.current) ≡ true
            → (F.agree self.old.closed && has_agreed (λ a. F.File.rest a.file)
            (λ a. F.File.bytes a.file) self.old.current) ≡ true }
        ensures bytes { IfOk result (λ n. IfSome self.new.current (λ a.
            IfSome (F.File.bytes a.file) (λ all. n ≡ length all))) }
        ensures number { OnOk result (self.new.number ≡ n) }
        ensures in_state { OnOk result (IsInState (λ a. F.File.state_found a.file)
            self.new.states.now self.new.number self.new.current) }
        ensures same { (self.new.folder.now ≡ self.old.folder.now)
            × (self.new.names.now ≡ self.old.names.now)
            × (self.new.states.now ≡ self.old.states.now) }
        ensures count { Counts result self.old.failures self.new.failures }
    {
        self.close_open();
        let mut ahead = self.open_file(n)?;
        let length = ahead.length();
        self.keep(n, ahead, length.is_err());
        length
    }

    /// Opens the file with this number, and reads it from an offset on. Another one that is open is closed before.
    fn read_first(&mut self, n: u32, offset: u64, into: &mut [u8]) -> Result<usize, DeviceFault>
        requires below { n < length self.old.names.now }
        requires room { 0 < length into.old }
        requires count { self.old.failures < 2 ^ 64 - 1 }
        ensures agreed { (F.agree self.new.closed && has_agreed (λ a. F.File.rest a.file)
            (λ a. F.File.bytes a.file) self.new.current) ≡ true
            → (F.agree self.old.closed && has_agreed (λ a. F.File.rest a.file)
            (λ a. F.File.bytes a.file) self.old.current) ≡ true }
        ensures bound { IfOk result (λ n. n ≤ length into.new) }
        ensures bytes { IfOk result (λ n. IfSome self.new.current (λ a.
            IsReadFromFile offset (take n into.new) (F.File.bytes a.file))) }
        ensures number { OnOk result (self.new.number ≡ n) }
        ensures in_state { OnOk result (IsInState (λ a. F.File.state_found a.file)
            self.new.states.now self.new.number self.new.current) }
        ensures same { (self.new.folder.now ≡ self.old.folder.now)
            × (self.new.names.now ≡ self.old.names.now)
            × (self.new.states.now ≡ self.old.states.now) }
        ensures count { Counts result self.old.failures self.new.failures }
    {
        self.close_open();
        let mut ahead = self.open_file(n)?;
        let read = ahead.read(offset, into);
        self.keep(n, ahead, read.is_err());
        read
    }

    /// Asks the open file for its length.
    fn length_here(&mut self) -> Result<u64, DeviceFault>
        requires opened { IsSome self.old.current }
        requires count { self.old.failures < 2 ^ 64 - 1 }
        ensures still { IsStillOpen (λ a. F.File.rest a.file) (λ a. F.File.bytes a.file)
            self.old.current self.new.current }
        ensures bytes { IfOk result (λ n. IfSome self.new.current (λ a.
            IfSome (F.File.bytes a.file) (λ all. n ≡ length all))) }
        ensures in_state { OnOk result (IsInState (λ a. F.File.state_found a.file)
            self.new.states.now self.new.number self.new.current) }
        ensures same { (self.new.folder.now ≡ self.old.folder.now)
            × (self.new.names.now ≡ self.old.names.now)
            × (self.new.states.now ≡ self.old.states.now) × (self.new.closed ≡ self.old.closed)
            × (self.new.number ≡ self.old.number) }
        ensures count { Counts result self.old.failures self.new.failures }
    {
        let Some(ahead) = &mut self.current else {
            return Ok(0);
        };
        let length = ahead.length();
        if length.is_err() {
            self.failures += 1;
        }
        length
    }

    /// Reads the open file from an offset on.
    fn read_here(&mut self, offset: u64, into: &mut [u8]) -> Result<usize, DeviceFault>
        requires opened { IsSome self.old.current }
        requires room { 0 < length into.old }
        requires count { self.old.failures < 2 ^ 64 - 1 }
        ensures still { IsStillOpen (λ a. F.File.rest a.file) (λ a. F.File.bytes a.file)
            self.old.current self.new.current }
        ensures bound { IfOk result (λ n. n ≤ length into.new) }
        ensures bytes { IfOk result (λ n. IfSome self.new.current (λ a.
            IsReadFromFile offset (take n into.new) (F.File.bytes a.file))) }
        ensures in_state { OnOk result (IsInState (λ a. F.File.state_found a.file)
            self.new.states.now self.new.number self.new.current) }
        ensures same { (self.new.folder.now ≡ self.old.folder.now)
            × (self.new.names.now ≡ self.old.names.now)
            × (self.new.states.now ≡ self.old.states.now) × (self.new.closed ≡ self.old.closed)
            × (self.new.number ≡ self.old.number) }
        ensures count { Counts result self.old.failures self.new.failures }
    {
        let Some(ahead) = &mut self.current else {
            return Ok(0);
        };
        let read = ahead.read(offset, into);
        if read.is_err() {
            self.failures += 1;
        }
        read
    }
}
