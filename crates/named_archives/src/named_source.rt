//! The file of a name as a source, open only while it is read.
//!
//! One file is open at a time, so few descriptors are enough (decision 19 in docs/DECISIONS.md).
ghost use Rattle.std.specs.Prelude.{◌≡◌, ◌⊎◌, false, ◌<◌, ◌≤◌, ◌+◌, ◌-◌, ◌^◌, ◌&&◌, ◌∷◌, ◌++◌, [], ℕ, List, length, map, true, None, Some, IsSome, All, IfOk, IfErr, IfSome, OnOk, OnErr, vec_len, slice_get};
ghost use Rattle.std.specs.List.{list_all, list_any, range_with_len};
ghost use Rattle.std.specs.Option.{ForSome};
ghost use Rattle.std.specs.Io.KnownBytes.{ReadConsumes};
ghost use Rattle.contract_words.specs.Devices.{Counted, Counts};
ghost use Rattle.contract_words.specs.Knowledge.{still_known};
ghost use Rattle.named_files.specs.Entries.{bytes_of};
ghost use Rattle.named_files.specs.AddedReports.{AddsReports};
ghost use Rattle.named_files.specs.Reported.{AddsReport};
ghost use Rattle.named_archives.specs.Progress.{bytes_left_in, has_agreed, is_for_memory, FailsFor, HasFailed, HasReached, IsFoundInState, IsReadIn, IsRefusedFor};
ghost use Rattle.named_archives.specs.States.{noted_files};

use mbox_cutter::{DeviceFault, Source};
use named_files::{Folder, KeptFile, Refusal};
use std::alloc::{AllocError, Global};

/// How far a file was read.
#[derive(Clone, Copy)]
enum Progress {
    /// More bytes may come.
    Going,
    /// It was read to its end, and is closed again.
    Ended,
    /// It wasn't found in its state after a read, and is closed again. What was read then isn't used.
    Lost,
}

/// The file of a name, which is opened at its first read and closed at its end, so that a run over thousands of archives
/// has one open at a time.
///
/// A read fails if the file can't be opened. If the file has to be in a given state, that is compared after each read.
/// In any other state the read fails, and each one after it: bytes that were read while the file changed aren't used.
#[derive(Drop)]
pub struct NamedSource<'p, F: Folder> {
    folder: &'p F,
    alloc: Global,
    name: &'p F::Name,
    /// The state in which the file has to be; None if it may be in any.
    state: Option<<F::File as KeptFile>::State>,
    /// The file, once it was opened.
    file: Option<F::File>,
    progress: Progress,
    failures: u64,
    /// Why it couldn't be opened when that failed last.
    refused: Option<Refusal>,
    ghost counted: { ForSome file (λ f. F.File.failures f ≤ failures) },
    ghost reached: { ForSome file (λ f. HasReached F.File.state_found F.File.rest state f
        (F.File.failures f) progress) },
    ghost cause: { ForSome refused (λ why.
        IsRefusedFor why (bytes_of (F.holds folder.now (F.Name.text name.now))) F.can_refuse) },
    // No call fails without a cause.
    ghost failed: { 0 < failures → FailsFor refused
        (IsSome (bytes_of (F.holds folder.now (F.Name.text name.now)))) F.can_refuse
        F.reads_can_fail },
    // As long as no call has failed, an open file was found in its state after it was read.
    ghost in_state: { failures ≡ 0 → ForSome file (IsFoundInState F.File.state_found state) },
}

impl<'p, F: Folder> NamedSource<'p, F> {
    /// Returns a source that hasn't opened the file.
    pub fn new(
        folder: &'p F,
        alloc: Global,
        name: &'p F::Name,
        state: Option<<F::File as KeptFile>::State>,
    ) -> NamedSource<'p, F>
        ensures rest { ⟦<NamedSource<'p, F> as Source>⟧.rest result
            ≡ bytes_of (F.holds folder.now (F.Name.text name.now)) }
        ensures failures { ⟦<NamedSource<'p, F> as Source>⟧.failures result ≡ 0 }
        ensures name { result.name.now ≡ name.now }
        ensures state { result.state ≡ state }
        ensures file { result.file ≡ None }
    {
        NamedSource {
            folder,
            alloc,
            name,
            state,
            file: None,
            progress: Progress::Going,
            failures: 0,
            refused: None,
        }
    }

    /// Returns why the file couldn't be opened when that failed last; None if it never failed.
    pub fn refusal(&self) -> Option<Refusal>
        ensures refused { result ≡ self.now.refused }
        ensures cause { ForSome result (λ why. IsRefusedFor why
            (bytes_of (F.holds self.now.folder.now (F.Name.text self.now.name.now))) F.can_refuse) }
    {
        self.refused
    }

    /// Gives the file back, if it was opened, with what was reported of its bytes.
    pub fn report(self, reports: &mut F::Reports)
        ensures noted { AddsReport F.reports_are_right
            (has_agreed F.File.rest F.File.bytes self.entry.file)
            (F.agree reports.old) (F.agree reports.new) }
        // If all reports agree, the source's bytes stayed known.
        ensures known { F.agree reports.new ≡ true → self.entry.failures ≡ 0
            → IsSome self.entry.file → IsSome (⟦<NamedSource<'p, F> as Source>⟧.rest self.entry) }
        // The state in which the file was found is noted.
        ensures found { F.found reports.new
            ≡ noted_files F.File.state_found (self.entry.file ∷ []) ++ F.found reports.old }
    {
        let NamedSource { folder, file, .. } = self;
        if let Some(file) = file {
            folder.take_back(reports, file);
        }
    }

    /// Opens the file, which is read from its front.
    fn open_file(&mut self) -> Result<F::File, DeviceFault>
        requires closed { self.old.file ≡ None }
        requires count { self.old.failures < 2 ^ 64 - 1 }
        ensures rest { IfOk result (λ file. F.File.rest file
            ≡ bytes_of (F.holds self.old.folder.now (F.Name.text self.old.name.now))) }
        ensures fresh { IfOk result (λ file. F.File.failures file ≡ 0) }
        ensures closed { self.new.file ≡ None }
        ensures refused { OnErr result (IsSome self.new.refused) }
        ensures same { (self.new.folder.now ≡ self.old.folder.now)
            × (self.new.name.now ≡ self.old.name.now) × (self.new.state ≡ self.old.state) }
        ensures count { Counts result self.old.failures self.new.failures }
    {
        match self.folder.open(self.alloc, self.name) {
            Ok(file) => Ok(file),
            Err(why) => {
                self.refused = Some(why);
                self.failures += 1;
                Err(DeviceFault)
            }
        }
    }
}

impl<'p, F: Folder> NamedSource<'p, F> {
    /// Reads the first bytes of the file, which has just been opened. It is kept once it was compared with its state.
    fn read_first(&mut self, file: F::File, into: &mut [u8]) -> Result<usize, DeviceFault>
        requires closed { self.old.file ≡ None }
        requires rest { F.File.rest file
            ≡ bytes_of (F.holds self.old.folder.now (F.Name.text self.old.name.now)) }
        requires fresh { F.File.failures file ≡ 0 }
        requires room { 0 < length into.old }
        requires count { self.old.failures < 2 ^ 64 - 1 }
        ensures bound { IfOk result (λ n. n ≤ length into.new) }
        ensures bytes { let all = bytes_of
            (F.holds self.old.folder.now (F.Name.text self.old.name.now)) in
            let new = bytes_left_in F.File.rest all self.new.file self.new.progress in
            ReadConsumes (still_known all new) new result into.new }
        ensures known { let all = bytes_of
            (F.holds self.old.folder.now (F.Name.text self.old.name.now)) in
            IsSome (bytes_left_in F.File.rest all self.new.file self.new.progress) → IsSome all }
        ensures count { Counts result self.old.failures self.new.failures }
        ensures same { (self.new.folder.now ≡ self.old.folder.now)
            × (self.new.name.now ≡ self.old.name.now) × (self.new.state ≡ self.old.state) }
        ensures in_state { OnOk result (IsReadIn F.File.state_found self.new.state self.new.file) }
        ensures failed { OnErr result (HasFailed F.File.failures self.new.file self.new.refused) }
    {
        let mut file = file;
        self.progress = Progress::Going;
        let read = read_on(&mut file, &mut self.progress, self.state, into);
        if read.is_err() {
            self.failures += 1;
        }
        self.file = Some(file);
        read
    }

    /// Reads on in the file, which is open or was read to its end.
    fn read_opened(&mut self, into: &mut [u8]) -> Result<usize, DeviceFault>
        requires opened { IsSome self.old.file }
        requires room { 0 < length into.old }
        requires count { self.old.failures < 2 ^ 64 - 1 }
        ensures bound { IfOk result (λ n. n ≤ length into.new) }
        ensures bytes { let all = bytes_of
            (F.holds self.old.folder.now (F.Name.text self.old.name.now)) in
            let old = bytes_left_in F.File.rest all self.old.file self.old.progress in
            let new = bytes_left_in F.File.rest all self.new.file self.new.progress in
            ReadConsumes (still_known old new) new result into.new }
        ensures known { let all = bytes_of
            (F.holds self.old.folder.now (F.Name.text self.old.name.now)) in
            IsSome (bytes_left_in F.File.rest all self.new.file self.new.progress)
            → IsSome (bytes_left_in F.File.rest all self.old.file self.old.progress) }
        ensures count { Counts result self.old.failures self.new.failures }
        ensures same { (self.new.folder.now ≡ self.old.folder.now)
            × (self.new.name.now ≡ self.old.name.now) × (self.new.state ≡ self.old.state) }
        ensures in_state { OnOk result (IsReadIn F.File.state_found self.new.state self.new.file) }
        ensures failed { OnErr result (HasFailed F.File.failures self.new.file self.new.refused) }
    {
        let Some(file) = &mut self.file else {
            return Ok(0);
        };
        let read = read_on(file, &mut self.progress, self.state, into);
        if read.is_err() {
            self.failures += 1;
        }
        read
    }
}

impl<'p, F: Folder> Source for NamedSource<'p, F> {
    ghost rest = { λ s. bytes_left_in F.File.rest (bytes_of
        (F.holds s.folder.now (F.Name.text s.name.now))) s.file
        s.progress };

    ghost failures = { λ s. s.failures };

    ghost whole = { λ s bytes. bytes_of (F.holds s.folder.now (F.Name.text s.name.now))
        ≡ Some bytes };

    // It has to be in the same state.
    ghost was = { λ s first. s.state ≡ first.state };

    fn read_next(&mut self, into: &mut [u8]) -> Result<usize, DeviceFault>
        requires room { 0 < length into.old }
        requires count { self.old.failures < 2 ^ 64 - 1 }
        ensures bound { IfOk result (λ n. n ≤ length into.new) }
        ensures bytes { let all = bytes_of
            (F.holds self.old.folder.now (F.Name.text self.old.name.now)) in
            let old = bytes_left_in F.File.rest all self.old.file self.old.progress in
            let new = bytes_left_in F.File.rest (bytes_of
            (F.holds self.new.folder.now (F.Name.text self.new.name.now)))
            self.new.file self.new.progress in
            ReadConsumes (still_known old new) new result into.new }
        ensures known { IsSome (bytes_left_in F.File.rest
            (bytes_of (F.holds self.new.folder.now (F.Name.text self.new.name.now))) self.new.file
            self.new.progress)
            → IsSome (bytes_left_in F.File.rest
            (bytes_of (F.holds self.old.folder.now (F.Name.text self.old.name.now))) self.old.file
            self.old.progress) }
        ensures count { Counts result self.old.failures self.new.failures }
        ensures whole { (bytes : List ℕ)
            → bytes_of (F.holds self.old.folder.now (F.Name.text self.old.name.now)) ≡ Some bytes
            → bytes_of (F.holds self.new.folder.now (F.Name.text self.new.name.now)) ≡ Some bytes }
        ensures same { (self.new.folder.now ≡ self.old.folder.now)
            × (self.new.name.now ≡ self.old.name.now) × (self.new.state ≡ self.old.state) }
        // What is given was read while the file was in the state in which it has to be.
        ensures in_state { OnOk result (IsReadIn F.File.state_found self.new.state self.new.file) }
        // Nothing fails without a cause.
        ensures failed { OnErr result (HasFailed F.File.failures self.new.file self.new.refused) }
    {
        if self.file.is_none() {
            let file = self.open_file()?;
            return self.read_first(file, into);
        }
        self.read_opened(into)
    }
}

/// Reads on in a file that was read so far, and then checks that it is in its state.
fn read_on<F: KeptFile>(
    file: &mut F,
    progress: &mut Progress,
    state: Option<F::State>,
    into: &mut [u8],
) -> Result<usize, DeviceFault>
    requires reached { HasReached F.state_found F.rest state file.old
        (F.failures file.old) progress.old }
    requires room { 0 < length into.old }
    requires count { F.failures file.old < 2 ^ 64 - 1 }
    ensures reached { HasReached F.state_found F.rest state file.new
        (F.failures file.new) progress.new }
    ensures bound { IfOk result (λ n. n ≤ length into.new) }
    ensures bytes { let old = bytes_left_in F.rest None (Some file.old) progress.old in
        let new = bytes_left_in F.rest None (Some file.new) progress.new in
        ReadConsumes (still_known old new) new result into.new }
    ensures known { IsSome (bytes_left_in F.rest None (Some file.new) progress.new)
        → IsSome (bytes_left_in F.rest None (Some file.old) progress.old) }
    ensures in_state { OnOk result (IsFoundInState F.state_found state file.new) }
    ensures stays { OnOk result (F.failures file.new ≡ F.failures file.old) }
    ensures most { F.failures file.new ≤ F.failures file.old + 1 }
    ensures failed { OnErr result (0 < F.failures file.new) }
{
    match progress {
        Progress::Going => {}
        Progress::Ended => return Ok(0),
        Progress::Lost => return Err(DeviceFault),
    }
    let read = file.read_next(into)?;
    if is_lost(file, state) {
        file.close();
        *progress = Progress::Lost;
        return Err(DeviceFault);
    }
    if read == 0 {
        file.close();
        *progress = Progress::Ended;
    }
    Ok(read)
}

/// Whether a file isn't in the state in which it has to be.
fn is_lost<F: KeptFile>(file: &mut F, state: Option<F::State>) -> bool
    requires { F.failures file.old < 2 ^ 64 - 1 }
    ensures rest { F.rest file.new ≡ F.rest file.old }
    ensures bytes { F.bytes file.new ≡ F.bytes file.old }
    ensures count { Counted result (F.failures file.old) (F.failures file.new) }
    ensures in_state { result ≡ false
        → ForSome state (λ asked. F.state_found file.new ≡ Some asked) }
{
    match state {
        Some(state) => file.check_state(state).is_err(),
        None => false,
    }
}

/// Returns a source for each name. Its file has to be in the state with the same index; without states, it may be in
/// any.
///
/// # Errors
///
/// `AllocError` if memory runs out.
pub fn sources_of<'p, F: Folder>(
    folder: &'p F,
    alloc: Global,
    names: &'p [F::Name],
    states: &[<F::File as KeptFile>::State],
) -> Result<Vec<NamedSource<'p, F>>, AllocError>
    ensures rest { IfOk result (λ v. map (λ s. ⟦<NamedSource<'p, F> as Source>⟧.rest s) v.items
        ≡ map (λ name. bytes_of (F.holds folder.now (F.Name.text name))) names.now) }
    ensures names { IfOk result (λ v. map (λ s. F.Name.text s.name.now) v.items
        ≡ map F.Name.text names.now) }
    ensures states { IfOk result (λ v. map (λ s. s.state) v.items
        ≡ map (slice_get states.now) (range_with_len 0 (length names.now))) }
    ensures fresh { IfOk result (λ v. All (λ s. (⟦<NamedSource<'p, F> as Source>⟧.failures s ≡ 0)
        × (s.file ≡ None)) v.items) }
{
    let mut sources = Vec::with_capacity(alloc, names.len())?;
    for (number, name) in names.iter().enumerate() {
        let state = states.get(number).copied();
        sources.push(NamedSource::new(folder, alloc, name, state))?;
    }
    Ok(sources)
}

/// Whether memory ran out when the file of one of these sources couldn't be opened last.
pub fn lack_memory<F: Folder>(sources: &[NamedSource<'_, F>]) -> bool
    ensures { result ≡ list_any (λ s. is_for_memory s.refused) sources.now }
{
    for source in sources {
        if matches!(source.refusal(), Some(Refusal::Memory)) {
            return true;
        }
    }
    false
}

/// Gives the files of all sources back that were opened, with what was reported of their bytes.
pub fn report_all<F: Folder>(sources: Vec<NamedSource<F>>, reports: &mut F::Reports)
    ensures noted { AddsReport F.reports_are_right
        (list_all (λ s. has_agreed F.File.rest F.File.bytes s.file) sources.entry.items)
        (F.agree reports.old) (F.agree reports.new) }
    // If all reports agree, the bytes of each source stayed known.
    ensures known { F.agree reports.new ≡ true → All (λ s. s.failures ≡ 0 → IsSome s.file
        → IsSome (bytes_left_in F.File.rest
        (bytes_of (F.holds s.folder.now (F.Name.text s.name.now))) s.file
        s.progress)) sources.entry.items }
    // The states in which the files were found are noted, in order.
    ensures found { F.found reports.new
        ≡ noted_files F.File.state_found (map (λ s. s.file) sources.entry.items)
        ++ F.found reports.old }
    ensures reports { AddsReports F.Folder reports.old reports.new }
{
    for source in sources {
        source.report(reports);
    }
}
