//! Files by their names.
ghost use Rattle.std.specs.Prelude.{◌≡◌, ◌≢◌, ◌⊎◌, ◌<◌, ◌≤◌, ◌-◌, ◌^◌, ◌&&◌, ◌∷◌, ◌++◌, ℕ, Bool, true, false, List, [], Option, None, Some, is_some, is_ok, IfOk, IfErr, IfSome, IsSome, OnOk, OnErr};
ghost use Rattle.std.specs.Result.{MatchResult};
ghost use Rattle.contract_words.specs.Devices.{Counts};
ghost use Rattle.named_files.specs.Entries.{Entry, Nothing, IsFileOf, bytes_of, Leads};
ghost use Rattle.named_files.specs.OtherNames.{LeavesAlone};
ghost use Rattle.named_files.specs.Reported.{AddsReport, look_agrees, apart_agrees, leftover_agrees, creation_agrees};
ghost use Rattle.named_files.specs.Refusals.{HasCause};

use crate::file_name::FileName;
use crate::kept_file::KeptFile;
use crate::look::Look;
use crate::new_file::NewFile;
use crate::refusal::Refusal;
use mbox_cutter::DeviceFault;
use std::alloc::{AllocError, Global};

/// Files by their names. Those that are read borrow it; at most one at a time is made.
///
/// While a file is made the folder itself doesn't change: the bytes of the new file are its own until it takes its
/// name. So other files can be read meanwhile, and a crash leaves of them what it would have left before.
///
/// A contract says what each name leads to, what a crash may leave there, and which calls are made. For files in memory
/// all of this is so. For files of the system it is what is supposed of them: whatever is supposed, the calls are the
/// same, and the record of the calls is real. The reports say whether everything that the system reported of the files
/// agrees with what is supposed of them.
pub trait Folder {
    /// A file that is read.
    type File: KeptFile;

    /// A file that is made. It can't be dropped: it takes its name, or is discarded.
    type New: NewFile;

    /// A file that a killed run left. It is locked, so that no other run removes it.
    type Left: Drop;

    /// What was reported of these files.
    type Reports: Drop;

    /// The name of a file. Only `name` makes one.
    type Name: FileName;

    /// The names that were made. A record of them can't be made or dropped here.
    type Names;

    /// Whether all of it agrees with what is so, or is supposed to be so.
    ghost agree: { Self.Reports → Bool };

    /// The states in which the files that were given back were last found, the newest first; None for a file that wasn't
    /// looked at since it was read. Each of them is what a call of the system returned, whatever is supposed of the files.
    ghost found: { Self.Reports → List (Option Self.File.State) };

    /// The names that were made, the newest first; each with whether all that had been reported by then agreed.
    ghost made: { Self.Names → List (List ℕ × Bool) };

    /// What each name leads to.
    ghost holds: { Self → List ℕ → Entry };

    /// Whether the file of the first name is the same after another one takes the second name, or after what has the
    /// second name is removed.
    ghost apart: { Self → List ℕ → List ℕ → Bool };

    /// The name under which a file is being made.
    ghost making: { Self → Option (List ℕ) };

    /// Whether the bytes of the file to which a name leads are on the disk. Its name may not be.
    ghost is_on_disk: { Self → List ℕ → Bool };

    /// Whether a name leads to a file that a killed run left, which is known by its mark.
    ghost is_leftover: { Self → List ℕ → Bool };

    /// The name of a file that a killed run left.
    ghost name_left: { Self.Left → List ℕ };

    /// What a crash at this moment may leave under each name.
    ghost may_leave: { Self → List ℕ → Entry → Type 0 };

    /// The moment, as a number that doesn't fall.
    ghost moment: { Self → ℕ };

    /// What a crash at some moment from that one on might have left under each name, during a call or between two.
    ghost left_since: { Self → ℕ → List ℕ → Entry → Type 0 };

    /// All that is reported of these files is so.
    ghost reports_are_right: { Type 0 };

    /// The system may refuse a call on a name for a reason of its own.
    ghost can_refuse: { Type 0 };

    /// A read may fail.
    ghost reads_can_fail: { Type 0 };

    /// A write may fail, or bringing something to the disk.
    ghost writes_can_fail: { Type 0 };

    /// What a call of `create` makes of the folder: the folder before it, the name, whether it was done, the folder
    /// after it.
    ghost creates: { Self → List ℕ → Bool → Self → Type 0 };

    /// What a call of `rename` makes of it: the folder before it, the name, whether the file was on the disk, whether
    /// it was done, the folder after it.
    ghost renames: { Self → List ℕ → Bool → Bool → Self → Type 0 };

    /// What a call of `sync_name` makes of it: the folder before it, the name, whether it was done, the folder after it.
    ghost syncs: { Self → List ℕ → Bool → Self → Type 0 };

    /// What a call of `discard` makes of it.
    ghost discards: { Self → Self → Type 0 };

    /// What a call of `remove_leftover` makes of it: the folder before it, the name, whether it was done, the folder
    /// after it.
    ghost removes: { Self → List ℕ → Bool → Self → Type 0 };

    /// Returns reports of which there are none yet.
    fn no_reports(&self) -> Self::Reports
        ensures agree { agree result ≡ true }
        ensures found { found result ≡ [] };

    /// Adds more reports.
    fn add_reports(&self, reports: &mut Self::Reports, more: Self::Reports)
        ensures agree { agree reports.new ≡ (agree reports.old && agree more) }
        ensures found { found reports.new ≡ found more ++ found reports.old };

    /// Makes a name of a text, and notes that.
    fn name(
        &self,
        alloc: Global,
        names: &mut Self::Names,
        reports: &Self::Reports,
        text: &str,
    ) -> Result<Self::Name, AllocError>
        ensures text { IfOk result (λ name. Self.Name.text name ≡ text.now) }
        ensures noted { made names.new ≡ (text.now, agree reports.now) ∷ made names.old };

    /// Opens a file, which is read from its front.
    fn open(&self, alloc: Global, name: &Self::Name) -> Result<Self::File, Refusal>
        ensures rest { IfOk result (λ file.
            Self.File.rest file ≡ bytes_of (holds self.now (Self.Name.text name.now))) }
        ensures bytes { IfOk result (λ file.
            Self.File.bytes file ≡ bytes_of (holds self.now (Self.Name.text name.now))) }
        ensures whole { IfOk result (λ file. IfSome
            (bytes_of (holds self.now (Self.Name.text name.now)))
            (Self.File.whole file)) }
        ensures fresh { IfOk result (λ file. Self.File.failures file ≡ 0) }
        ensures refused { IfErr result (λ why. HasCause why
            ((bytes_of (holds self.now (Self.Name.text name.now)) ≡ None) ⊎ can_refuse)) };

    /// Opens a plain file, as `open` does. Anything else may be refused before it is opened, because a pipe isn't open
    /// before something writes to it.
    fn open_plain(&self, alloc: Global, name: &Self::Name) -> Result<Self::File, Refusal>
        ensures rest { IfOk result (λ file.
            Self.File.rest file ≡ bytes_of (holds self.now (Self.Name.text name.now))) }
        ensures bytes { IfOk result (λ file.
            Self.File.bytes file ≡ bytes_of (holds self.now (Self.Name.text name.now))) }
        ensures whole { IfOk result (λ file. IfSome
            (bytes_of (holds self.now (Self.Name.text name.now)))
            (Self.File.whole file)) }
        ensures fresh { IfOk result (λ file. Self.File.failures file ≡ 0) }
        ensures refused { IfErr result (λ why. HasCause why
            ((bytes_of (holds self.now (Self.Name.text name.now)) ≡ None) ⊎ can_refuse)) }
    {
        self.open(alloc, name)
    }

    /// Closes a file that was opened here, and takes over what was reported of its bytes, and the state in which it was
    /// found.
    fn take_back(&self, reports: &mut Self::Reports, file: Self::File)
        ensures agree { agree reports.new ≡ (agree reports.old
            && is_some (Self.File.rest file) && is_some (Self.File.bytes file)) }
        ensures found { found reports.new ≡ Self.File.state_found file ∷ found reports.old };

    /// Looks at what a name leads to: its kind, and the length of a plain file.
    fn look(
        &self,
        alloc: Global,
        reports: &mut Self::Reports,
        name: &Self::Name,
    ) -> Result<Look, Refusal>
        ensures noted { AddsReport reports_are_right
            (look_agrees result (holds self.now (Self.Name.text name.now)))
            (agree reports.old) (agree reports.new) }
        ensures found { found reports.new ≡ found reports.old }
        ensures refused { IfErr result (λ why. HasCause why can_refuse) };

    /// Whether the file of the first name is the same after another one takes the second name, or after what has the
    /// second name is removed.
    fn is_apart(
        &self,
        alloc: Global,
        reports: &mut Self::Reports,
        name: &Self::Name,
        other: &Self::Name,
    ) -> Result<bool, AllocError>
        ensures noted { AddsReport reports_are_right
            (apart_agrees result (apart self.now (Self.Name.text name.now)
            (Self.Name.text other.now)))
            (agree reports.old) (agree reports.new) }
        ensures found { found reports.new ≡ found reports.old };

    /// Finds what a killed run left under a name, and locks it. Returns None if nothing has the name, and is refused if
    /// something else has it.
    fn find_leftover(
        &self,
        alloc: Global,
        reports: &mut Self::Reports,
        name: &Self::Name,
    ) -> Result<Option<Self::Left>, Refusal>
        ensures left { IfOk result (λ found. IfSome found (λ left.
            (name_left left ≡ (Self.Name.text name.now))
            × (is_leftover self.now (Self.Name.text name.now) ≡ true))) }
        ensures noted { AddsReport reports_are_right
            (leftover_agrees result (holds self.now (Self.Name.text name.now)))
            (agree reports.old) (agree reports.new) }
        ensures found { found reports.new ≡ found reports.old }
        ensures refused { IfErr result (λ why. HasCause why
            (((holds self.now (Self.Name.text name.now) ≢ Nothing)
            × (is_leftover self.now (Self.Name.text name.now) ≡ false))
            ⊎ can_refuse)) };

    /// Removes what a killed run left.
    fn remove_leftover(&mut self, alloc: Global, left: Self::Left) -> Result<(), Refusal>
        requires { is_leftover self.old (name_left left) ≡ true }
        ensures gone { OnOk result (holds self.new (name_left left) ≡ Nothing) }
        ensures others { LeavesAlone apart holds may_leave moment left_since
            (λ n. apart self.old n (name_left left)) self.old self.new }
        ensures stays { OnErr result ((n : List ℕ) → holds self.new n ≡ holds self.old n) }
        ensures making { making self.new ≡ making self.old }
        ensures refused { IfErr result (λ why. HasCause why can_refuse) }
        ensures call { removes self.old (name_left left) (is_ok result) self.new };

    /// Makes a new and empty file under a name, which its owner alone may read, and which this process alone has
    /// locked. It is refused if anything has the name, which stays.
    fn create(
        &mut self,
        alloc: Global,
        reports: &mut Self::Reports,
        name: &Self::Name,
    ) -> Result<Self::New, Refusal>
        requires { making self.old ≡ None }
        ensures noted { AddsReport reports_are_right
            (creation_agrees (is_ok result) (holds self.old (Self.Name.text name.now)))
            (agree reports.old) (agree reports.new) }
        ensures found { found reports.new ≡ found reports.old }
        ensures empty { IfOk result (λ new. (Self.New.taken new ≡ Some [])
            × (Self.New.failures new ≡ 0)) }
        ensures making { MatchResult result (λ _. making self.new ≡ Some (Self.Name.text name.now))
            (λ _. making self.new ≡ None) }
        ensures others { LeavesAlone apart holds may_leave moment left_since
            (λ n. apart self.old n (Self.Name.text name.now)) self.old self.new }
        ensures stays { OnErr result ((n : List ℕ) → holds self.new n ≡ holds self.old n) }
        ensures refused { IfErr result (λ why. HasCause why
            ((holds self.old (Self.Name.text name.now) ≢ Nothing) ⊎ can_refuse)) }
        ensures call { creates self.old (Self.Name.text name.now) (is_ok result) self.new };

    /// Brings all that the file that is made took to the disk, with the rights that it is to have under a name.
    fn sync_new(&self, new: &mut Self::New, name: &Self::Name) -> Result<(), DeviceFault>
        requires { Self.New.failures new.old < 2 ^ 64 - 1 }
        ensures taken { Self.New.taken new.new ≡ Self.New.taken new.old }
        ensures kept { OnOk result (Self.New.is_kept new.new ≡ true) }
        ensures count { Counts result (Self.New.failures new.old) (Self.New.failures new.new) };

    /// Gives the file that is made another name, in place of what had it. If that fails, nothing changes, and the file
    /// is given back.
    fn rename(
        &mut self,
        alloc: Global,
        new: Self::New,
        name: &Self::Name,
    ) -> Result<(), (Refusal, Self::New)>
        requires { IsSome (making self.old) }
        ensures named { OnOk result (Leads (holds self.new (Self.Name.text name.now))
            (Self.New.taken new)
            × (Self.New.is_kept new ≡ true
            → is_on_disk self.new (Self.Name.text name.now) ≡ true)) }
        ensures none { OnOk result (making self.new ≡ None) }
        ensures others { IfSome (making self.old) (λ temporary.
            LeavesAlone apart holds may_leave moment left_since
            (λ n. apart self.old n temporary && apart self.old n (Self.Name.text name.now)) self.old
            self.new) }
        ensures stays { OnErr result (((n : List ℕ) → holds self.new n ≡ holds self.old n)
            × (making self.new ≡ making self.old)) }
        ensures back { IfErr result (λ e. e.1 ≡ new) }
        ensures crash_named { (c : Entry) → may_leave self.new (Self.Name.text name.now) c
            → may_leave self.old (Self.Name.text name.now) c
            ⊎ IsFileOf (Self.New.may_hold new) c }
        ensures refused { IfErr result (λ e. HasCause e.0 can_refuse) }
        ensures call { renames self.old (Self.Name.text name.now) (Self.New.is_kept new)
            (is_ok result) self.new };

    /// Brings a name to the disk. After that a crash leaves what it leads to now, and nothing older, if the bytes of
    /// that are on the disk. It may be refused if the name leads to another file than the one that got it last.
    fn sync_name(&mut self, alloc: Global, name: &Self::Name) -> Result<(), Refusal>
        ensures kept { OnOk result (is_on_disk self.old (Self.Name.text name.now) ≡ true
            → (c : Entry) → may_leave self.new (Self.Name.text name.now) c → c
            ≡ holds self.old (Self.Name.text name.now)) }
        ensures others { LeavesAlone apart holds may_leave moment left_since (λ _. true) self.old
            self.new }
        ensures stays { (n : List ℕ) → holds self.new n ≡ holds self.old n }
        ensures making { making self.new ≡ making self.old }
        ensures refused { IfErr result (λ why. HasCause why (can_refuse ⊎ writes_can_fail)) }
        ensures call { syncs self.old (Self.Name.text name.now) (is_ok result) self.new };

    /// Removes the file that is made, if the system does that.
    fn discard(&mut self, new: Self::New)
        requires { IsSome (making self.old) }
        ensures none { making self.new ≡ None }
        ensures others { IfSome (making self.old) (λ temporary.
            LeavesAlone apart holds may_leave moment left_since (λ n. apart self.old n temporary)
            self.old self.new) }
        ensures call { discards self.old self.new };

    /// This moment is one of those since an earlier one.
    ghost counts_now: { (folder : Self) (t : ℕ) (n : List ℕ) (c : Entry) → t ≤ moment folder
        → may_leave folder n c → left_since folder t n c };

    /// Since this moment there was no other one.
    ghost only_now: { (folder : Self) (n : List ℕ) (c : Entry)
        → left_since folder (moment folder) n c → may_leave folder n c };

    /// If all reports are right, the bytes of an open file stay known.
    ghost stays_known: { (file : Self.File) → reports_are_right
        → IsSome (Self.File.rest file) × IsSome (Self.File.bytes file) };

    /// A read fails only where reads can fail.
    ghost reads_fail: { (file : Self.File) → 0 < Self.File.failures file → reads_can_fail };

    /// A write of a new file fails only where writes can fail.
    ghost writes_fail: { (new : Self.New) → 0 < Self.New.failures new → writes_can_fail };
}
