//! A folder in memory.
ghost use Rattle.std.specs.Prelude.{vec_len, vec_capacity, ◌≡◌, ◌≢◌, ◌≤◌, ◌<◌, ◌∷◌, ⊤, ℕ, List, true, false, None, Some, not, length, OnOk, OnErr, IsTrue, ◌↔◌};
ghost use Rattle.std.proofs.Common.{arith, rules};
ghost use Rattle.std.specs.Str.{bytes_eq};
ghost use Rattle.std.specs.Option.{option_map, option_map_or};
ghost use Rattle.std.specs.String.{string_bytes};
ghost use Rattle.named_files.specs.Entries.{Nothing, File, bytes_of};
ghost use Rattle.named_files.specs.Logs.{Named, MayLeave, MayHaveLeft, left_now, only_left};
ghost use Rattle.named_files.specs.MemoryFolders.{changes_of, change_of, entry_of_item, held_in, held_of, held_nothing, nothing_first};

pub mod item;
pub mod memory_file;
pub mod memory_new;
pub mod memory_reports;
mod step;

use crate::file_name::FileName;
use crate::folder::Folder;
use crate::look::Look;
use crate::made_names::MadeNames;
use crate::memory_folder::item::Item;
use crate::memory_folder::memory_file::MemoryFile;
use crate::memory_folder::memory_new::MemoryNew;
use crate::memory_folder::memory_reports::MemoryReports;
use crate::memory_folder::step::{Found, Step};
use crate::plain_name::PlainName;
use crate::refusal::Refusal;
use mbox_cutter::DeviceFault;
use std::alloc::{AllocError, Global};

/// A folder in memory. A crash undoes some of its newest changes, up to the last one that brought the name to the disk.
/// It leaves any bytes of a file whose bytes aren't on the disk. A file that is made is lost in a crash.
#[derive(Drop)]
pub struct MemoryFolder {
    /// What was done to it, the oldest first.
    steps: Vec<Step>,
    making: Option<String>,
}

/// A file that a killed run left in a folder in memory.
#[derive(Drop)]
pub struct MemoryLeft {
    name: String,
}

impl MemoryFolder {
    /// Returns a folder in which nothing has a name.
    pub fn new(alloc: Global) -> MemoryFolder
        ensures empty { (n : List ℕ) → (held_in result n).entry ≡ Nothing }
        ensures none { result.making ≡ None }
    {
        MemoryFolder {
            steps: Vec::new(alloc),
            making: None,
        }
    }

    /// Lets a name lead to something else. The bytes of a file are on the disk, but its name isn't until it is brought
    /// there.
    pub fn put(&mut self, alloc: Global, name: &str, item: Item) -> Result<(), AllocError>
        ensures held { OnOk result ((held_in self.new name.now).entry ≡ entry_of_item item) }
        ensures others { (n : List ℕ) → not (bytes_eq n name.now) ≡ true
            → held_in self.new n ≡ held_in self.old n }
        ensures stays { OnErr result ((n : List ℕ) → held_in self.new n ≡ held_in self.old n) }
        ensures making { self.new.making ≡ self.old.making }
    {
        let found = Found {
            item,
            is_on_disk: true,
            is_left: false,
        };
        self.add_named(alloc, name, found)
    }

    /// Lets a name lead to a file of these bytes that a killed run left.
    pub fn leave(&mut self, alloc: Global, name: &str, bytes: Vec<u8>) -> Result<(), AllocError>
        ensures held { OnOk result ((held_in self.new name.now).entry ≡ File bytes.items) }
        ensures left { OnOk result ((held_in self.new name.now).is_left ≡ true) }
        ensures others { (n : List ℕ) → not (bytes_eq n name.now) ≡ true
            → held_in self.new n ≡ held_in self.old n }
        ensures stays { OnErr result ((n : List ℕ) → held_in self.new n ≡ held_in self.old n) }
        ensures making { self.new.making ≡ self.old.making }
    {
        let found = Found {
            item: Item::File(bytes),
            is_on_disk: false,
            is_left: true,
        };
        self.add_named(alloc, name, found)
    }

    /// Returns the bytes of the file with this name; None if it leads to no file.
    pub fn bytes(&self, name: &str) -> Option<&[u8]>
        ensures { option_map (λ bytes. bytes.now) result
            ≡ bytes_of (held_in self.now name.now).entry }
    {
        match self.found(name) {
            Some(
                Found {
                    item: Item::File(bytes),
                    ..
                },
            ) => Some(bytes.as_slice()),
            _ => None,
        }
    }

    /// Returns what a name leads to; None if it never led to anything.
    fn found(&self, name: &str) -> Option<&Found>
        ensures { option_map_or (λ found. held_of found.now) result held_nothing
            ≡ held_in self.now name.now }
    {
        let mut found = None;
        for step in &self.steps {
            if let Some(now) = step.found(name) {
                found = Some(now);
            }
        }
        found
    }

    /// Whether nothing has a name.
    fn is_free(&self, name: &str) -> bool
        ensures { IsTrue result ↔ ((held_in self.now name.now).entry ≡ Nothing) }
    {
        match self.found(name) {
            Some(found) => matches!(found.item, Item::Nothing),
            None => true,
        }
    }

    /// Lets a name lead to something else.
    fn add_named(&mut self, alloc: Global, name: &str, found: Found) -> Result<(), AllocError>
        ensures ok { OnOk result (changes_of self.new.steps.items
            ≡ Named name.now (held_of found) ∷ changes_of self.old.steps.items) }
        ensures err { OnErr result (self.new.steps.items ≡ self.old.steps.items) }
        ensures making { self.new.making ≡ self.old.making }
    {
        let name = String::from_str(alloc, name)?;
        self.add(Step::Named(name, found))
    }

    /// Adds a step, which is the newest one then.
    #[tactic(auto, using(crate::proofs::MemoryFolders::changes_more))]
    fn add(&mut self, step: Step) -> Result<(), AllocError>
        ensures ok { OnOk result (changes_of self.new.steps.items
            ≡ change_of step ∷ changes_of self.old.steps.items) }
        ensures err { OnErr result (self.new.steps.items ≡ self.old.steps.items) }
        ensures making { self.new.making ≡ self.old.making }
    {
        self.steps.push(step).or(Err(AllocError))
    }

    /// Adds a step, for which there is room.
    #[tactic(auto, using(crate::proofs::MemoryFolders::changes_more))]
    fn add_reserved(&mut self, step: Step)
        requires { vec_len self.old.steps < vec_capacity self.old.steps }
        ensures changes { changes_of self.new.steps.items
            ≡ change_of step ∷ changes_of self.old.steps.items }
        ensures making { self.new.making ≡ self.old.making }
    {
        self.steps.push_reserved(step);
    }
}

impl Folder for MemoryFolder {
    type File = MemoryFile;

    type New = MemoryNew;

    type Left = MemoryLeft;

    type Reports = MemoryReports;

    type Name = PlainName;

    type Names = MadeNames;

    ghost agree = { λ _. true };

    ghost found = { λ reports. reports.found };

    ghost made = { λ names. names.notes.made };

    ghost holds = { λ m n. (held_in m n).entry };

    ghost apart = { λ _ a b. not (bytes_eq a b) };

    ghost making = { λ m. option_map string_bytes m.making };

    ghost is_on_disk = { λ m n. (held_in m n).is_on_disk };

    ghost is_leftover = { λ m n. (held_in m n).is_left };

    ghost name_left = { λ left. string_bytes left.name };

    ghost may_leave = { λ m n c. MayLeave nothing_first (changes_of m.steps.items) n c };

    ghost moment = { λ m. length (changes_of m.steps.items) };

    ghost left_since = { λ m t n c. MayHaveLeft nothing_first (changes_of m.steps.items) t n c };

    ghost reports_are_right = { ⊤ };

    ghost can_refuse = { ⊥ };

    ghost reads_can_fail = { ⊥ };

    ghost writes_can_fail = { ⊤ };

    ghost creates = { λ _ _ _ _. ⊤ };

    ghost renames = { λ _ _ _ _ _. ⊤ };

    ghost syncs = { λ _ _ _ _. ⊤ };

    ghost discards = { λ _ _. ⊤ };

    ghost removes = { λ _ _ _ _. ⊤ };

    ghost counts_now = { λ m t n c le left.
        left_now nothing_first (changes_of m.steps.items) t n c le left };

    ghost only_now = { λ m n c left. only_left nothing_first (changes_of m.steps.items) n c left };

    ghost stays_known = { λ _ _. Prim.search rules };

    ghost reads_fail = { λ _ h. Prim.omega arith };

    ghost writes_fail = { λ _ _. tt };

    fn no_reports(&self) -> MemoryReports {
        MemoryReports::new()
    }

    fn add_reports(&self, reports: &mut MemoryReports, more: MemoryReports) {
        reports.add(&more);
    }

    fn name(
        &self,
        alloc: Global,
        names: &mut MadeNames,
        reports: &MemoryReports,
        text: &str,
    ) -> Result<PlainName, AllocError> {
        names.note(text.as_bytes(), reports);
        PlainName::new(alloc, text)
    }

    fn open(&self, alloc: Global, name: &PlainName) -> Result<MemoryFile, Refusal> {
        let Some(bytes) = self.bytes(name.as_str()) else {
            return Err(Refusal::Refused);
        };
        match bytes.to_vec(alloc) {
            Ok(bytes) => Ok(MemoryFile::new(bytes)),
            Err(AllocError) => Err(Refusal::Memory),
        }
    }

    fn take_back(&self, reports: &mut MemoryReports, file: MemoryFile) {
        reports.note(&file);
    }

    fn look(
        &self,
        _alloc: Global,
        _reports: &mut MemoryReports,
        name: &PlainName,
    ) -> Result<Look, Refusal> {
        let Some(found) = self.found(name.as_str()) else {
            return Ok(Look::Nothing);
        };
        match &found.item {
            Item::Nothing => Ok(Look::Nothing),
            Item::File(bytes) => Ok(Look::File(bytes.len() as u64)),
            Item::Folder => Ok(Look::Folder),
            Item::Other => Ok(Look::Other),
        }
    }

    fn is_apart(
        &self,
        _alloc: Global,
        _reports: &mut MemoryReports,
        name: &PlainName,
        other: &PlainName,
    ) -> Result<bool, AllocError> {
        Ok(name.as_str() != other.as_str())
    }

    fn find_leftover(
        &self,
        alloc: Global,
        _reports: &mut MemoryReports,
        name: &PlainName,
    ) -> Result<Option<MemoryLeft>, Refusal> {
        match self.found(name.as_str()) {
            Some(found) if !matches!(found.item, Item::Nothing) => {
                if !found.is_left {
                    return Err(Refusal::Refused);
                }
                match String::from_str(alloc, name.as_str()) {
                    Ok(name) => Ok(Some(MemoryLeft { name })),
                    Err(AllocError) => Err(Refusal::Memory),
                }
            }
            _ => Ok(None),
        }
    }

    fn remove_leftover(&mut self, _alloc: Global, left: MemoryLeft) -> Result<(), Refusal> {
        let found = Found {
            item: Item::Nothing,
            is_on_disk: true,
            is_left: false,
        };
        match self.add(Step::Named(left.name, found)) {
            Ok(()) => Ok(()),
            Err(AllocError) => Err(Refusal::Memory),
        }
    }

    fn create(
        &mut self,
        alloc: Global,
        _reports: &mut MemoryReports,
        name: &PlainName,
    ) -> Result<MemoryNew, Refusal> {
        if !self.is_free(name.as_str()) {
            return Err(Refusal::Refused);
        }
        match String::from_str(alloc, name.as_str()) {
            Ok(name) => {
                self.making = Some(name);
                Ok(MemoryNew::new(alloc))
            }
            Err(AllocError) => Err(Refusal::Memory),
        }
    }

    fn sync_new(&self, new: &mut MemoryNew, _name: &PlainName) -> Result<(), DeviceFault> {
        new.is_kept = true;
        Ok(())
    }

    fn rename(
        &mut self,
        alloc: Global,
        new: MemoryNew,
        name: &PlainName,
    ) -> Result<(), (Refusal, MemoryNew)> {
        let Ok(name) = String::from_str(alloc, name.as_str()) else {
            return Err((Refusal::Memory, new));
        };
        if self.steps.reserve(1).is_err() {
            return Err((Refusal::Memory, new));
        }
        self.add_reserved(Step::Named(name, new.into_found()));
        self.making = None;
        Ok(())
    }

    fn sync_name(&mut self, alloc: Global, name: &PlainName) -> Result<(), Refusal> {
        let Ok(name) = String::from_str(alloc, name.as_str()) else {
            return Err(Refusal::Memory);
        };
        match self.add(Step::Synced(name)) {
            Ok(()) => Ok(()),
            Err(AllocError) => Err(Refusal::Memory),
        }
    }

    fn discard(&mut self, new: MemoryNew) {
        let _ = new.into_found();
        self.making = None;
    }
}
