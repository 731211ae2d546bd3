//! Calls of the system with a record of their own.
ghost use Rattle.std.specs.Prelude.{◌≡◌, ◌<◌, ◌-◌, ◌^◌, true, OnOk};
ghost use Rattle.contract_words.specs.Devices.{Counts};

use crate::kit_new::KitNew;
use crate::leftover::lock_leftover;
use crate::looks::{look_at, refusal_of};
use crate::names::are_apart;
use crate::new_file::{
    NamedFile, make_marked, mode_for, remove_named, rename_named, settle_named, sync_folder,
};
use crate::opening::{open_file, open_plain_file, output_file};
use kit_system::{KitLog, KitOpened, KitSystem};
use mbox_cutter::{DeviceFault, Out};
use named_files::{Look, Refusal};
use std::alloc::{AllocError, Global};
use std::fs::File;
use std::rt::Files;
use system::{CallError, Found, System};

/// The system's calls on names. Each method makes a record, passes it to a function that owes its calls, and ends it. No
/// clause says that it makes no other call, so these bodies have to be read (decision 132 in docs/DECISIONS.md).
#[derive(Drop)]
pub(crate) struct RecordedCalls<'r, R: Files<File = File>> {
    system: KitSystem<'r, R>,
}

impl<'r, R: Files<File = File>> RecordedCalls<'r, R> {
    /// Returns the calls of a system.
    pub(crate) fn new(rt: &'r R) -> RecordedCalls<'r, R> {
        RecordedCalls {
            system: KitSystem::new(rt),
        }
    }

    /// Returns the plain file that is the standard output, if it is one.
    pub(crate) fn output(&self) -> Option<Found> {
        let mut log = KitLog::new();
        let output = output_file(&self.system, &mut log);
        log.close();
        output
    }

    /// Opens what a name leads to, to read it.
    pub(crate) fn open(&self, output: &Option<Found>, name: &str) -> Result<KitOpened, Refusal> {
        let mut log = KitLog::new();
        let opened = open_file(&self.system, &mut log, output, name);
        log.close();
        opened
    }

    /// Opens a plain file, to read it.
    pub(crate) fn open_plain(
        &self,
        output: &Option<Found>,
        name: &str,
    ) -> Result<KitOpened, Refusal> {
        let mut log = KitLog::new();
        let opened = open_plain_file(&self.system, &mut log, output, name);
        log.close();
        opened
    }

    /// Looks at what a name leads to.
    pub(crate) fn look(&self, alloc: Global, name: &str) -> Result<Look, Refusal> {
        let mut log = KitLog::new();
        let look = look_at(&self.system, &mut log, alloc, name);
        log.close();
        look
    }

    /// Whether two names lead to different files.
    pub(crate) fn are_apart(
        &self,
        alloc: Global,
        name: &str,
        other: &str,
    ) -> Result<bool, AllocError> {
        let mut log = KitLog::new();
        let are_apart = are_apart(&self.system, &mut log, alloc, name, other);
        log.close();
        are_apart
    }

    /// Finds what a killed run left under a name, and locks it. Returns None if nothing has the name.
    pub(crate) fn lock_leftover(
        &self,
        alloc: Global,
        name: &str,
    ) -> Result<Option<KitOpened>, CallError> {
        let mut log = KitLog::new();
        let left = lock_leftover(&self.system, &mut log, alloc, name);
        log.close();
        left
    }

    /// Removes a name.
    pub(crate) fn remove(&self, name: &str) -> Result<(), CallError> {
        let mut log = KitLog::new();
        let removed = self.system.remove(&mut log, name);
        log.close();
        removed
    }

    /// Makes a new and empty file with this name, locks it and marks it.
    pub(crate) fn make(&self, name: &str) -> Result<KitOpened, CallError> {
        let mut log = KitLog::new();
        let made = make_marked(&self.system, &mut log, name);
        log.close();
        made
    }

    /// Brings all that was put into a new file to the disk, with the mode that it is to have under a name, and the mark.
    pub(crate) fn sync_new(&self, new: &mut KitNew, name: &str) -> Result<(), DeviceFault>
        requires { new.old.failures < 2 ^ 64 - 1 }
        ensures taken { ⟦<KitNew as Out>⟧.taken new.new ≡ ⟦<KitNew as Out>⟧.taken new.old }
        ensures kept { OnOk result (new.new.is_kept ≡ true) }
        ensures count { Counts result new.old.failures new.new.failures }
    {
        let mut log = KitLog::new();
        let mode = mode_for(&self.system, &mut log, &new.file, name);
        let synced = new.sync(&self.system, &mut log, mode);
        log.close();
        synced
    }

    /// Gives a file with a temporary name its own name.
    pub(crate) fn rename(
        &self,
        file: &KitOpened,
        temporary: &str,
        name: &str,
    ) -> Result<(), CallError> {
        let mut log = KitLog::new();
        let renamed = rename_named(&self.system, &mut log, file, temporary, name);
        log.close();
        renamed
    }

    /// Takes the mark away from the file that got a name, and brings the name to the disk.
    pub(crate) fn settle(
        &self,
        named: Option<NamedFile<KitOpened>>,
        name: &str,
    ) -> Result<(), CallError> {
        let mut log = KitLog::new();
        let settled = match named {
            Some(named) => settle_named(&self.system, &mut log, named, name),
            None => sync_folder(&self.system, &mut log, name),
        };
        log.close();
        settled
    }

    /// Removes a file by its temporary name, unless another file has that.
    pub(crate) fn discard(&self, file: &KitOpened, temporary: &str) {
        let mut log = KitLog::new();
        remove_named(&self.system, &mut log, file, temporary);
        log.close();
    }
}
