//! A folder of which one call fails, to let each call of a run fail in turn.
ghost use Rattle.std.specs.Prelude.{⊤, ◌≡◌};

use crate::failing_files::{Calls, FailingFile, FailingNew, fails};
use mbox_cutter::DeviceFault;
use named_files::{Folder, Look, Refusal};
use std::alloc::{AllocError, Global};
use std::cell::Cell;

/// Passes each call on to another folder, except that one call fails: a call of the folder, or of a file that was
/// opened or made in it. It changes nothing then. What closes or discards a file can't fail.
#[derive(Drop)]
pub struct FailingFolder<'c, F: Folder + Drop> {
    inner: F,
    /// The number of the call that fails, where the next one is 1; 0 for none.
    count: &'c Cell<u64>,
}

impl<'c, F: Folder + Drop> FailingFolder<'c, F> {
    /// The count is the number of the call that fails, from 1 on; each call takes 1 from it.
    pub fn new(inner: F, count: &'c Cell<u64>) -> FailingFolder<'c, F>
        ensures { result.inner ≡ inner }
    {
        FailingFolder { inner, count }
    }

    /// Returns the folder to which calls are passed on.
    pub fn inner(&self) -> &F
        ensures { result.now ≡ self.now.inner }
    {
        &self.inner
    }
}

impl<'c, F: Folder + Drop> Folder for FailingFolder<'c, F> {
    type File = FailingFile<'c, F::File>;

    type New = FailingNew<'c, F::New>;

    type Left = F::Left;

    type Reports = F::Reports;

    type Name = F::Name;

    type Names = F::Names;

    ghost agree = { F.agree };

    ghost found = { F.found };

    ghost made = { F.made };

    ghost holds = { λ f. F.holds f.inner };

    ghost apart = { λ f. F.apart f.inner };

    ghost making = { λ f. F.making f.inner };

    ghost is_on_disk = { λ f. F.is_on_disk f.inner };

    ghost is_leftover = { λ f. F.is_leftover f.inner };

    ghost name_left = { F.name_left };

    ghost may_leave = { λ f. F.may_leave f.inner };

    ghost moment = { λ f. F.moment f.inner };

    ghost left_since = { λ f. F.left_since f.inner };

    ghost reports_are_right = { F.reports_are_right };

    ghost can_refuse = { ⊤ };

    ghost reads_can_fail = { ⊤ };

    ghost writes_can_fail = { ⊤ };

    // Nothing carries a record of calls.
    ghost creates = { λ _ _ _ _. ⊤ };

    ghost renames = { λ _ _ _ _ _. ⊤ };

    ghost syncs = { λ _ _ _ _. ⊤ };

    ghost discards = { λ _ _. ⊤ };

    ghost removes = { λ _ _ _ _. ⊤ };

    ghost counts_now = { λ f. F.counts_now f.inner };

    ghost only_now = { λ f. F.only_now f.inner };

    ghost stays_known = { λ file. F.stays_known file.inner };

    ghost reads_fail = { λ _ _. tt };

    ghost writes_fail = { λ _ _. tt };

    fn no_reports(&self) -> F::Reports {
        self.inner.no_reports()
    }

    fn add_reports(&self, reports: &mut F::Reports, more: F::Reports) {
        self.inner.add_reports(reports, more);
    }

    fn name(
        &self,
        alloc: Global,
        names: &mut F::Names,
        reports: &F::Reports,
        text: &str,
    ) -> Result<F::Name, AllocError> {
        self.inner.name(alloc, names, reports, text)
    }

    fn open(&self, alloc: Global, name: &F::Name) -> Result<FailingFile<'c, F::File>, Refusal> {
        if fails(self.count) {
            return Err(Refusal::Refused);
        }
        match self.inner.open(alloc, name) {
            Ok(inner) => Ok(FailingFile {
                inner,
                calls: Calls::new(self.count),
            }),
            Err(why) => Err(why),
        }
    }

    fn take_back(&self, reports: &mut F::Reports, file: FailingFile<'c, F::File>) {
        let FailingFile { inner, .. } = file;
        self.inner.take_back(reports, inner);
    }

    fn look(
        &self,
        alloc: Global,
        reports: &mut F::Reports,
        name: &F::Name,
    ) -> Result<Look, Refusal> {
        if fails(self.count) {
            return Err(Refusal::Refused);
        }
        self.inner.look(alloc, reports, name)
    }

    fn is_apart(
        &self,
        alloc: Global,
        reports: &mut F::Reports,
        name: &F::Name,
        other: &F::Name,
    ) -> Result<bool, AllocError> {
        if fails(self.count) {
            return Err(AllocError);
        }
        self.inner.is_apart(alloc, reports, name, other)
    }

    fn find_leftover(
        &self,
        alloc: Global,
        reports: &mut F::Reports,
        name: &F::Name,
    ) -> Result<Option<F::Left>, Refusal> {
        if fails(self.count) {
            return Err(Refusal::Refused);
        }
        self.inner.find_leftover(alloc, reports, name)
    }

    fn remove_leftover(&mut self, alloc: Global, left: F::Left) -> Result<(), Refusal> {
        if fails(self.count) {
            return Err(Refusal::Refused);
        }
        self.inner.remove_leftover(alloc, left)
    }

    fn create(
        &mut self,
        alloc: Global,
        reports: &mut F::Reports,
        name: &F::Name,
    ) -> Result<FailingNew<'c, F::New>, Refusal> {
        if fails(self.count) {
            return Err(Refusal::Refused);
        }
        match self.inner.create(alloc, reports, name) {
            Ok(inner) => Ok(FailingNew {
                inner,
                calls: Calls::new(self.count),
            }),
            Err(why) => Err(why),
        }
    }

    fn sync_new(
        &self,
        new: &mut FailingNew<'c, F::New>,
        name: &F::Name,
    ) -> Result<(), DeviceFault> {
        if new.calls.fails() {
            return Err(DeviceFault);
        }
        self.inner.sync_new(&mut new.inner, name)
    }

    fn rename(
        &mut self,
        alloc: Global,
        new: FailingNew<'c, F::New>,
        name: &F::Name,
    ) -> Result<(), (Refusal, FailingNew<'c, F::New>)> {
        if fails(self.count) {
            return Err((Refusal::Refused, new));
        }
        let FailingNew { inner, calls } = new;
        match self.inner.rename(alloc, inner, name) {
            Ok(()) => Ok(()),
            Err((why, inner)) => Err((why, FailingNew { inner, calls })),
        }
    }

    fn sync_name(&mut self, alloc: Global, name: &F::Name) -> Result<(), Refusal> {
        if fails(self.count) {
            return Err(Refusal::Refused);
        }
        self.inner.sync_name(alloc, name)
    }

    fn discard(&mut self, new: FailingNew<'c, F::New>) {
        let FailingNew { inner, calls: _ } = new;
        self.inner.discard(inner);
    }
}
