//! What a run writes: an index, or an answer.
ghost use Rattle.std.specs.Prelude.{◌≡◌, ◌⊎◌, ◌<◌, ◌+◌, ◌-◌, ◌^◌, ℕ, List, Option, true, false, Some, map, IfErr, OnOk};
ghost use Rattle.contract_words.specs.Devices.{Counted};
ghost use Rattle.mairix_run.specs.OldIndexes.{IsNotReplaced};
ghost use Rattle.mairix_run.specs.Tasks.{Work};
ghost use Rattle.mairix_run.specs.WholeRuns.{IsWritten, is_kept};
ghost use Rattle.named_archives.specs.Names.{files_of};
ghost use Rattle.named_archives.specs.Progress.{CannotRead};
ghost use Rattle.named_files.specs.AddedReports.{AddsReports};
ghost use Rattle.run_faults.specs.Faults.{fault_in, is_failed_out};

use crate::stopped::Stopped;
use mbox_cutter::Out;
use named_files::Folder;
use run_faults::Fault;

/// What a run writes, to a file or to standard output.
pub(crate) trait Content<F: Folder> {
    /// The names of the archives that it is made of.
    ghost names: { Self → List F.Name };

    /// What has to be so of it, so that it can be written.
    ghost is_writable: { Self → Type 0 };

    /// The work that it is, if the archives have these bytes.
    ghost work: { Self → List (List ℕ) → Work };

    /// In which states the archives were found, if it was written: what was noted of files before and after that.
    ghost are_found: { Self → List (Option F.File.State) → List (Option F.File.State) → Type 0 };

    /// Checks that a file of it may take the place of what has a name.
    ///
    /// # Errors
    ///
    /// `CannotOpen` if it may not, or if the system doesn't show that; or lack of memory.
    fn check_old(&self, folder: &F, reports: &mut F::Reports, name: &F::Name) -> Result<(), Stopped>
        ensures replaceable { OnOk result ((bytes : List (List ℕ)) → F.agree reports.new ≡ true
            → is_kept (work self.now bytes) (F.holds folder.now (F.Name.text name.now)) ≡ false) }
        ensures stopped { IfErr result (λ stopped. (bytes : List (List ℕ))
            → F.agree reports.new ≡ true → IsNotReplaced (F.Name.text name.now)
            ((is_kept (work self.now bytes) (F.holds folder.now (F.Name.text name.now)) ≡ true)
            ⊎ (F.can_refuse ⊎ F.reads_can_fail)) stopped) }
        ensures reports { AddsReports F.Folder reports.old reports.new };

    /// Writes it, and returns the status. The output isn't flushed.
    ///
    /// # Errors
    ///
    /// A refusal of the work, a failed read or output, or lack of memory.
    fn write<O: Out>(&self, folder: &F, reports: &mut F::Reports, out: &mut O) -> Result<u8, Fault>
        requires writable { is_writable self.now }
        requires out { O.failures out.old < 2 ^ 64 - 1 }
        ensures written { (bytes : List (List ℕ))
            → files_of F.Name.text (F.holds folder.now) (names self.now) ≡ map Some bytes
            → F.agree reports.new ≡ true
            → IsWritten (O.failures out.new ≡ O.failures out.old + 1)
            (CannotRead F.can_refuse F.reads_can_fail) (work self.now bytes)
            (O.taken out.old) (O.taken out.new) result }
        ensures out_failed { Counted (is_failed_out (fault_in result)) (O.failures out.old)
            (O.failures out.new) }
        ensures in_state { OnOk result (are_found self.now (F.found reports.old)
            (F.found reports.new)) }
        ensures reports { AddsReports F.Folder reports.old reports.new };
}
