//! Indexes the archives of a run one after another.
ghost use Rattle.std.specs.Prelude.{◌≡◌, ◌<◌, ◌^◌, ◌-◌, ℕ, List, Some, false, map, length, All, IfOk, IfErr};
ghost use Rattle.std.specs.Result.{MatchResult};
ghost use Rattle.std.specs.String.{string_bytes};
ghost use Rattle.contract_words.specs.Knowledge.{AreStillKnown};
ghost use Rattle.mail_index.specs.Tables.{IsPath};
ghost use Rattle.index_job.specs.ArchiveRefusals.{AreSound};
ghost use Rattle.index_run.specs.ArchivesIndexed.{mboxes, run_fault_of_job, IsArchivesFault};
ghost use Rattle.index_job.specs.IndexJobs.{IsIndexOf};
ghost use Rattle.index_run.specs.Counts.{CountsSources};
ghost use Rattle.index_run.specs.SourcesStay.{SourcesStay};
ghost use Rattle.run_faults.specs.Faults.{fault_in, is_failed_out, is_early, IsOfIndexing};

use index_job::{IndexJob, JobFault};
use mail_index::Digests;
use mbox_cutter::{CutFault, Source};
use run_faults::Fault;
use std::alloc::Global;

/// Returns the fault of a run for a job's fault at the archive with this number. `Failed` never comes, because this job
/// isn't used after a fault.
fn run_fault_of_job(number: u64, fault: JobFault) -> Fault
    ensures { result ≡ run_fault_of_job number fault }
{
    match fault {
        JobFault::Cut(fault) => Fault::Archive { number, fault },
        JobFault::OutOfMemory => Fault::Memory,
        JobFault::TooMany => Fault::TooMany,
        JobFault::Failed => Fault::Archive {
            number,
            fault: CutFault::Failed,
        },
    }
}

/// Indexes each archive from its source, with its digest or without, and returns the job, which can be finished. Fails
/// with the first faulty archive, or for lack of memory.
pub(crate) fn job_of_archives<S: Source>(
    alloc: Global,
    digests: Digests,
    paths: &[String],
    sources: &mut [S],
) -> Result<IndexJob, Fault>
    requires many { length paths.now ≡ length sources.old }
    requires paths { All IsPath (map string_bytes paths.now) }
    requires count { All (λ s. S.failures s < 2 ^ 64 - 1) sources.old }
    ensures kept { IfOk result (λ job. (job.digests ≡ digests) × (job.draft.failed ≡ false)) }
    ensures known { (archives : List (List ℕ))
        → AreStillKnown (map S.rest sources.old) (map S.rest sources.new) archives
        → MatchResult result (λ job. AreSound (mboxes (map string_bytes paths.now) archives)
        × IsIndexOf job (mboxes (map string_bytes paths.now) archives))
        (IsArchivesFault (mboxes (map string_bytes paths.now) archives)) }
    ensures count { CountsSources (fault_in result) (map S.failures sources.old)
        (map S.failures sources.new) }
    ensures stays { SourcesStay S.Source (fault_in result) sources.old sources.new }
    ensures output { is_failed_out (fault_in result) ≡ false }
    ensures early { is_early (fault_in result) ≡ false }
    ensures kinds { IfErr result IsOfIndexing }
{
    let mut job = IndexJob::new(alloc, digests)?;
    for number in 0..sources.len() {
        if let Err(fault) = job.archive(paths[number].as_str(), &mut sources[number]) {
            return Err(run_fault_of_job(number as u64, fault));
        }
    }
    Ok(job)
}
