//! Makes an index file in memory, without digests: nobody would look at them (decision 133 in docs/DECISIONS.md).
ghost use Rattle.std.specs.Prelude.{◌≡◌, ◌<◌, ◌^◌, ◌-◌, ℕ, List, Some, false, map, length, All, IfOk, IfErr};
ghost use Rattle.std.specs.Result.{MatchResult};
ghost use Rattle.std.specs.String.{string_bytes};
ghost use Rattle.contract_words.specs.Knowledge.{AreStillKnown};
ghost use Rattle.mail_index.specs.Faults.{IsFileBy};
ghost use Rattle.mail_index.specs.Tables.{Table, IsPath};
ghost use Rattle.mail_index.specs.declared.digests.Digests.TheVariants.{LeftOut};
ghost use Rattle.index_job.specs.ArchiveRefusals.{AreSound};
ghost use Rattle.index_job.specs.ArchiveTables.{table_by};
ghost use Rattle.index_run.specs.ArchivesIndexed.{mboxes, IsArchivesFault};
ghost use Rattle.index_run.specs.Counts.{CountsSources};
ghost use Rattle.index_run.specs.SourcesStay.{SourcesStay};
ghost use Rattle.run_faults.specs.Faults.{fault_in, is_failed_out, is_early, IsOfIndexing};

use crate::archives_job::job_of_archives;
use mail_index::Digests;
use mbox_cutter::{MemoryOut, Source};
use run_faults::Fault;
use std::alloc::Global;

/// Indexes the archives from their sources, and returns the index file, which has no digests: zeros are in their places.
/// Fails with the first faulty archive, with too many archives, messages or keys, or for lack of memory.
pub fn file_of_archives<S: Source>(
    alloc: Global,
    paths: &[String],
    sources: &mut [S],
) -> Result<MemoryOut, Fault>
    requires many { length paths.now ≡ length sources.old }
    requires paths { All IsPath (map string_bytes paths.now) }
    requires count { All (λ s. S.failures s < 2 ^ 64 - 1) sources.old }
    ensures formed { IfOk result (λ file. (t : Table) × IsFileBy file.taken LeftOut t) }
    ensures known { (archives : List (List ℕ))
        → AreStillKnown (map S.rest sources.old) (map S.rest sources.new) archives
        → MatchResult result (λ file. AreSound (mboxes (map string_bytes paths.now) archives)
        × IsFileBy file.taken LeftOut (table_by LeftOut
        (mboxes (map string_bytes paths.now) archives)))
        (IsArchivesFault (mboxes (map string_bytes paths.now) archives)) }
    ensures count { CountsSources (fault_in result) (map S.failures sources.old)
        (map S.failures sources.new) }
    ensures stays { SourcesStay S.Source (fault_in result) sources.old sources.new }
    ensures output { is_failed_out (fault_in result) ≡ false }
    ensures early { is_early (fault_in result) ≡ false }
    ensures kinds { IfErr result IsOfIndexing }
{
    let job = job_of_archives(alloc, Digests::LeftOut, paths, sources)?;
    let mut file = MemoryOut::new(alloc, None);
    // A job without a fault can fail here only if its output does, and a file in memory fails only for lack of memory.
    job.finish(&mut file).or(Err(Fault::Memory))?;
    Ok(file)
}
