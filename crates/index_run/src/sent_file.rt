//! Sends an index file to an output.
ghost use Rattle.std.specs.Prelude.{◌≡◌, ◌<◌, ◌^◌, ◌-◌, ℕ, List, Some, map, length, All, IfErr, OnOk};
ghost use Rattle.std.specs.Bool.{OnFalse, OnTrue};
ghost use Rattle.std.specs.Io.KnownBytes.{Appends};
ghost use Rattle.std.specs.Result.{MatchResult};
ghost use Rattle.std.specs.String.{string_bytes};
ghost use Rattle.contract_words.specs.Devices.{Counted, Sends};
ghost use Rattle.contract_words.specs.Knowledge.{AreStillKnown};
ghost use Rattle.mail_index.specs.Files.{index_file};
ghost use Rattle.mail_index.specs.Tables.{IsPath, IsWellFormed, Table};
ghost use Rattle.index_job.specs.ArchiveRefusals.{AreSound};
ghost use Rattle.index_job.specs.ArchiveTables.{table};
ghost use Rattle.index_run.specs.ArchivesIndexed.{mboxes};
ghost use Rattle.index_run.specs.Counts.{CountsSources};
ghost use Rattle.index_run.specs.SourcesStay.{SourcesStay};
ghost use Rattle.run_faults.specs.Faults.{fault_in, is_failed_out, IsOfIndexing};
ghost use Rattle.index_run.specs.IndexRuns.{IsIndexRunFault};

use crate::archives_job::job_of_archives;
use mail_index::Digests;
use mbox_cutter::{Out, Source};
use run_faults::Fault;
use std::alloc::Global;

/// Indexes the archives from their sources, and sends the index file to the output.
///
/// # Errors
///
/// The first faulty archive, too many archives, messages or keys, or lack of memory: then nothing is sent. `Out` if
/// the output fails: then only a beginning of the file is sent.
pub fn send_index<S: Source, O: Out>(
    alloc: Global,
    paths: &[String],
    sources: &mut [S],
    out: &mut O,
) -> Result<(), Fault>
    requires many { length paths.now ≡ length sources.old }
    requires paths { All IsPath (map string_bytes paths.now) }
    requires count { All (λ s. S.failures s < 2 ^ 64 - 1) sources.old }
    requires out { O.failures out.old < 2 ^ 64 - 1 }
    ensures known { (archives : List (List ℕ))
        → AreStillKnown (map S.rest sources.old) (map S.rest sources.new) archives
        → MatchResult result (λ _. AreSound (mboxes (map string_bytes paths.now) archives)
        × IsWellFormed (table (mboxes (map string_bytes paths.now) archives))
        × Appends (O.taken out.old) (O.taken out.new) (index_file
        (table (mboxes (map string_bytes paths.now) archives))))
        (IsIndexRunFault (mboxes (map string_bytes paths.now) archives) (O.taken out.old)
        (O.taken out.new)) }
    ensures source_failed { CountsSources (fault_in result) (map S.failures sources.old)
        (map S.failures sources.new) }
    ensures stays { SourcesStay S.Source (fault_in result) sources.old sources.new }
    ensures out_failed { Counted (is_failed_out (fault_in result)) (O.failures out.old)
        (O.failures out.new) }
    ensures formed { OnOk result ((t : Table) × IsWellFormed t
        × Appends (O.taken out.old) (O.taken out.new) (index_file t)) }
    ensures front { OnTrue (is_failed_out (fault_in result))
        ((t : Table) × IsWellFormed t × Sends (O.taken out.old) (O.taken out.new) (index_file t)) }
    ensures kinds { IfErr result (λ fault. OnFalse (is_failed_out (Some fault))
        (IsOfIndexing fault)) }
    ensures silent { IfErr result (λ fault. OnFalse (is_failed_out (Some fault))
        (out.new ≡ out.old)) }
{
    let job = job_of_archives(alloc, Digests::Computed, paths, sources)?;
    // A job without a fault can fail here only if its output does.
    job.finish(out).or(Err(Fault::Out)).and(Ok(()))
}
