//! The index of the archives to which some names lead.
ghost use Rattle.std.specs.Prelude.{◌≡◌, ◌<◌, ◌^◌, ◌-◌, true, map, All};
ghost use Rattle.std.specs.String.{string_bytes};
ghost use Rattle.mail_index.specs.Tables.{IsPath};
ghost use Rattle.mairix_run.specs.Indexed.{IndexesFiles};
ghost use Rattle.named_archives.specs.Names.{files_of};
ghost use Rattle.named_archives.specs.Progress.{CannotRead};
ghost use Rattle.named_files.specs.AddedReports.{AddsReports};

use crate::new_index::NewIndex;
use crate::unread::report_lack_of_memory;
use index_run::send_index;
use mbox_cutter::Out;
use named_archives::{lack_memory, report_all, sources_of};
use named_files::Folder;
use run_faults::{DONE, Fault};

/// Indexes the archives to which the names lead, sends the index file to the output, and returns the status 0. Each
/// file is opened when it is read, and may be in any state. What was reported of the files is added to the reports.
///
/// # Errors
///
/// The first faulty archive, too many archives, messages or keys, or lack of memory: then nothing is sent. Without
/// memory for the sources no file is opened. If memory runs out as an archive is opened, that isn't a failed read.
/// `Out` if the output fails: then only a beginning of the file is sent.
pub fn index_names<F: Folder, O: Out>(
    folder: &F,
    reports: &mut F::Reports,
    index: &NewIndex<'_, F>,
    out: &mut O,
) -> Result<u8, Fault>
    requires paths { All IsPath (map string_bytes index.now.paths.now) }
    requires out { O.failures out.old < 2 ^ 64 - 1 }
    // If each name leads to a file, and all reports agree: the index is that of the bytes of these files, or the fault
    // is theirs. A failed read of an archive that is there has a cause.
    ensures indexed { IndexesFiles O.Out (map string_bytes index.now.paths.now)
        (files_of F.Name.text (F.holds folder.now) index.now.names.now) (F.agree reports.new ≡ true)
        (CannotRead F.can_refuse F.reads_can_fail) result out.old out.new }
    ensures reports { AddsReports F.Folder reports.old reports.new }
{
    let Ok(mut sources) = sources_of(folder, index.alloc, index.names, &[]) else {
        return Err(Fault::Memory);
    };
    let sent = send_index(index.alloc, index.paths, sources.as_mut_slice(), out);
    let lacks_memory = lack_memory(sources.as_slice());
    report_all(sources, reports);
    report_lack_of_memory(sent.and(Ok(DONE)), lacks_memory)
}
