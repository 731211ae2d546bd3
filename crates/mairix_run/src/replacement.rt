//! A new file in the place of an old one.
ghost use Rattle.std.specs.Prelude.{◌≡◌, ◌++◌, ℕ, List, true, None, Some, codes, map, OnOk};
ghost use Rattle.mairix_run.specs.Inside.RunParts.{ReplacesFile};
ghost use Rattle.mairix_run.specs.ReadFiles.{names_read};
ghost use Rattle.mairix_run.specs.Stops.{ending_of_result};
ghost use Rattle.named_archives.specs.Names.{files_of};
ghost use Rattle.named_files.specs.AddedReports.{AddsReports};

use crate::content::Content;
use crate::file_names::NewNames;
use crate::new_file::{create_file, settle_file};
use crate::read_names::ReadNames;
use crate::run_files::RunFiles;
use crate::stopped::{Stopped, status_or_stopped};
use named_files::Folder;

/// Writes an index or an answer to a new file, gives it a name, and returns the status.
///
/// The file is written under the temporary name. Once it is whole, it takes the place of the old one. If the run fails,
/// the new file is removed, and the old one is as it was. What a killed run left under the temporary name is lost.
///
/// # Errors
///
/// `CannotOpen`, with nothing touched, if either name is refused; if the file may not take the place of what has the
/// name; if another run is making a file under this name, and if the new file can't be made. Otherwise the fault of what
/// is written, of the output or of memory. If only the folder can't be brought to the disk, the output has failed, and
/// the new file is there.
pub(crate) fn replace_file<F: Folder, C: Content<F>>(
    files: &mut RunFiles<F>,
    content: &C,
    read: &ReadNames<'_, F::Name>,
    names: &NewNames<F::Name>,
) -> Result<u8, Stopped>
    requires making { F.making files.old.folder ≡ None }
    requires temporary { F.Name.text names.now.temporary
        ≡ F.Name.text names.now.name ++ codes ".new" }
    requires names { C.names content.now ≡ read.now.archives.now }
    requires writable { C.is_writable content.now }
    ensures run { (bytes : List (List ℕ))
        → files_of F.Name.text (F.holds files.old.folder) read.now.archives.now ≡ map Some bytes
        → F.agree files.new.reports ≡ true → ReplacesFile F.Folder
        (F.agree files.new.reads ≡ true) (C.work content.now bytes)
        (names_read F.Name.text read.now) (F.Name.text names.now.name) files.old.folder
        files.new.folder
        (ending_of_result result) }
    // Whatever is reported: if it is written, the archives were found in the states in which they may be.
    ensures in_state { OnOk result (C.are_found content.now (F.found files.old.reads)
        (F.found files.new.reads)) }
    ensures none { F.making files.new.folder ≡ None }
    ensures reports { AddsReports F.Folder files.old.reports files.new.reports }
    ensures reads { AddsReports F.Folder files.old.reads files.new.reads }
{
    if let Err(stopped) = content.check_old(&files.folder, &mut files.reports, &names.name) {
        return Err(stopped);
    }
    let mut new = match create_file(
        &mut files.folder,
        files.alloc,
        &mut files.reports,
        names,
        read,
    ) {
        Ok(new) => new,
        Err(stopped) => return Err(stopped),
    };
    let written = content.write(&files.folder, &mut files.reads, &mut new);
    status_or_stopped(settle_file(&mut files.folder, files.alloc, new, names, written))
}
