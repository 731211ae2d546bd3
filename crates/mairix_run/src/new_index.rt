//! A new index, which replaces an old one.
ghost use Rattle.std.specs.Prelude.{⊤, ◌≡◌, All, map, string_bytes};
ghost use Rattle.index_run.specs.ArchivesIndexed.{mboxes};
ghost use Rattle.mail_index.specs.Tables.{IsPath};
ghost use Rattle.mairix_run.specs.Tasks.Work.{Index};

use crate::content::Content;
use crate::names_index::index_names;
use crate::old_index::check_old_index;
use crate::stopped::Stopped;
use mbox_cutter::Out;
use named_files::Folder;
use run_faults::Fault;
use std::alloc::Global;

/// The index of the archives to which some paths lead.
#[derive(Drop)]
pub struct NewIndex<'a, F: Folder> {
    /// Where memory comes from.
    pub alloc: Global,
    /// The archives' paths.
    pub paths: &'a [String],
    /// Their names.
    pub names: &'a [F::Name],
    ghost same: { map F.Name.text names.now ≡ map string_bytes paths.now },
}

impl<'a, F: Folder> Content<F> for NewIndex<'a, F> {
    ghost names = { λ index. index.names.now };

    ghost is_writable = { λ index. All IsPath (map string_bytes index.paths.now) };

    ghost work = { λ index bytes. Index (mboxes (map string_bytes index.paths.now) bytes) };

    // Each archive may be in any state.
    ghost are_found = { λ _ _ _. ⊤ };

    /// An index takes the place of an index or of an empty file, and of no other.
    fn check_old(
        &self,
        folder: &F,
        reports: &mut F::Reports,
        name: &F::Name,
    ) -> Result<(), Stopped> {
        check_old_index(folder, self.alloc, reports, name)
    }

    fn write<O: Out>(
        &self,
        folder: &F,
        reports: &mut F::Reports,
        out: &mut O,
    ) -> Result<u8, Fault> {
        index_names(folder, reports, self, out)
    }
}
