//! The files of a run.
use named_files::Folder;
use std::alloc::Global;

/// The files of a run, and all that was reported of them.
#[derive(Drop)]
pub struct RunFiles<F: Folder> {
    /// The files, by their names.
    pub folder: F,
    /// Where memory comes from.
    pub alloc: Global,
    /// What was reported of all that decides what is done: of what names lead to, of the rcfile, the index, and the
    /// first look at each archive.
    pub reports: F::Reports,
    /// What was reported as archives were read.
    pub reads: F::Reports,
}
