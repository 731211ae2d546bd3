//! What was reported of files in memory, which only clauses read.
ghost use Rattle.std.specs.Prelude.{◌≡◌, ◌∷◌, ◌++◌, [], List, Option, Some};
ghost use Rattle.std.specs.Borrow.{ftrue};
ghost use Rattle.std.specs.Coded.{coded_list, coded_option};
ghost use base.Stored.{coded_unit};

use crate::memory_folder::memory_file::MemoryFile;
use std::marker::{Model, PhantomData};

/// What was reported of files in memory. All of it is so. The states of the files that were given back aren't in memory: a
/// value has no size, and a program does the same without them.
#[derive(Drop)]
pub struct MemoryReports {
    marker: PhantomData<u8>,
    pub ghost found: { List (Option (Unit {0})) } by { coded_list (coded_option coded_unit) },
}

impl Model for MemoryReports {
    ghost also_owns = { λ _. ftrue };
}

impl MemoryReports {
    /// Returns reports of no file.
    pub(crate) fn new() -> MemoryReports
        ensures { result.found ≡ [] }
    {
        MemoryReports::of()
    }

    /// Notes a file that is given back. It was found in the one state in which each file is.
    pub(crate) fn note(&mut self, file: &MemoryFile)
        ensures { self.new.found ≡ Some tt ∷ self.old.found }
    {
        *self = self.next(file);
    }

    /// Adds more reports.
    pub(crate) fn add(&mut self, more: &MemoryReports)
        ensures { self.new.found ≡ more.now.found ++ self.old.found }
    {
        *self = self.next(more);
    }

    /// Returns the reports that come after these. A proof says which ones these are, by what is passed here.
    fn next<T>(&self, _more: &T) -> MemoryReports
        ghost said: { List (Option (Unit {0})) }
        ensures { result.found ≡ said }
    {
        MemoryReports::of()
    }

    /// Returns any reports.
    fn of() -> MemoryReports
        ghost said: { List (Option (Unit {0})) }
        ensures { result.found ≡ said }
    {
        MemoryReports {
            marker: PhantomData,
        }
    }
}
