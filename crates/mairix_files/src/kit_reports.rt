//! What the system reported of files, which only clauses read.
ghost use Rattle.std.specs.Prelude.{◌≡◌, ◌&&◌, ◌∷◌, ◌++◌, Bool, true, [], List, Option};
ghost use Rattle.std.specs.Borrow.{ftrue};
ghost use Rattle.std.specs.Coded.{coded_bool, coded_list, coded_option};
ghost use Rattle.mairix_files.specs.FileStateCodes.{file_state_code};
ghost use Rattle.mairix_files.specs.declared.file_state.FileState.{FileState};

use crate::file_state::FileState;
use crate::kit_calls::KitCalls;
use crate::supposed_names::SupposedNames;
use std::alloc::AllocError;
use std::marker::{Model, PhantomData};

/// Whether everything that the system reported of files agrees with what is supposed of them, and the states in which
/// files were found that were given back, the newest first. Neither is in memory: a value has no size, and a program
/// without its reports does the same.
#[derive(Drop)]
pub struct KitReports {
    marker: PhantomData<u8>,
    pub ghost agree: { Bool } by { coded_bool },
    pub ghost found: { List (Option FileState) } by { coded_list (coded_option file_state_code) },
}

impl Model for KitReports {
    ghost also_owns = { λ _. ftrue };
}

impl KitReports {
    /// Returns reports of which there are none yet.
    pub(crate) fn new() -> KitReports
        ensures agree { result.agree ≡ true }
        ensures found { result.found ≡ [] }
    {
        KitReports::of()
    }

    /// Adds a report, which agrees with what is supposed or doesn't. No file is given back.
    pub(crate) fn note(&mut self)
        ghost agrees: { Bool }
        ensures agree { self.new.agree ≡ (self.old.agree && agrees) }
        ensures found { self.new.found ≡ self.old.found }
    {
        *self = self.next(&());
    }

    /// Returns the reports that come after these. A proof says which ones these are, by what is passed here (decision 125
    /// in docs/DECISIONS.md).
    fn next<T>(&self, _noted: &T) -> KitReports
        ghost said: { Bool × List (Option FileState) }
        ensures { (result.agree ≡ said.0) × (result.found ≡ said.1) }
    {
        KitReports::of()
    }

    /// Returns any reports.
    fn of() -> KitReports
        ghost said: { Bool × List (Option FileState) }
        ensures { (result.agree ≡ said.0) × (result.found ≡ said.1) }
    {
        KitReports {
            marker: PhantomData,
        }
    }
}

/// Notes what was reported of a name, as it is compared with what the name is supposed to lead to after the calls.
pub(crate) fn note_told<T>(
    reports: &mut KitReports,
    _calls: &KitCalls,
    _supposed: &SupposedNames,
    _name: &[u8],
    _told: &T,
)
    ghost agrees: { Bool }
    ensures agree { reports.new.agree ≡ (reports.old.agree && agrees) }
    ensures found { reports.new.found ≡ reports.old.found }
{
    reports.note();
}

/// Notes whether two names were reported as apart.
pub(crate) fn note_apart(
    reports: &mut KitReports,
    _supposed: &SupposedNames,
    _name: &[u8],
    _other: &[u8],
    _told: &Result<bool, AllocError>,
)
    ghost agrees: { Bool }
    ensures agree { reports.new.agree ≡ (reports.old.agree && agrees) }
    ensures found { reports.new.found ≡ reports.old.found }
{
    reports.note();
}

/// Notes what was reported of the bytes of a file that is given back, and the state in which it was found.
pub(crate) fn note_file<T>(reports: &mut KitReports, _file: &T, state: &Option<FileState>)
    ghost agrees: { Bool }
    ensures agree { reports.new.agree ≡ (reports.old.agree && agrees) }
    ensures found { reports.new.found ≡ state.now ∷ reports.old.found }
{
    *reports = reports.next(state);
}

/// Notes more reports.
pub(crate) fn note_more(reports: &mut KitReports, more: &KitReports)
    ensures agree { reports.new.agree ≡ (reports.old.agree && more.now.agree) }
    ensures found { reports.new.found ≡ more.now.found ++ reports.old.found }
{
    *reports = reports.next(more);
}
