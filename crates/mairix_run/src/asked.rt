//! What the words and the rcfile of a run say.
ghost use Rattle.std.specs.Prelude.{◌≡◌, ◌++◌, Ok, codes, map, string_bytes};
ghost use Rattle.std.specs.Option.{option_map, ForSome};
ghost use Rattle.mairix_options.specs.CommandLine.{plan as plan_asked};
ghost use Rattle.mairix_options.specs.Rcfile.{rc_of};
ghost use Rattle.mairix_run.specs.NamesUsed.{file_asked};

use crate::file_names::FileNames;
use mail_dates::Moment;
use mairix_options::{Plan, Rc};
use named_files::Folder;

/// What the words and the rcfile of a run say.
#[derive(Drop)]
pub(crate) struct Asked<'a, F: Folder> {
    /// The words after the program's name.
    pub(crate) words: &'a [String],
    /// The plan that the words are.
    pub(crate) plan: &'a Plan,
    /// The rcfile's text.
    pub(crate) text: &'a [u8],
    /// What the rcfile says.
    pub(crate) rc: &'a Rc,
    /// The moment from which ages, and days without a year, are counted.
    pub(crate) now: Moment,
    /// The rcfile's name.
    pub(crate) rcfile: &'a F::Name,
    /// The names of the other files.
    pub(crate) names: &'a FileNames<F::Name>,
    ghost planned: { plan_asked (map string_bytes words.now) ≡ Ok plan.now },
    ghost said: { rc_of text.now ≡ Ok rc.now },
    ghost rcfile_named: { F.Name.text rcfile.now ≡ plan.now.rcfile },
    ghost archives_named: { map F.Name.text names.now.archives.items ≡ rc.now.paths },
    ghost database_named: { F.Name.text names.now.database ≡ rc.now.database },
    ghost file_named: { option_map (λ new. F.Name.text new.name) names.now.file
        ≡ file_asked plan.now rc.now },
    ghost temporary_named: { ForSome names.now.file (λ new.
        F.Name.text new.temporary ≡ F.Name.text new.name ++ codes ".new") },
}
