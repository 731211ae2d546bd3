//! The archives of an index, one after another.
ghost use Rattle.std.specs.Prelude.{◌≡◌, [], ◌∷◌, MatchOption};
ghost use Rattle.mail_index.specs.Versions.{version_number};
ghost use Rattle.mail_index.specs.Records.{SpellsArchives, read_archives};

use crate::version::Version;
use crate::view::archive::{Archive, after_first_archive, first_archive};
use std::marker::Model;

/// The archives of an index that still come, in order. It takes no memory.
#[derive(Drop)]
pub struct ArchiveList<'a> {
    section: &'a [u8],
    count: u32,
    version: Version,
}

impl<'a> Model for ArchiveList<'a> {
    ghost use Rattle.std.specs.Prelude.{List};
    ghost use Rattle.mail_index.specs.Tables.{Archive};
    ghost use Rattle.mail_index.specs.Versions.{version_number};
    ghost use Rattle.mail_index.specs.Records.{SpellsArchives, read_archives};

    ghost Value = { List Archive };

    ghost view = { λ s. read_archives (version_number s.version) s.count s.section.now };

    ghost invariant = { λ s. SpellsArchives (version_number s.version) s.count s.section.now };
}

impl<'a> ArchiveList<'a> {
    ghost use Rattle.mail_index.specs.Layouts.{archive_of};

    /// The archives of this section, which has `count` archives of this version.
    pub(crate) fn of(section: &'a [u8], count: u32, version: Version) -> Self
        requires { SpellsArchives (version_number version) count section.now }
        ensures { result ≡ read_archives (version_number version) count section.entry.now }
    {
        ArchiveList {
            section,
            count,
            version,
        }
    }

    /// Returns the next archive, or None at the end.
    pub fn next(&mut self) -> Option<Archive<'a>>
        ensures { MatchOption result ((self.old ≡ []) × (self.new ≡ []))
            (λ archive. self.old ≡ archive_of archive ∷ self.new) }
    {
        if self.count == 0 {
            return None;
        }
        let archive = first_archive(self.section, self.count, self.version);
        self.section = after_first_archive(self.section, self.count, self.version);
        self.count -= 1;
        Some(archive)
    }
}
