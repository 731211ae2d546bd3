//! Finds the archives of the messages of an index.
ghost use Rattle.std.specs.Prelude.{◌≡◌, ◌+◌, ◌-◌, ◌<◌, length};
ghost use Rattle.mail_index.specs.Tables.{IsWellFormed};
ghost use Rattle.mail_answer.specs.Shapes.{path_at};

use mail_index::{ArchiveList, IndexView};
use std::marker::Model;

/// Finds the archives of messages. For messages in their order it goes through the archives once.
#[derive(Drop)]
pub(crate) struct Places<'a> {
    index: IndexView<'a>,
    // The archives that weren't passed, the number of those that were, and the path of the last of these.
    rest: ArchiveList<'a>,
    passed: u32,
    path: &'a str,
}

impl<'a> Model for Places<'a> {
    ghost use Rattle.mail_answer.specs.Inside.PassedArchives.{Passed, ArePassed};

    ghost Value = { Passed };

    ghost view = { λ s. record { table = s.index; passed = s.passed } };

    ghost invariant = { λ s. ArePassed s.index.archives s.passed s.rest s.path.now };
}

impl<'a> Places<'a> {
    /// Returns the place before the first archive.
    pub(crate) fn of(index: &IndexView<'a>) -> Self
        ensures before { result ≡ record { table = index.now; passed = 0 } }
        ensures formed { IsWellFormed index.now }
    {
        let index = index.again();
        let rest = index.archives();
        Places {
            index,
            rest,
            passed: 0,
            path: "",
        }
    }

    /// The index.
    pub(crate) fn index(&self) -> &IndexView<'a>
        ensures { result.now ≡ self.now.table }
    {
        &self.index
    }

    /// Passes the next archive.
    fn pass(&mut self)
        requires { self.old.passed < length self.old.table.archives }
        ensures { self.new ≡ record self.old { passed = self.old.passed + 1 } }
    {
        let Some(archive) = self.rest.next() else {
            unreachable!();
        };
        self.path = archive.path;
        self.passed += 1;
    }

    /// Returns the path of the archive with this number. Goes on from the archive that the last call returned, and
    /// begins again only for an archive before that one.
    pub(crate) fn path_of(&mut self, archive: u32) -> &'a str
        requires { archive < length self.old.table.archives }
        ensures path { result.now ≡ path_at self.old.table.archives archive }
        ensures same { self.new.table ≡ self.old.table }
    {
        if archive < self.passed.saturating_sub(1) {
            self.rest = self.index.archives();
            self.passed = 0;
        }
        'passing: while self.passed <= archive {
            self.pass();
        }
        self.path
    }
}
