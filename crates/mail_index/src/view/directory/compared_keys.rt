//! Keys that can only be compared: each comparison is a step.
ghost use Rattle.std.specs.Prelude.{◌≡◌, ◌<◌, length};
ghost use Rattle.mail_index.specs.Steps.{add_steps};
ghost use Rattle.mail_index.specs.KeysRead.{key_at};

use crate::kind::{Kind, compare_keys};
use crate::places::KIND_AT;
use crate::view::directory::Directory;
use crate::view::postings::Postings;
use crate::view::steps::Steps;
use std::cmp::Ordering;

/// The keys of a directory, in order, for a look-up.
///
/// A look-up has them only in this form. It can read a key only by a step on its caller's count, and can't begin another
/// count.
#[derive(Drop)]
pub(crate) struct ComparedKeys<'a> {
    pub(super) directory: Directory<'a>,
}

impl<'a> ComparedKeys<'a> {
    ghost use Rattle.mail_index.specs.LookUps.{lies_to, AreSorted};

    /// The keys of this directory.
    pub(crate) fn of(directory: Directory<'a>) -> Self
        ensures { result.directory ≡ directory.entry }
    {
        ComparedKeys { directory }
    }

    /// How many keys there are. They are in order.
    pub(crate) fn len(&self) -> u32
        ensures count { result ≡ length self.now.directory }
        ensures sorted { AreSorted self.now.directory }
    {
        self.directory.len()
    }

    /// Compares the key with this number with another key: a step.
    pub(crate) fn compare(
        &self,
        number: u32,
        kind: Kind,
        text: &[u8],
        steps: &mut Steps,
    ) -> Ordering
        requires { number < length self.now.directory }
        ensures order { result ≡ lies_to kind text.now (key_at self.now.directory number) }
        ensures steps { steps.new ≡ add_steps steps.old 1 }
    {
        steps.tick();
        let entry = self.directory.entry_at(number);
        compare_keys(entry.entries[KIND_AT], entry.text(), kind.number(), text)
    }

    /// The numbers of the messages that have the key with this number.
    pub(crate) fn postings(&self, number: u32) -> Postings<'a>
        requires { number < length self.now.directory }
        ensures { result ≡ (key_at self.now.directory number).numbers }
    {
        self.directory.entry_at(number).postings()
    }
}
