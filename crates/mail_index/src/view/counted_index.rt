//! An index whose look-ups are counted by their caller.
ghost use Rattle.std.specs.Prelude.{◌≡◌, length, map};
ghost use Rattle.mail_index.specs.Steps.{add_steps};
ghost use Rattle.mail_index.specs.Tables.{IsWellFormed};
ghost use Rattle.mail_index.specs.LookUps.{numbers_at, comparisons, TakesDigits, keys_of, keys_beginning, text_and_numbers};

use crate::kind::Kind;
use crate::view::directory::keys::Keys;
use crate::view::index_view::IndexView;
use crate::view::postings::Postings;
use crate::view::records::Records;
use crate::view::steps::Steps;
use std::marker::Model;

/// An index whose look-ups are counted by their caller.
///
/// It doesn't give the view that a new count needs. So code that has the index only in this form has no count but that
/// of its caller (decision 75 in docs/DECISIONS.md).
#[derive(Drop)]
pub struct CountedIndex<'a> {
    index: IndexView<'a>,
}

impl<'a> Model for CountedIndex<'a> {
    ghost use Rattle.mail_index.specs.Tables.{Table};

    ghost Value = { Table };

    ghost view = { λ s. s.index };
}

impl<'a> CountedIndex<'a> {
    /// The index of this view. Takes no memory.
    pub fn of(index: &IndexView<'a>) -> Self
        ensures { result ≡ index.now }
    {
        CountedIndex {
            index: index.again(),
        }
    }

    /// How many messages there are. The table is well-formed, as that of each view.
    pub fn message_count(&self) -> u32
        ensures count { result ≡ length self.now.messages }
        ensures formed { IsWellFormed self.now }
    {
        self.index.again().message_count()
    }

    /// The records of all messages.
    pub fn records(&self) -> Records<'a>
        ensures { result ≡ self.now.messages }
    {
        self.index.records()
    }

    /// The numbers of the messages that have the key, as `IndexView::look_up` returns them.
    pub fn look_up(&self, kind: Kind, text: &[u8], steps: &mut Steps) -> Postings<'a>
        ensures numbers { result ≡ numbers_at kind text.now self.now.keys }
        ensures exact { steps.new ≡ add_steps steps.old (comparisons kind text.now self.now.keys) }
        ensures steps { TakesDigits (length self.now.keys) steps.old steps.new }
    {
        self.index.look_up(kind, text, steps)
    }

    /// The keys of a kind, as `IndexView::keys` returns them.
    pub fn keys(&self, kind: Kind) -> Keys<'a>
        ensures { result ≡ map text_and_numbers (keys_of kind self.now.keys) }
    {
        self.index.keys(kind)
    }

    /// The keys of a kind whose texts begin with this one, as `IndexView::keys_beginning` returns them.
    pub fn keys_beginning(&self, kind: Kind, text: &[u8]) -> Keys<'a>
        ensures { result ≡ map text_and_numbers (keys_beginning kind text.now self.now.keys) }
    {
        self.index.keys_beginning(kind, text)
    }
}
