//! The keys of a kind.
ghost use Rattle.std.specs.Prelude.{◌≡◌, [], ◌∷◌, map, MatchOption};
ghost use Rattle.mail_index.specs.LookUps.{keys_beginning, text_and_numbers};

use crate::kind::Kind;
use crate::view::directory::Directory;
use crate::view::directory::key_run::first_that_lies;
use crate::view::postings::Postings;
use std::cmp::Ordering;
use std::marker::Model;

/// A key of an index, and the messages that have it.
#[derive(Drop)]
pub struct Key<'a> {
    /// A folded word, or an id.
    pub text: &'a [u8],
    /// The numbers of the messages.
    pub postings: Postings<'a>,
}

/// The keys of a run that still come, in the order of their bytes. It takes no memory.
#[derive(Drop)]
pub struct Keys<'a> {
    directory: Directory<'a>,
    next: u32,
    end: u32,
}

impl<'a> Model for Keys<'a> {
    ghost use Rattle.std.specs.Prelude.{ℕ, List, ◌≤◌, length, map};
    ghost use Rattle.mail_index.specs.LookUps.{text_and_numbers};
    ghost use Rattle.mail_index.specs.Inside.KeyRuns.{keys_between};

    ghost Value = { List (List ℕ × List ℕ) };

    ghost view = { λ s. map text_and_numbers (keys_between s.next s.end s.directory) };

    ghost invariant = { λ s. s.end ≤ length s.directory };
}

impl<'a> Keys<'a> {
    /// The keys of a kind whose texts begin with this one.
    pub(crate) fn beginning(directory: Directory<'a>, kind: Kind, text: &[u8]) -> Self
        ensures { result ≡ map text_and_numbers (keys_beginning kind text.now directory.entry) }
    {
        let next = first_that_lies(Ordering::Equal, &directory, kind, text);
        let end = first_that_lies(Ordering::Greater, &directory, kind, text);
        Keys {
            directory,
            next,
            end,
        }
    }

    /// Returns the next key, or None at the end.
    pub fn next(&mut self) -> Option<Key<'a>>
        ensures { MatchOption result ((self.old ≡ []) × (self.new ≡ []))
            (λ key. self.old ≡ (key.text.now, key.postings) ∷ self.new) }
    {
        let number = self.next;
        if number >= self.end {
            return None;
        }
        self.next = number + 1;
        let entry = self.directory.entry_at(number);
        Some(Key {
            text: entry.text(),
            postings: entry.postings(),
        })
    }
}
