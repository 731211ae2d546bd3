//! The keys of a file, read in place.
ghost use Rattle.std.specs.Prelude.{◌≡◌, ◌<◌, length};
ghost use Rattle.mail_index.specs.KeysRead.{IsDirectory, keys_read, key_at};

use crate::places::ENTRY;
use crate::view::directory::entry::Entry;
use std::marker::Model;

pub mod compared_keys;
mod entry;
mod key_run;
pub mod keys;

/// The directory of a file with the texts and the postings of its keys, in order.
///
/// Its entries are private to this module and the modules in it. Other code compares a key with another only through
/// `ComparedKeys`, a step each time, and sees a key's text only through `Keys`.
#[derive(Drop)]
pub struct Directory<'a> {
    entries: &'a [u8],
    texts: &'a [u8],
    postings: &'a [u8],
    count: u32,
}

impl<'a> Model for Directory<'a> {
    ghost use Rattle.std.specs.Prelude.{List};
    ghost use Rattle.mail_index.specs.Tables.{Key};
    ghost use Rattle.mail_index.specs.KeysRead.{keys_read, IsDirectory};

    ghost Value = { List Key };

    ghost view = { λ s. keys_read s.texts.now s.postings.now s.count s.entries.now };

    ghost invariant = { λ s. IsDirectory s.texts.now s.postings.now s.count s.entries.now };
}

impl<'a> Directory<'a> {
    ghost use Rattle.mail_index.specs.LookUps.{AreSorted};

    /// The keys in these sections.
    pub(crate) fn of(entries: &'a [u8], texts: &'a [u8], postings: &'a [u8], count: u32) -> Self
        requires { IsDirectory texts.now postings.now count entries.now }
        ensures { result ≡ keys_read texts.entry.now postings.entry.now count entries.entry.now }
    {
        Directory {
            entries,
            texts,
            postings,
            count,
        }
    }

    /// How many keys there are. They are in order.
    fn len(&self) -> u32
        ensures count { result ≡ length self.now }
        ensures sorted { AreSorted self.now }
    {
        self.count
    }

    /// The entry of the key with this number.
    fn entry_at(&self, number: u32) -> Entry<'a>
        requires { number < length self.now }
        ensures { result ≡ key_at self.now number }
    {
        Entry {
            entries: self.entries.split_at(ENTRY * number as usize).1,
            texts: self.texts,
            postings: self.postings,
        }
    }
}
