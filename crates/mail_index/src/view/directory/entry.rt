//! An entry of a directory, read in place.
ghost use Rattle.std.specs.Prelude.{◌≡◌};

use crate::fields::{u32_at, u64_at};
use crate::places::{ENTRY, POSTING_PLACE_AT, TEXT_LENGTH_AT, TEXT_PLACE_AT};
use crate::view::directory_walk::end_before;
use crate::view::postings::Postings;
use std::marker::Model;

/// The first of these entries, with the texts and the postings of its file.
#[derive(Drop)]
pub(super) struct Entry<'a> {
    pub(super) entries: &'a [u8],
    pub(super) texts: &'a [u8],
    pub(super) postings: &'a [u8],
}

impl<'a> Model for Entry<'a> {
    ghost use Rattle.mail_index.specs.Tables.{Key};
    ghost use Rattle.mail_index.specs.Directory.{read_entry};
    ghost use Rattle.mail_index.specs.KeysRead.{key_of};
    ghost use Rattle.mail_index.specs.Inside.FrontEntries.{IsInFront};

    ghost Value = { Key };

    ghost view = { λ s. key_of (read_entry s.texts.now s.postings.now s.entries.now) };

    ghost invariant = { λ s. IsInFront s.texts.now s.postings.now s.entries.now };
}

impl<'a> Entry<'a> {
    /// The text of its key.
    pub(super) fn text(&self) -> &'a [u8]
        ensures { result.now ≡ self.now.text }
    {
        let place = u64_at(self.entries, TEXT_PLACE_AT) as usize;
        let size = u32_at(self.entries, TEXT_LENGTH_AT) as usize;
        self.texts.split_at(place).1.split_at(size).0
    }

    /// The numbers of the messages that have its key.
    pub(super) fn postings(&self) -> Postings<'a>
        ensures { result ≡ self.now.numbers }
    {
        let place = u64_at(self.entries, POSTING_PLACE_AT);
        let end = end_before(self.entries.split_at(ENTRY).1, self.postings.len() as u64);
        let rest = self.postings.split_at(place as usize).1;
        Postings::of(rest.split_at((end - place) as usize).0)
    }
}
