//! Checks the directory of a file against the texts and the postings that its entries name.
ghost use Rattle.std.specs.Prelude.{◌≡◌, ◌↔◌, ◌+◌, ◌-◌, ◌*◌, ◌≤◌, ◌<◌, [], length, MatchOption, IsTrue};
ghost use Rattle.mail_index.specs.Places.{entry_size};
ghost use Rattle.mail_index.specs.Versions.{version_number};
ghost use Rattle.mail_index.specs.Directory.{is_entry as is_entry_of, end_before as end_before_of, AreEntries};
ghost use Rattle.mail_index.specs.Inside.Walks.{MayStandAt, IsAfterEntry};

use crate::fields::{are_zeros_at, u32_at, u64_at};
use crate::kind::compare_keys;
use crate::places::{ENTRY, KIND_AT, POSTING_PLACE_AT, TEXT_LENGTH_AT, TEXT_PLACE_AT};
use crate::version::Version;

/// Whether an entry begins with the number of a kind that the version has, and three zeros.
#[tactic(auto, unfolding(crate::specs::Directory::is_entry))]
fn is_entry(entry: &[u8], version: Version) -> bool
    requires { entry_size ≤ length entry.now }
    ensures { result ≡ is_entry_of (version_number version) entry.now }
{
    let number = entry[KIND_AT];
    1 <= number && number <= version.greatest_kind() && are_zeros_at(entry, KIND_AT + 1)
}

/// Where the postings of the entry before these entries end: where those of the first of these begin, or at the end of
/// all if there is no entry.
pub(crate) fn end_before(entries: &[u8], total: u64) -> u64
    requires { 0 < length entries.now → entry_size ≤ length entries.now }
    ensures { result ≡ end_before_of entries.now total }
{
    if entries.is_empty() {
        total
    } else {
        u64_at(entries, POSTING_PLACE_AT)
    }
}

/// The state of the walk: where the texts and the postings of the next entry begin, and the key of the last entry.
/// Before the first entry that key has kind 0.
#[derive(Clone, Copy)]
struct EntryPlace<'a> {
    text_place: u64,
    place: u64,
    number: u8,
    text: &'a [u8],
}

/// The place after the first entry, or None if this entry may not follow the last one. There are `total` bytes of
/// postings.
fn after_entry<'a>(
    place: EntryPlace<'a>,
    entries: &[u8],
    texts: &'a [u8],
    total: u64,
    version: Version,
) -> Option<EntryPlace<'a>>
    requires long { entry_size ≤ length entries.now }
    requires whole { entry_size < length entries.now → 2 * entry_size ≤ length entries.now }
    requires bound { place.text_place ≤ length texts.now }
    ensures { MatchOption result
        (¬ MayStandAt (version_number version) texts.entry.now total place.entry entries.now)
        (λ p. MayStandAt (version_number version) texts.entry.now total place.entry entries.now
        × IsAfterEntry texts.entry.now total place.entry entries.now p) }
{
    let text_length = u32_at(entries, TEXT_LENGTH_AT) as usize;
    let end = end_before(entries.split_at(ENTRY).1, total);
    if !is_entry(entries, version)
        || u64_at(entries, TEXT_PLACE_AT) != place.text_place
        || u64_at(entries, POSTING_PLACE_AT) != place.place
        || text_length == 0
        || place.place >= end
        || end > total
    {
        return None;
    }
    let rest = texts.split_at(place.text_place as usize).1;
    let Some((text, _)) = rest.split_at_checked(text_length) else {
        return None;
    };
    let number = entries[KIND_AT];
    if compare_keys(place.number, place.text, number, text).is_ge() {
        return None;
    }
    Some(EntryPlace {
        text_place: place.text_place + text_length as u64,
        place: end,
        number,
        text,
    })
}

/// Whether the directory consists of this many entries, in order, with kinds of the version, texts that fill the
/// section of texts, and postings that fill the section of postings. That section has `total` bytes.
pub(crate) fn are_entries(
    directory: &[u8],
    count: u32,
    texts: &[u8],
    total: u64,
    version: Version,
) -> bool
    requires { length directory.now ≡ entry_size * count }
    ensures { IsTrue result
        ↔ AreEntries (version_number version) texts.now total 0 0 0 [] count directory.now }
{
    let mut rest = directory;
    let mut place = EntryPlace {
        text_place: 0,
        place: 0,
        number: 0,
        text: &[],
    };
    for number in 0..count {
        place = match after_entry(place, rest, texts, total, version) {
            Some(after) => after,
            None => return false,
        };
        rest = rest.split_at(ENTRY).1;
    }
    place.text_place == texts.len() as u64 && place.place == total
}
