//! Iterates over the keys of an index while it is built, in order.
ghost use Rattle.std.specs.Prelude.{◌≡◌, ◌-◌, ◌<◌, [], ◌∷◌, length, IfSome, MatchOption};
ghost use Rattle.std.specs.Iterator.{YieldsFirstRef, item_count};
ghost use Rattle.std.specs.List.{AllByRecursion};
ghost use Rattle.mail_index.specs.Inside.KeyMaps.{rows, in_pages, slot_keys, slots_left, numbers_of_slots};

use crate::build::key_entry::KeyEntry;
use crate::build::key_front::Fronted;
use std::marker::Model;

/// The entries of this many keys are fetched together.
const GROUP: usize = 16;

/// The slots that are left of an order in pages.
#[derive(Clone, Copy)]
struct Left<'a> {
    // What is left of the current page.
    page: &'a [Fronted],
    heads: &'a [Fronted],
    pages: &'a [Vec<Fronted>],
}

/// The entries still to come, in the order of their keys. Takes no memory.
#[derive(Drop)]
pub(crate) struct KeysInOrder<'a> {
    entries: &'a [KeyEntry],
    left: Left<'a>,
    // How many of the next entries were fetched. Only time depends on it.
    fetched: usize,
}

impl<'a> Model for KeysInOrder<'a> {
    ghost use Rattle.std.specs.Prelude.{◌≡◌, ◌<◌, List, length};
    ghost use Rattle.std.specs.List.{AllByRecursion};
    ghost use Rattle.mail_index.specs.Tables.{Key};
    ghost use Rattle.mail_index.specs.Inside.KeyMaps.{slot_keys, slots_left, numbers_of_slots};

    ghost Value = { List Key };

    ghost view = { λ s. slot_keys s.entries.now (slots_left s.left) };

    ghost invariant = { λ s. (length s.left.heads.now ≡ length s.left.pages.now)
        × AllByRecursion (λ i. i < length s.entries.now) (numbers_of_slots (slots_left s.left)) };
}

impl<'a> KeysInOrder<'a> {
    /// Returns all entries, from pages with heads between them.
    pub(crate) fn of(
        entries: &'a [KeyEntry],
        heads: &'a [Fronted],
        pages: &'a [Vec<Fronted>],
    ) -> Self
        requires between { length heads.now ≡ length pages.now - 1 }
        requires within { AllByRecursion (λ i. i < length entries.now)
            (numbers_of_slots (in_pages (rows pages.now) heads.now)) }
        ensures { result ≡ slot_keys entries.now (in_pages (rows pages.now) heads.now) }
    {
        let (page, pages) = match pages {
            [] => (&[][..], pages),
            [page, rest @ ..] => (page.as_slice(), rest),
        };
        KeysInOrder {
            entries,
            left: Left { page, heads, pages },
            fetched: 0,
        }
    }
}

impl<'a> Iterator for KeysInOrder<'a> {
    type Item = &'a KeyEntry;

    ghost next_gives = { YieldsFirstRef (λ s. s) };

    ghost remaining = { item_count (λ s. s) };

    // Inlined, so that each loop over keys keeps in registers what is left of them.
    #[inline(always)]
    fn next(&mut self) -> Option<&'a KeyEntry> {
        if self.fetched == 0 {
            self.fetched = fetch(self.entries, self.left.page);
        }
        self.fetched = self.fetched.saturating_sub(1);
        let Some((slot, left)) = next_slot(self.left) else {
            return None;
        };
        self.left = left;
        self.entries.get(slot.number as usize)
    }
}

/// Fetches the entries of the next slots, and returns how many they are. No text is empty, so each is counted. Reading
/// one text needs nothing of another, so all of them come from memory in one delay.
#[inline(never)]
fn fetch(entries: &[KeyEntry], page: &[Fronted]) -> usize {
    let mut count: usize = 0;
    for slot in page.iter().take(GROUP) {
        if let Some(entry) = entries.get(slot.number as usize) {
            count = count.wrapping_add(!entry.text().is_empty() as usize);
        }
    }
    count
}

/// The next slot, and those that are left after it.
fn next_slot(left: Left<'_>) -> Option<(Fronted, Left<'_>)>
    requires { length left.heads.now ≡ length left.pages.now }
    ensures slots { MatchOption result (slots_left left.entry ≡ [])
        (λ next. slots_left left.entry ≡ next.0 ∷ slots_left next.1) }
    ensures between { IfSome result (λ next. length next.1.heads.now ≡ length next.1.pages.now) }
{
    if let Some((slot, page)) = left.page.split_first() {
        return Some((*slot, Left { page, ..left }));
    }
    match (left.heads.split_first(), left.pages.split_first()) {
        (Some((slot, heads)), Some((page, pages))) => Some((*slot, Left { page, heads, pages })),
        _ => None,
    }
}
