//! The order of the keys of an index while it is built.
ghost use Rattle.std.specs.Prelude.{◌≡◌, ◌-◌, ◌<◌, ◌≤◌, ℕ, length, OnOk, OnErr, IfOk, IfErr, IsPermutation, IsSorted};
ghost use Rattle.std.specs.List.{AllByRecursion, insert};
ghost use Rattle.std.specs.Vec.{vec_capacity};
ghost use Rattle.mail_index.specs.Inside.KeyFronts.{IsFronted};
ghost use Rattle.mail_index.specs.Inside.KeyMaps.{rows, row_at, in_pages, slots_in, numbers_in, slot_for, place_in, IsAmong, IsEntryOf, IsPartOf, IsPlaceIn, IsPlaceFor, AreDistinct, AreInStep, AreNumbered, slot_cmp};
ghost use Rattle.mail_index.specs.Kinds.{kind_number};
ghost use Rattle.mail_index.specs.KeysRead.{key_at};

use crate::build::key_entry::KeyEntry;
use crate::build::key_front::{Fronted, front_of_key};
use crate::build::key_search::search;
use crate::kind::{Kind, compare_keys};
use std::alloc::{AllocError, Global};
use std::cmp::Ordering;

/// A page is split in two once it has this many slots, and also one slot for each `PAGES_FOR_A_SLOT` pages.
const PAGE: usize = 48;

/// The number of pages for which each page gets one more slot.
const PAGES_FOR_A_SLOT: usize = 20;

/// The numbers of entries in the order of their keys, each with the key's front. The slots are in pages, with one more
/// slot between each page and the next: the head of the next. So two binary searches find a key, and inserting one
/// moves the slots of one page. With very many keys, both the number of pages and the slots of a page grow with the
/// square root of the number of keys. So does what an insertion moves, in whatever order the keys come.
#[derive(Drop)]
pub(crate) struct KeyOrder {
    pub heads: Vec<Fronted>,
    pub pages: Vec<Vec<Fronted>>,
}

/// A place in the order where a key can be inserted.
#[derive(Clone, Copy)]
pub(crate) struct Place {
    pub page: usize,
    /// How many of the page's slots come before it.
    pub at: usize,
    /// The front of the key to insert.
    pub front: u64,
}

impl KeyOrder {
    /// Makes the first page, if there is none.
    pub(crate) fn begin(&mut self, alloc: Global) -> Result<(), AllocError>
        requires between { length self.old.heads.items ≡ length self.old.pages.items - 1 }
        ensures page { OnOk result (0 < length self.new.pages.items) }
        ensures between { length self.new.heads.items ≡ length self.new.pages.items - 1 }
        ensures same { slots_in self.new ≡ slots_in self.old }
    {
        if self.pages.is_empty() {
            self.pages.push(Vec::new(alloc))?;
        }
        Ok(())
    }

    /// Returns the number of this key's entry; if none is it, the place for it.
    pub(crate) fn find(&self, entries: &[KeyEntry], kind: Kind, text: &[u8]) -> Result<u32, Place>
        requires page { 0 < length self.now.pages.items }
        requires between { length self.now.heads.items ≡ length self.now.pages.items - 1 }
        requires fronted { AllByRecursion (IsFronted entries.now) (slots_in self.now) }
        ensures found { IfOk result (IsEntryOf kind text.now entries.now) }
        ensures among { IfOk result (λ number. IsAmong number (numbers_in self.now)) }
        ensures place { IfErr result (IsPlaceFor kind text.now entries.now self.now) }
    {
        let front = front_of_key(kind, text);
        let page = match search(self.heads.as_slice(), entries, front, kind, text) {
            Ok(number) => return Ok(number),
            Err(page) => page,
        };
        match search(self.pages[page].as_slice(), entries, front, kind, text) {
            Ok(number) => Ok(number),
            Err(at) => Err(Place { page, at, front }),
        }
    }

    /// Inserts the number of an entry, with the front of its place. If memory runs out, the order is as before.
    pub(crate) fn insert(
        &mut self,
        alloc: Global,
        place: Place,
        number: u32,
    ) -> Result<(), AllocError>
        requires between { length self.old.heads.items ≡ length self.old.pages.items - 1 }
        requires place { IsPlaceIn self.old.pages.items place }
        ensures between { length self.new.heads.items ≡ length self.new.pages.items - 1 }
        ensures ok { OnOk result (slots_in self.new
            ≡ insert (slots_in self.old) (place_in self.old place) (slot_for number place)) }
        ensures err { OnErr result (slots_in self.new ≡ slots_in self.old) }
    {
        let slot = Fronted {
            number,
            front: place.front,
        };
        self.pages[place.page].insert(place.at, slot)?;
        let length = self.pages[place.page].len();
        if length >= PAGE && length >= self.pages.len() / PAGES_FOR_A_SLOT {
            split(
                alloc,
                &mut self.heads,
                &mut self.pages,
                place.page,
                length / 2,
            );
        }
        Ok(())
    }
}

/// Splits a page in two, the first of which has this length. Without memory for that, the page stays as it is.
fn split(
    alloc: Global,
    heads: &mut Vec<Fronted>,
    pages: &mut Vec<Vec<Fronted>>,
    page: usize,
    half: usize,
)
    requires between { length heads.old.items ≡ length pages.old.items - 1 }
    requires page { page < length pages.old.items }
    requires half { half < length (row_at pages.old.items page) }
    ensures between { length heads.new.items ≡ length pages.new.items - 1 }
    ensures same { in_pages (rows pages.new.items) heads.new.items
        ≡ in_pages (rows pages.old.items) heads.old.items }
{
    if heads.reserve(1).is_err() {
        return;
    }
    let row = pages[page].as_slice();
    let head = row[half];
    let Ok(rest) = Vec::from_slice(alloc, &row[half + 1..]) else {
        return;
    };
    if pages.insert(page + 1, rest).is_ok() {
        let _inserted = heads.insert(page, head);
        pages[page].truncate(half);
    }
}

/// Puts all entries in order. If memory runs out, the order is as before.
///
/// The slots are written over those of the first page, so that there are never two orders at a time.
pub(crate) fn put_anew(
    alloc: Global,
    entries: &[KeyEntry],
    order: &mut KeyOrder,
) -> Result<(), AllocError>
    requires fits { length entries.now ≤ u32.MAX }
    requires distinct { AreDistinct entries.now }
    requires step { AreInStep entries.now order.old }
    ensures step { AreInStep entries.now order.new }
    ensures part { IsPartOf (numbers_in order.old) (numbers_in order.new) }
    ensures all { OnOk result
        ((i : ℕ) → i < length entries.now → IsAmong i (numbers_in order.new)) }
{
    order.begin(alloc)?;
    make_room(&mut order.pages[0], entries.len())?;
    order.heads.clear();
    order.pages.truncate(1);
    let page = &mut order.pages[0];
    write_slots(page, entries);
    sort_slots(page, entries);
    Ok(())
}

/// Makes a page large enough for this many slots.
fn make_room(page: &mut Vec<Fronted>, count: usize) -> Result<(), AllocError>
    ensures same { page.new.items ≡ page.old.items }
    ensures room { OnOk result (count ≤ vec_capacity page.new) }
{
    page.reserve_exact(count.saturating_sub(page.len()))
}

/// Writes the slots of all entries over those of a page, which is large enough.
fn write_slots(slots: &mut Vec<Fronted>, entries: &[KeyEntry])
    requires fits { length entries.now ≤ u32.MAX }
    requires room { length entries.now ≤ vec_capacity slots.old }
    ensures long { length slots.new.items ≡ length entries.now }
    ensures numbers { AreNumbered slots.new.items }
    ensures fronted { AllByRecursion (IsFronted entries.now) slots.new.items }
{
    slots.clear();
    for (number, entry) in entries.iter().enumerate() {
        slots.push_reserved(Fronted {
            number: number as u32,
            front: front_of_key(entry.kind(), entry.text()),
        });
    }
}

/// Sorts slots by their keys.
fn sort_slots(slots: &mut Vec<Fronted>, entries: &[KeyEntry])
    ensures permutation { IsPermutation slots.old.items slots.new.items }
    ensures sorted { IsSorted (slot_cmp entries.now) slots.new.items }
{
    slots.sort_unstable_by(|one, other| compare_slots(entries, *one, *other));
}

/// Compares the keys of two slots. Reads the entries only if the fronts are equal.
fn compare_slots(entries: &[KeyEntry], one: Fronted, other: Fronted) -> Ordering
    ensures { result ≡ slot_cmp entries.now one other }
{
    match one.front.cmp(&other.front) {
        Ordering::Equal => {
            let (kind, text) = number_and_text_of(entries, one.number);
            let (other_kind, other_text) = number_and_text_of(entries, other.number);
            compare_keys(kind, text, other_kind, other_text)
        }
        unequal => unequal,
    }
}

/// The number of the kind of an entry's key, and the key's text.
fn number_and_text_of(entries: &[KeyEntry], number: u32) -> (u8, &[u8])
    ensures number { result.0 ≡ kind_number (key_at entries.now number).kind }
    ensures text { result.1.now ≡ (key_at entries.now number).text }
{
    match entries.get(number as usize) {
        Some(entry) => entry.number_and_text(),
        // No slot has such a number.
        None => (Kind::OwnId.number(), &[]),
    }
}
