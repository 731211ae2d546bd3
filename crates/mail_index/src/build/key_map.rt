//! The keys of an index while it is built.
ghost use Rattle.std.specs.Prelude.{◌≡◌, ◌+◌, ◌<◌, ◌≤◌, ℕ, [], ◌∷◌, ◌++◌, true, length, set, IfSome, IfOk, IfErr, IsTrue, OnOk, OnErr};
ghost use Rattle.mail_index.specs.Builders.{with_pair};
ghost use Rattle.mail_index.specs.Inside.KeyMaps.{numbers_in, new_key, with_added, with_one, IsAmong, IsEntryOf, IsPartOf, AreInStep, AreDistinct, IsPlaceFor, IsWantOf};
ghost use Rattle.mail_index.specs.Inside.KeyTables.{AreReachable, IsSpot, hash_of};
ghost use Rattle.mail_index.specs.KeysRead.{key_at};
ghost use Rattle.mail_index.specs.Limits.{four_byte_limit};

use crate::build::build_fault::BuildFault;
use crate::build::key_entry::KeyEntry;
use crate::build::key_hash::KeyHash;
use crate::build::key_order::{KeyOrder, Place, put_anew};
use crate::build::key_table::{Found, KeyTable};
use crate::build::keys_in_order::KeysInOrder;
use crate::build::prefetched::Prefetched;
use crate::kind::Kind;
use std::alloc::{AllocError, Global};
use std::marker::Model;

/// If fewer than one key of this many is new since all were put in order, each new one is put at its place.
const OF_WHICH_ONE_IS_NEW: usize = 4;

/// The keys so far, each with the numbers of its messages.
///
/// The entries of the keys are kept in the order in which they came. A table finds the entry of a key, or that the key
/// is new. The keys are put in order only when an archive ends.
#[derive(Drop)]
pub(crate) struct KeyMap {
    entries: Vec<KeyEntry>,
    table: KeyTable,
    // The order of the first entries, and of those that have no slot in the table.
    order: KeyOrder,
    // How many entries were put in order when the last archive ended.
    sorted: usize,
}

impl Model for KeyMap {
    ghost use Rattle.std.specs.Prelude.{nat_eq, length};
    ghost use Rattle.mail_index.specs.Inside.KeyMaps.{in_key_order, KeyState};
    ghost use Rattle.mail_index.specs.Inside.KeyTables.{IsKeyMap};

    ghost Value = { KeyState };

    ghost view = { λ s. record {
      keys = in_key_order s.entries.items;
      sorted = nat_eq s.sorted (length s.entries.items);
    } };

    ghost invariant = { λ s. IsKeyMap s.entries.items s.table s.order s.sorted };
}

impl KeyMap {
    /// Returns a map without keys. Takes no memory.
    pub(crate) fn new(alloc: Global) -> Self
        ensures keys { result.keys ≡ [] }
        ensures sorted { result.sorted ≡ true }
    {
        KeyMap {
            entries: Vec::new(alloc),
            table: KeyTable::new(alloc),
            order: KeyOrder {
                heads: Vec::new(alloc),
                pages: Vec::new(alloc),
            },
            sorted: 0,
        }
    }

    /// The number of keys.
    pub(crate) fn len(&self) -> usize
        ensures { result ≡ length self.now.keys }
    {
        self.entries.len()
    }

    /// Guesses where the keys of these places are.
    pub(crate) fn prefetch(&self, places: &mut [Prefetched]) {
        // Two loops: within each of them no read needs what another has read, so the processor reads from memory for
        // all of them at once.
        for place in places.iter_mut() {
            place.number = self.table.guess(place.hash);
        }
        for place in places.iter_mut() {
            place.text_length = match self.entries.get(place.number as usize) {
                Some(entry) => entry.text().len() as u32,
                None => 0,
            };
        }
    }

    /// Whether a quick look finds that a key has a message's number already. It reads only one of the latest keys.
    #[inline(always)]
    pub(crate) fn has_recent(&self, kind: Kind, text: &[u8], number: u32, place: Prefetched) -> bool
        ensures { IsTrue result → with_pair kind text.now number self.now.keys ≡ self.now.keys }
    {
        match self.entries.get(self.table.recent(place.hash) as usize) {
            Some(entry) => entry.has(kind, text, number),
            None => false,
        }
    }

    /// Adds a message's number to a key's numbers, unless it is there, and adds the key if it is new. Fails if there
    /// would be too many keys or if memory runs out.
    pub(crate) fn add(
        &mut self,
        alloc: Global,
        kind: Kind,
        text: &[u8],
        number: u32,
        most: u32,
        place: Prefetched,
    ) -> Result<(), BuildFault>
        requires number { number < u32.MAX }
        requires short { length text.now < four_byte_limit }
        requires fits { length self.old.keys ≤ most }
        ensures ok { OnOk result (self.new.keys ≡ with_pair kind text.now number self.old.keys) }
        ensures err { OnErr result (self.new.keys ≡ self.old.keys) }
        ensures fits { length self.new.keys ≤ most }
        ensures fault { IfErr result
            (IsWantOf most (length (with_pair kind text.now number self.old.keys))) }
    {
        let key = Added {
            kind,
            text,
            number,
            most,
        };
        // A right guess needs neither the table nor the order.
        if let Some(entry) = guessed(self.entries.as_slice(), place, kind, text) {
            self.table.note_recent(place.hash, entry);
            return add_number(&mut self.entries, entry, number);
        }
        self.add_unguessed(alloc, key)
    }

    /// Does what `add` does, without a guess. A function of its own, so that a right guess costs no more than its own
    /// steps.
    #[inline(never)]
    fn add_unguessed(&mut self, alloc: Global, key: Added<'_>) -> Result<(), BuildFault>
        requires number { key.number < u32.MAX }
        requires short { length key.text.now < four_byte_limit }
        requires fits { length self.old.keys ≤ key.most }
        ensures ok { OnOk result (self.new.keys ≡ with_added key.entry self.old.keys) }
        ensures err { OnErr result (self.new.keys ≡ self.old.keys) }
        ensures fits { length self.new.keys ≤ key.entry.most }
        ensures fault { IfErr result
            (IsWantOf key.entry.most (length (with_added key.entry self.old.keys))) }
    {
        prepare(
            alloc,
            self.entries.as_slice(),
            &mut self.table,
            &mut self.order,
        )?;
        // The hash of a guess may be that of another key.
        let hash = KeyHash::of(key.kind, key.text);
        match spot_of(
            self.entries.as_slice(),
            &self.table,
            &self.order,
            hash,
            &key,
        ) {
            Spot::AtEntry(entry) => {
                self.table.note_recent(hash, entry);
                add_number(&mut self.entries, entry, key.number)
            }
            Spot::InSlot(slot) => {
                let number = push(alloc, &mut self.entries, &key)?;
                self.table.put(slot, number);
                self.table.note_recent(hash, number);
                Ok(())
            }
            Spot::InOrder(place) => insert(alloc, &mut self.entries, &mut self.order, place, &key),
        }
    }

    /// Puts all keys in order.
    pub(crate) fn sort(&mut self, alloc: Global) -> Result<(), AllocError>
        requires fits { length self.old.keys ≤ u32.MAX }
        ensures keys { self.new.keys ≡ self.old.keys }
        ensures sorted { OnOk result (self.new.sorted ≡ true) }
    {
        put_all_in_order(alloc, self.entries.as_slice(), &mut self.order, self.sorted)?;
        self.sorted = self.entries.len();
        Ok(())
    }

    /// The entries in the order of the keys, which must have been put in order.
    pub(crate) fn in_order(&self) -> KeysInOrder<'_>
        requires { self.now.sorted ≡ true }
        ensures { result ≡ self.now.keys }
    {
        KeysInOrder::of(
            self.entries.as_slice(),
            self.order.heads.as_slice(),
            self.order.pages.as_slice(),
        )
    }
}

/// A key to add, the number of a message that has it, and the most keys that there may be.
#[derive(Clone, Copy)]
struct Added<'a> {
    kind: Kind,
    text: &'a [u8],
    number: u32,
    most: u32,
}

/// Where a key is, or where a new one belongs.
#[derive(Clone, Copy)]
enum Spot {
    AtEntry(u32),
    /// A slot of the table.
    InSlot(usize),
    /// A place in the order.
    InOrder(Place),
}

/// Finds where a key is, or where it belongs.
fn spot_of(
    entries: &[KeyEntry],
    table: &KeyTable,
    order: &KeyOrder,
    hash: KeyHash,
    key: &Added<'_>,
) -> Spot
    requires hash { hash.bits ≡ hash_of key.now.kind key.now.text.now }
    requires kept { AreReachable entries.now table.now order.now (length entries.now) }
    requires step { AreInStep entries.now order.now }
    requires page { 0 < length order.now.pages.items }
    ensures { IsSpot key.now.kind key.now.text.now entries.now table.now order.now hash.bits
        result }
{
    match table.find(entries, hash, key.kind, key.text) {
        Found::Entry(entry) => Spot::AtEntry(entry),
        Found::Vacant(slot) => Spot::InSlot(slot),
        Found::Full => match order.find(entries, key.kind, key.text) {
            Ok(entry) => Spot::AtEntry(entry),
            Err(place) => Spot::InOrder(place),
        },
    }
}

/// Makes room for one more key: a first page of the order, and a larger table if this one is small.
fn prepare(
    alloc: Global,
    entries: &[KeyEntry],
    table: &mut KeyTable,
    order: &mut KeyOrder,
) -> Result<(), AllocError>
    requires fits { length entries.now ≤ u32.MAX }
    requires distinct { AreDistinct entries.now }
    requires step { AreInStep entries.now order.old }
    requires kept { AreReachable entries.now table.old order.old (length entries.now) }
    ensures step { AreInStep entries.now order.new }
    ensures part { IsPartOf (numbers_in order.old) (numbers_in order.new) }
    ensures kept { AreReachable entries.now table.new order.new (length entries.now) }
    ensures page { OnOk result (0 < length order.new.pages.items) }
{
    if table.is_small_for(entries.len()) {
        grow(alloc, entries, table, order)?;
    }
    order.begin(alloc)
}

/// The number of the key's entry, if the guess was right.
fn guessed(entries: &[KeyEntry], place: Prefetched, kind: Kind, text: &[u8]) -> Option<u32>
    ensures { IfSome result (IsEntryOf kind text.now entries.now) }
{
    // Mostly the length alone decides that it is another key.
    if place.text_length as usize != text.len() {
        return None;
    }
    let entry = entries.get(place.number as usize)?;
    entry.is_key(kind, text).then_some(place.number)
}

/// Adds a message's number to the key of an entry.
fn add_number(entries: &mut Vec<KeyEntry>, entry: u32, number: u32) -> Result<(), BuildFault>
    requires number { number < u32.MAX }
    requires within { entry < length entries.old.items }
    ensures ok { OnOk result (entries.new.items ≡ set entries.old.items entry
        (with_one (key_at entries.old.items entry) number)) }
    ensures err { OnErr result (entries.new.items ≡ entries.old.items) }
    ensures fault { IfErr result (λ fault. fault ≡ BuildFault.OutOfMemory) }
{
    entries[entry as usize].push(number)?;
    Ok(())
}

/// Appends the entry of a new key, and returns its number.
fn push(alloc: Global, entries: &mut Vec<KeyEntry>, key: &Added<'_>) -> Result<u32, BuildFault>
    requires number { key.now.number < u32.MAX }
    requires short { length key.now.text.now < four_byte_limit }
    requires fits { length entries.old.items ≤ key.now.most }
    ensures ok { OnOk result (entries.new.items
        ≡ entries.old.items ++ new_key key.now.kind key.now.text.now key.now.number ∷ []) }
    ensures number { IfOk result (λ number. number ≡ length entries.old.items) }
    ensures err { OnErr result (entries.new.items ≡ entries.old.items) }
    ensures fits { length entries.new.items ≤ key.now.most }
    ensures fault { IfErr result (IsWantOf key.now.most (length entries.old.items + 1)) }
{
    let number = entries.len();
    if number >= key.most as usize {
        return Err(BuildFault::TooMany);
    }
    let entry = KeyEntry::new(alloc, key.kind, key.text, key.number)?;
    entries.push(entry)?;
    Ok(number as u32)
}

/// Appends the entry of a new key, and puts it at its place in the order.
fn insert(
    alloc: Global,
    entries: &mut Vec<KeyEntry>,
    order: &mut KeyOrder,
    place: Place,
    key: &Added<'_>,
) -> Result<(), BuildFault>
    requires number { key.now.number < u32.MAX }
    requires short { length key.now.text.now < four_byte_limit }
    requires fits { length entries.old.items ≤ key.now.most }
    requires step { AreInStep entries.old.items order.old }
    requires place { IsPlaceFor key.now.kind key.now.text.now entries.old.items order.old place }
    ensures ok { OnOk result (entries.new.items
        ≡ entries.old.items ++ new_key key.now.kind key.now.text.now key.now.number ∷ []) }
    ensures err { OnErr result (entries.new.items ≡ entries.old.items) }
    ensures step { AreInStep entries.new.items order.new }
    ensures part { IsPartOf (numbers_in order.old) (numbers_in order.new) }
    ensures has { OnOk result (IsAmong (length entries.old.items) (numbers_in order.new)) }
    ensures fits { length entries.new.items ≤ key.now.most }
    ensures fault { IfErr result (IsWantOf key.now.most (length entries.old.items + 1)) }
{
    let number = push(alloc, entries, key)?;
    match order.insert(alloc, place, number) {
        Ok(()) => Ok(()),
        Err(_) => {
            entries.truncate(number as usize);
            Err(BuildFault::OutOfMemory)
        }
    }
}

/// Makes a table larger. If memory runs out, it is as before.
///
/// Inlined, it would have 2 KB cleared for each new key: the place for the larger table.
#[inline(never)]
fn grow(
    alloc: Global,
    entries: &[KeyEntry],
    table: &mut KeyTable,
    order: &mut KeyOrder,
) -> Result<(), AllocError>
    requires fits { length entries.now ≤ u32.MAX }
    requires distinct { AreDistinct entries.now }
    requires step { AreInStep entries.now order.old }
    requires kept { AreReachable entries.now table.old order.old (length entries.now) }
    ensures step { AreInStep entries.now order.new }
    ensures part { IsPartOf (numbers_in order.old) (numbers_in order.new) }
    ensures kept { AreReachable entries.now table.new order.new (length entries.now) }
{
    *table = grown(alloc, entries, table, order)?;
    Ok(())
}

/// A larger table of the same entries. Entries that have no slot in it are put in order.
fn grown(
    alloc: Global,
    entries: &[KeyEntry],
    table: &KeyTable,
    order: &mut KeyOrder,
) -> Result<KeyTable, AllocError>
    requires fits { length entries.now ≤ u32.MAX }
    requires distinct { AreDistinct entries.now }
    requires step { AreInStep entries.now order.old }
    ensures step { AreInStep entries.now order.new }
    ensures part { IsPartOf (numbers_in order.old) (numbers_in order.new) }
    ensures kept { IfOk result
        (λ larger. AreReachable entries.now larger order.new (length entries.now)) }
{
    let mut larger = table.larger(alloc)?;
    for number in 0..entries.len() {
        keep(alloc, entries, &mut larger, order, number)?;
    }
    Ok(larger)
}

/// Gives an entry a slot in the table, or puts it in order if its window is full.
fn keep(
    alloc: Global,
    entries: &[KeyEntry],
    table: &mut KeyTable,
    order: &mut KeyOrder,
    number: usize,
) -> Result<(), AllocError>
    requires within { number < length entries.now }
    requires fits { length entries.now ≤ u32.MAX }
    requires distinct { AreDistinct entries.now }
    requires step { AreInStep entries.now order.old }
    ensures step { AreInStep entries.now order.new }
    ensures part { IsPartOf (numbers_in order.old) (numbers_in order.new) }
    ensures kept { OnOk result (AreReachable entries.now table.old order.old number
        → AreReachable entries.now table.new order.new (number + 1)) }
{
    let entry = &entries[number];
    let hash = KeyHash::of(entry.kind(), entry.text());
    match table.vacancy(hash, entries.len()) {
        Some(slot) => {
            table.put(slot, number as u32);
            Ok(())
        }
        None => put_in_order(alloc, entries, order, number),
    }
}

/// Puts all entries in order, the first of which are in order already.
fn put_all_in_order(
    alloc: Global,
    entries: &[KeyEntry],
    order: &mut KeyOrder,
    first: usize,
) -> Result<(), AllocError>
    requires fits { length entries.now ≤ u32.MAX }
    requires within { first ≤ length entries.now }
    requires distinct { AreDistinct entries.now }
    requires step { AreInStep entries.now order.old }
    requires first { (i : ℕ) → i < first → IsAmong i (numbers_in order.old) }
    ensures step { AreInStep entries.now order.new }
    ensures part { IsPartOf (numbers_in order.old) (numbers_in order.new) }
    ensures all { OnOk result
        ((i : ℕ) → i < length entries.now → IsAmong i (numbers_in order.new)) }
{
    if entries.len() - first > first / OF_WHICH_ONE_IS_NEW {
        return put_anew(alloc, entries, order);
    }
    for number in first..entries.len() {
        put_in_order(alloc, entries, order, number)?;
    }
    Ok(())
}

/// Puts an entry at its place in the order, unless it is there.
fn put_in_order(
    alloc: Global,
    entries: &[KeyEntry],
    order: &mut KeyOrder,
    number: usize,
) -> Result<(), AllocError>
    requires within { number < length entries.now }
    requires fits { length entries.now ≤ u32.MAX }
    requires distinct { AreDistinct entries.now }
    requires step { AreInStep entries.now order.old }
    ensures step { AreInStep entries.now order.new }
    ensures part { IsPartOf (numbers_in order.old) (numbers_in order.new) }
    ensures has { OnOk result (IsAmong number (numbers_in order.new)) }
{
    order.begin(alloc)?;
    let entry = &entries[number];
    match order.find(entries, entry.kind(), entry.text()) {
        Ok(_) => Ok(()),
        Err(place) => order.insert(alloc, place, number as u32),
    }
}
