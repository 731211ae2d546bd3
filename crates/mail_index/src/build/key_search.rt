//! Searches for a key among entries in order.
ghost use Rattle.std.specs.Prelude.{◌≡◌, ◌<◌, ◌≤◌, ℕ, suc, length, IfOk, IfErr};
ghost use Rattle.std.specs.declared.cmp.Ordering.TheVariants.{Less, Equal, Greater};
ghost use Rattle.std.specs.List.{AllByRecursion};
ghost use Rattle.mail_index.specs.Inside.KeyFronts.{IsFrontOfKey, IsFronted};
ghost use Rattle.mail_index.specs.Inside.KeyMaps.{slot_keys, numbers_of_slots, IsAmong, IsEntryOf, AreBounds, IsGap};
ghost use Rattle.mail_index.specs.KeysRead.{key_at};
ghost use Rattle.mail_index.specs.LookUps.{lies_to};

use crate::build::key_entry::KeyEntry;
use crate::build::key_front::Fronted;
use crate::kind::Kind;
use std::cmp::Ordering;

/// A search reads this many slots first, before it halves what is left.
const PROBES: usize = 16;

/// Returns the number of the entry of this key among those of these slots, which are in order; `front` is the key's
/// front. If none of them is it, the place between the slots where it would be. A binary search, after a first look at
/// some slots.
pub(crate) fn search(
    slots: &[Fronted],
    entries: &[KeyEntry],
    front: u64,
    kind: Kind,
    text: &[u8],
) -> Result<u32, usize>
    requires fronted { AllByRecursion (IsFronted entries.now) slots.now }
    requires front { IsFrontOfKey kind text.now front }
    ensures found { IfOk result (IsEntryOf kind text.now entries.now) }
    ensures among { IfOk result (λ number. IsAmong number (numbers_of_slots slots.now)) }
    ensures place { IfErr result (IsGap kind text.now (slot_keys entries.now slots.now)) }
{
    let (mut low, mut high) = bounds(slots, entries, front, kind, text);
    while low < high {
        let middle = low + (high - low) / 2;
        let slot = slots[middle];
        match compare(slot, entries, front, kind, text) {
            Ordering::Less => low = middle + 1,
            Ordering::Equal => return Ok(slot.number),
            Ordering::Greater => high = middle,
        }
    }
    Err(low)
}

/// Returns two places between which the key is, if it is one of them. The guessed places are used only if they are
/// right.
fn bounds(
    slots: &[Fronted],
    entries: &[KeyEntry],
    front: u64,
    kind: Kind,
    text: &[u8],
) -> (usize, usize)
    requires fronted { AllByRecursion (IsFronted entries.now) slots.now }
    requires front { IsFrontOfKey kind text.now front }
    ensures { AreBounds kind text.now (slot_keys entries.now slots.now) result.0 result.1 }
{
    let (smaller, larger) = guessed_bounds(slots, front);
    let low = bound_after(slots, entries, front, kind, text, smaller);
    let high = bound_at(slots, entries, front, kind, text, larger);
    if low <= high {
        (low, high)
    } else {
        (0, slots.len())
    }
}

/// The place after a slot, if the slot's key comes before this one; otherwise 0.
fn bound_after(
    slots: &[Fronted],
    entries: &[KeyEntry],
    front: u64,
    kind: Kind,
    text: &[u8],
    smaller: usize,
) -> usize
    requires fronted { AllByRecursion (IsFronted entries.now) slots.now }
    requires front { IsFrontOfKey kind text.now front }
    ensures below { (j : ℕ) → suc j ≡ result
        → lies_to kind text.now (key_at (slot_keys entries.now slots.now) j) ≡ Less }
{
    if let Some(slot) = slots.get(smaller) {
        if let Ordering::Less = compare(*slot, entries, front, kind, text) {
            return smaller + 1;
        }
    }
    0
}

/// The place of a slot, if the slot's key comes after this one; otherwise the place after all slots.
fn bound_at(
    slots: &[Fronted],
    entries: &[KeyEntry],
    front: u64,
    kind: Kind,
    text: &[u8],
    larger: usize,
) -> usize
    requires fronted { AllByRecursion (IsFronted entries.now) slots.now }
    requires front { IsFrontOfKey kind text.now front }
    ensures within { result ≤ length slots.now }
    ensures above { result < length slots.now
        → lies_to kind text.now (key_at (slot_keys entries.now slots.now) result) ≡ Greater }
{
    if let Some(slot) = slots.get(larger) {
        if let Ordering::Greater = compare(*slot, entries, front, kind, text) {
            return larger;
        }
    }
    slots.len()
}

/// Of the slots that it reads, returns the last with a smaller front, and the first whose front isn't smaller. No slot
/// that it reads depends on another, so all of them come from memory in one delay. A guess: only time depends on it.
fn guessed_bounds(slots: &[Fronted], front: u64) -> (usize, usize) {
    let stride = slots.len() / PROBES + 1;
    let mut smaller: usize = 0;
    for probe in 0..PROBES {
        if let Some(slot) = slots.get(stride.wrapping_mul(probe)) {
            smaller = smaller.wrapping_add((slot.front < front) as usize);
        }
    }
    let other = stride.wrapping_mul(smaller);
    (other.wrapping_sub(stride), other)
}

/// Compares the key of a slot with this one, which has this front. Reads the entry only if the fronts are equal.
fn compare(slot: Fronted, entries: &[KeyEntry], front: u64, kind: Kind, text: &[u8]) -> Ordering
    requires slot { IsFronted entries.now slot }
    requires front { IsFrontOfKey kind text.now front }
    ensures { result ≡ lies_to kind text.now (key_at entries.now slot.number) }
{
    match slot.front.cmp(&front) {
        Ordering::Equal => entries[slot.number as usize].compare(kind, text),
        other => other,
    }
}
