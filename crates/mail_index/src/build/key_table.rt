//! A table that finds the entry of a key by the key's hash.
ghost use Rattle.std.specs.Prelude.{◌≡◌, ◌+◌, ◌^◌, ◌<◌, ◌≤◌, ◌/◌, ℕ, [], length, set, IfOk};

use crate::build::key_entry::KeyEntry;
use crate::build::key_hash::KeyHash;
use crate::kind::Kind;
use std::alloc::{AllocError, Global};

/// How many slots a window has.
const WINDOW: usize = 16;

/// How many bits a hash has.
const BITS: u32 = 32;

/// How many of them the place of a window leaves out before there is a table. The first table has 2^14 windows.
const FIRST_LEFT_OUT: u32 = 19;

/// How many windows there are at least for each key, as long as the table has at most 4 MiB.
const WINDOWS_OF_A_KEY: usize = 4;

/// How many there are at least in a larger table.
const WINDOWS_OF_ONE_OF_MANY: usize = 2;

/// How many slots 4 MiB have.
const MANY: usize = 1_048_576;

/// How many of the latest keys are kept in a small table too, which is quick to reach.
const RECENT: usize = 512;

/// The contents of a vacant slot: more than the number of any entry.
const NOTHING: u32 = u32::MAX;

/// What a table has of a key.
#[derive(Clone, Copy)]
pub(crate) enum Found {
    /// The number of the key's entry.
    Entry(u32),
    /// No entry has the key, and this slot is for it.
    Vacant(usize),
    /// All slots of the key's window have other keys.
    Full,
}

/// The numbers of entries, each in one of the slots of a window. The hash of its key says where the window begins. No
/// number is ever taken out, and each was put into the first vacant slot. So if a look through a window comes to a
/// vacant slot, the key is new.
#[derive(Drop)]
pub(crate) struct KeyTable {
    numbers: Vec<u32>,
    // How many of the lowest bits of a hash the place of its window leaves out.
    left_out: u32,
    // By the lowest bits of their hashes.
    recent: [u32; RECENT],
    ghost few: { left_out ≤ 19 },
}

impl KeyTable {
    ghost use Rattle.mail_index.specs.Inside.KeyTables.{window_of, number_at, IsLookOf, IsVacancy};

    /// Returns a table without slots. Takes no memory.
    pub(crate) fn new(alloc: Global) -> Self {
        KeyTable {
            numbers: Vec::new(alloc),
            left_out: FIRST_LEFT_OUT,
            recent: [NOTHING; RECENT],
        }
    }

    /// Whether this many keys ask for a larger table.
    pub(crate) fn is_small_for(&self, keys: usize) -> bool {
        let slots = self.numbers.len();
        let windows_of_a_key = if slots < MANY {
            WINDOWS_OF_A_KEY
        } else {
            WINDOWS_OF_ONE_OF_MANY
        };
        keys >= slots / windows_of_a_key && self.left_out > 0
    }

    /// A vacant table of twice the size.
    pub(crate) fn larger(&self, alloc: Global) -> Result<Self, AllocError>
        ensures { IfOk result (λ larger. (slot : ℕ) → slot < length larger.numbers.items
            → number_at larger slot ≡ u32.MAX) }
    {
        let left_out = self.left_out.saturating_sub(1);
        let windows = 1usize << (BITS - left_out);
        let mut numbers = Vec::new(alloc);
        numbers.resize(windows + WINDOW, NOTHING)?;
        Ok(KeyTable {
            numbers,
            left_out,
            recent: self.recent,
        })
    }

    /// The slot with which the window of a hash begins.
    #[inline]
    fn first_of(&self, hash: KeyHash) -> usize
        ensures value { result ≡ window_of self.now hash.bits }
        ensures bound { result < 2 ^ 32 }
    {
        (hash.bits >> self.left_out) as usize
    }

    /// The number in the first slot of a hash's window, or a number above those of all entries.
    pub(crate) fn guess(&self, hash: KeyHash) -> u32 {
        self.numbers
            .get(self.first_of(hash))
            .copied()
            .unwrap_or(NOTHING)
    }

    /// Looks for a key in the window of its hash.
    pub(crate) fn find(&self, entries: &[KeyEntry], hash: KeyHash, kind: Kind, text: &[u8]) -> Found
        ensures { IsLookOf kind text.now entries.now self.now hash.bits result }
    {
        let first = self.first_of(hash);
        for slot in first..first + WINDOW {
            let Some(number) = self.numbers.get(slot) else {
                return Found::Full;
            };
            let Some(entry) = entries.get(*number as usize) else {
                return Found::Vacant(slot);
            };
            if entry.is_key(kind, text) {
                return Found::Entry(*number);
            }
        }
        Found::Full
    }

    /// The first vacant slot of a hash's window, if there are this many entries.
    pub(crate) fn vacancy(&self, hash: KeyHash, count: usize) -> Option<usize>
        ensures { IsVacancy self.now hash.bits count result }
    {
        let first = self.first_of(hash);
        for slot in first..first + WINDOW {
            let number = self.numbers.get(slot)?;
            if *number as usize >= count {
                return Some(slot);
            }
        }
        None
    }

    /// Puts a number into a slot.
    pub(crate) fn put(&mut self, slot: usize, number: u32)
        ensures numbers { self.new.numbers.items ≡ set self.old.numbers.items slot number }
        ensures left_out { self.new.left_out ≡ self.old.left_out }
    {
        if let Some(place) = self.numbers.get_mut(slot) {
            *place = number;
        }
    }

    /// The latest number of the hashes with the same lowest bits, or a number above those of all entries.
    #[inline]
    pub(crate) fn recent(&self, hash: KeyHash) -> u32 {
        self.recent[hash.bits as usize % RECENT]
    }

    /// Notes that the number of this hash is the latest.
    #[inline]
    pub(crate) fn note_recent(&mut self, hash: KeyHash, number: u32)
        ensures numbers { self.new.numbers ≡ self.old.numbers }
        ensures left_out { self.new.left_out ≡ self.old.left_out }
    {
        self.recent[hash.bits as usize % RECENT] = number;
    }
}
