//! Guesses where keys are in an index that is being built.

use crate::build::key_hash::KeyHash;
use crate::kind::Kind;

/// A guess where a key is in a builder. Several keys are guessed together, before the first of them is added, so that
/// one delay for memory serves them all.
///
/// A guess can be wrong and has no other meaning: the guess for another key, or from another builder, costs only time.
#[derive(Clone, Copy)]
pub struct Prefetched {
    pub(crate) hash: KeyHash,
    // The number of the entry that the hash led to, or a number above those of all entries.
    pub(crate) number: u32,
    // The length of that entry's text. Reading it fetches the entry.
    pub(crate) text_length: u32,
}

impl Prefetched {
    /// A guess for no key.
    pub const NOWHERE: Prefetched = Prefetched {
        hash: KeyHash::NONE,
        number: 0,
        text_length: 0,
    };

    /// Where a key's guess will be looked up. Nothing is guessed yet.
    pub fn of(kind: Kind, text: &[u8]) -> Self {
        Prefetched {
            hash: KeyHash::of(kind, text),
            number: 0,
            text_length: 0,
        }
    }
}
