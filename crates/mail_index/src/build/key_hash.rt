//! Hashes of keys.
ghost use Rattle.std.specs.Prelude.{◌≡◌, ◌<◌, ◌^◌};
ghost use Rattle.mail_index.specs.Inside.KeyTables.{hash_of};

use crate::kind::Kind;
use std::hash::{FoldHasher, Hasher};

/// How many of the bits of a hasher's number a hash leaves out, the lowest.
const LEFT_OUT: u32 = 32;

/// A hash of a key.
#[derive(Clone, Copy)]
pub(crate) struct KeyHash {
    pub bits: u32,
}

impl KeyHash {
    /// The hash of no key.
    pub(crate) const NONE: KeyHash = KeyHash { bits: 0 };

    /// The hash of a key.
    #[inline(always)]
    pub(crate) fn of(kind: Kind, text: &[u8]) -> Self
        ensures { result.bits ≡ hash_of kind text.now }
    {
        let mut hasher = FoldHasher::default();
        hasher.write(&[kind.number()]);
        hasher.write(text);
        KeyHash {
            bits: (hasher.finish() >> LEFT_OUT) as u32,
        }
    }
}
