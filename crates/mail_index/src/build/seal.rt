//! The digest that ends a file.
ghost use Rattle.std.specs.Prelude.{◌≡◌, ℕ, List, []};
ghost use Rattle.mail_index.specs.Files.{digest_or_zeros};
ghost use Rattle.mail_index.specs.Inside.Signing.{Absorbs, Seals};
ghost use Rattle.mail_index.specs.declared.digests.Digests.{Digests};

use crate::digests::{Digests, NO_DIGEST};
use sha2::{Digest, Sha256};

/// The digest of the bytes so far, or what is in its place.
#[derive(Drop)]
pub(crate) enum Seal {
    Computed(Sha256),
    LeftOut,
}

impl Seal {
    /// Returns the seal of no bytes.
    pub(crate) fn new(digests: Digests) -> Self
        ensures { Seals digests result [] }
    {
        match digests {
            Digests::Computed => Seal::Computed(Sha256::new()),
            Digests::LeftOut => Seal::LeftOut,
        }
    }

    /// Adds some bytes.
    pub(crate) fn update(&mut self, bytes: &[u8])
        ensures { Absorbs self.old self.new bytes.now }
    {
        if let Seal::Computed(hasher) = self {
            hasher.update(bytes);
        }
    }

    /// Returns the digest of all bytes, or zeros.
    pub(crate) fn finish(self) -> [u8; 32]
        ensures { (digests : Digests) (m : List ℕ) → Seals digests self m
            → result ≡ digest_or_zeros digests m }
    {
        match self {
            Seal::Computed(hasher) => hasher.finalize(),
            Seal::LeftOut => NO_DIGEST,
        }
    }
}
