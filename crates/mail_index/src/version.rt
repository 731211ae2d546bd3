//! The versions of index files.
//!
//! Decisions 86 and 88 in docs/DECISIONS.md say why there are two.
ghost use Rattle.std.specs.Prelude.{◌≡◌, MatchOption};
ghost use Rattle.mail_index.specs.Versions.{IsVersion, version_number};

use crate::places::DIGEST;

/// A version of index files.
#[derive(Clone, Copy)]
pub enum Version {
    /// Without names of attachments, and without digests of archives.
    One,
    /// The version that is written.
    Two,
}

impl Version {
    ghost use Rattle.mail_index.specs.Versions.{last_kind, digest_length};

    /// The version that is written.
    pub(crate) const NEWEST: Version = Version::Two;

    /// The version with this number, or None if the number isn't known.
    pub(crate) fn of(number: u32) -> Option<Self>
        ensures { MatchOption result (¬ IsVersion number)
            (λ version. version_number version ≡ number) }
    {
        match number {
            1 => Some(Version::One),
            2 => Some(Version::Two),
            _ => None,
        }
    }

    /// Its number, as it is in a file.
    pub(crate) fn number(self) -> u32
        ensures { result ≡ version_number self }
    {
        match self {
            Version::One => 1,
            Version::Two => 2,
        }
    }

    /// The greatest number of a kind. Names have the last one, and came with version 2.
    pub(crate) fn greatest_kind(self) -> u8
        ensures { result ≡ last_kind (version_number self) }
    {
        match self {
            Version::One => 8,
            Version::Two => 9,
        }
    }

    /// How many bytes the digest after an archive's path has.
    pub(crate) fn digest_length(self) -> usize
        ensures { result ≡ digest_length (version_number self) }
    {
        match self {
            Version::One => 0,
            Version::Two => DIGEST,
        }
    }
}
