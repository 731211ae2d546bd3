//! Archives in an index file.
ghost use Rattle.std.specs.Prelude.{◌≡◌, ◌↔◌, ◌-◌, ◌≤◌, ◌<◌, length, MatchOption, IsTrue};
ghost use Rattle.mail_index.specs.Versions.{version_number, IsDigest, read_digest, after_digest};
ghost use Rattle.mail_index.specs.Layouts.{archive_of};
ghost use Rattle.mail_index.specs.Records.{HasArchive, SpellsArchives, read_archive, after_archive, after_archives as after_archives_of};

use crate::fields::{u32_at, u64_at};
use crate::path::is_path;
use crate::places::{ARCHIVE_FRONT, ARCHIVE_LENGTH_AT, DIGEST, PATH_LENGTH_AT};
use crate::version::Version;
use std::str;

/// The most bytes that an archive may have.
const MOST_LENGTH: u64 = 1 << 40;

/// An archive, as an index describes it.
#[derive(Clone, Copy)]
pub struct Archive<'a> {
    /// Its name.
    pub path: &'a str,
    /// Its length in bytes.
    pub length: u64,
    /// The SHA-256 of its bytes, None in a file of version 1.
    pub digest: Option<[u8; 32]>,
}

/// Splits off the digest that the bytes begin with in a file of this version. Returns it with the bytes after it, or
/// None if there is no room for it.
fn split_digest(bytes: &[u8], version: Version) -> Option<(Option<[u8; DIGEST]>, &[u8])>
    ensures { MatchOption result
        (¬ IsDigest (version_number version) (read_digest (version_number version) bytes.now))
        (λ p. IsDigest (version_number version) (read_digest (version_number version) bytes.now)
        × (p.0 ≡ read_digest (version_number version) bytes.now)
        × (p.1.now ≡ after_digest (version_number version) bytes.now)) }
{
    match version {
        Version::One => Some((None, bytes)),
        Version::Two => {
            let (digest, after) = bytes.split_first_chunk::<DIGEST>()?;
            Some((Some(*digest), after))
        }
    }
}

/// Splits off the archive that the bytes begin with in a file of this version. Returns it with the bytes after it, or
/// None if the bytes begin with no valid archive.
pub(crate) fn split_archive(bytes: &[u8], version: Version) -> Option<(Archive<'_>, &[u8])>
    ensures { MatchOption result (¬ HasArchive (version_number version) bytes.now)
        (λ p. HasArchive (version_number version) bytes.now
        × (archive_of p.0 ≡ read_archive (version_number version) bytes.now)
        × (p.1.now ≡ after_archive (version_number version) bytes.now)) }
{
    if bytes.len() < ARCHIVE_FRONT {
        return None;
    }
    let length = u64_at(bytes, ARCHIVE_LENGTH_AT);
    let size = u32_at(bytes, PATH_LENGTH_AT) as usize;
    let tail = bytes.split_at(ARCHIVE_FRONT).1;
    if length > MOST_LENGTH {
        return None;
    }
    if tail.len() < size {
        return None;
    }
    let (path, after) = tail.split_at(size);
    let Ok(path) = str::from_utf8(path) else {
        return None;
    };
    if !is_path(path) {
        return None;
    }
    let (digest, after) = split_digest(after, version)?;
    Some((
        Archive {
            path,
            length,
            digest,
        },
        after,
    ))
}

/// Whether the section consists of exactly this many archives of this version.
pub(crate) fn are_archives(section: &[u8], count: u32, version: Version) -> bool
    ensures { IsTrue result ↔ SpellsArchives (version_number version) count section.now }
{
    let mut rest = section;
    for number in 0..count {
        match split_archive(rest, version) {
            Some((_, after)) => rest = after,
            None => return false,
        }
    }
    rest.is_empty()
}

/// The bytes after the first `n` archives of a section that has `count` archives of this version.
pub(crate) fn after_archives(section: &[u8], count: u32, n: u32, version: Version) -> &[u8]
    requires spelled { SpellsArchives (version_number version) count section.now }
    requires bound { n ≤ count }
    ensures value { result.now ≡ after_archives_of (version_number version) n section.now }
    ensures spelled { SpellsArchives (version_number version) (count - n) result.now }
{
    let mut rest = section;
    for number in 0..n {
        rest = after_first_archive(rest, count - number, version);
    }
    rest
}

/// The bytes after the first archive of a section that has `count` archives. Doesn't read the path.
pub(crate) fn after_first_archive(section: &[u8], count: u32, version: Version) -> &[u8]
    requires some { 0 < count }
    requires spelled { SpellsArchives (version_number version) count section.now }
    ensures value { result.now ≡ after_archive (version_number version) section.now }
    ensures spelled { SpellsArchives (version_number version) (count - 1) result.now }
{
    let size = u32_at(section, PATH_LENGTH_AT) as usize;
    let after = section.split_at(ARCHIVE_FRONT).1.split_at(size).1;
    after.split_at(version.digest_length()).1
}

/// The first archive of a section that has `count` archives.
pub(crate) fn first_archive(section: &[u8], count: u32, version: Version) -> Archive<'_>
    requires some { 0 < count }
    requires spelled { SpellsArchives (version_number version) count section.now }
    ensures { archive_of result ≡ read_archive (version_number version) section.now }
{
    match split_archive(section, version) {
        Some((archive, _)) => archive,
        None => unreachable!(),
    }
}
