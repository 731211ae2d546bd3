//! Where the sections of a file are.
ghost use Rattle.std.specs.Prelude.{◌≡◌, ◌↔◌, ◌+◌, ◌*◌, ◌≤◌, [], length, MatchOption, MatchResult, IsTrue};
ghost use Rattle.mail_index.specs.Places.{digest_size, least_size, entry_size};
ghost use Rattle.mail_index.specs.Versions.{version_number};
ghost use Rattle.sha2.specs.Sha256.{sha256};
ghost use Rattle.mail_index.specs.Faults.{version_told, HasDigest, IsSigned, IsFirstFaultOfFile, digest_start};

use crate::fields::{u32_at, u64_at};
use crate::places::{
    ARCHIVE_BYTES_AT, ARCHIVE_COUNT_AT, DIGEST, ENTRY, FRONT, KEY_COUNT_AT, LEAST_FILE, MAGIC,
    MESSAGE_COUNT_AT, POSTING_BYTES_AT, RECORD, TEXT_BYTES_AT, VERSION_AT,
};
use crate::version::Version;
use crate::view::directory::Directory;
use crate::view::directory_walk::are_entries;
use crate::view::fault::IndexFault;
use crate::view::posting_walk::{are_lists, part};
use sha2::{Digest, Sha256};

/// The sections of a file, divided by the lengths in its counts.
#[derive(Clone, Copy)]
pub(crate) struct Layout<'a> {
    pub(crate) version: Version,
    pub(crate) archive_count: u32,
    pub(crate) message_count: u32,
    pub(crate) archives: &'a [u8],
    pub(crate) records: &'a [u8],
    // The keys are reached only through `Layout::directory`.
    key_count: u32,
    directory: &'a [u8],
    texts: &'a [u8],
    postings: &'a [u8],
}

/// The version of a file, or what is wrong with its bytes before any section is read.
pub(crate) fn signed_version(bytes: &[u8]) -> Result<Version, IndexFault>
    ensures { MatchResult result
        (λ version. IsSigned bytes.now × (version_number version ≡ version_told bytes.now))
        (λ fault. IsFirstFaultOfFile bytes.now fault) }
{
    if bytes.len() < LEAST_FILE {
        return Err(IndexFault::TooShort);
    }
    if !bytes.starts_with(MAGIC.as_slice()) {
        return Err(IndexFault::BadMagic);
    }
    let Some(version) = Version::of(u32_at(bytes, VERSION_AT)) else {
        return Err(IndexFault::BadVersion);
    };
    let (signed, digest) = bytes.split_at(bytes.len() - DIGEST);
    if digest != Sha256::digest(signed).as_slice() {
        return Err(IndexFault::BadDigest);
    }
    Ok(version)
}

impl<'a> Layout<'a> {
    ghost use Rattle.mail_index.specs.Layouts.{IsLayout};
    ghost use Rattle.mail_index.specs.Directory.{AreEntries};
    ghost use Rattle.mail_index.specs.Lists.{AreLists};
    ghost use Rattle.mail_index.specs.KeysRead.{IsDirectory, keys_read};

    /// The sections, or None if their lengths, with those of counts and digest, don't add up to the file's length.
    pub(crate) fn of(bytes: &'a [u8], version: Version) -> Option<Layout<'a>>
        requires long { least_size ≤ length bytes.now }
        requires version { version_number version ≡ version_told bytes.now }
        ensures { MatchOption result
            (¬ (digest_start bytes.entry.now + digest_size ≡ length bytes.entry.now))
            (λ layout. IsLayout bytes.entry.now layout) }
    {
        let message_count = u32_at(bytes, MESSAGE_COUNT_AT);
        let key_count = u32_at(bytes, KEY_COUNT_AT);
        let records = u64_at(bytes, ARCHIVE_BYTES_AT).saturating_add(FRONT as u64);
        let directory = records.saturating_add(RECORD as u64 * message_count as u64);
        let texts = directory.saturating_add(ENTRY as u64 * key_count as u64);
        let postings = texts.saturating_add(u64_at(bytes, TEXT_BYTES_AT));
        let digest = postings.saturating_add(u64_at(bytes, POSTING_BYTES_AT));
        // A sum that is too large becomes the greatest number, and no digest fits after that.
        if digest != (bytes.len() - DIGEST) as u64 {
            return None;
        }
        Some(Layout {
            version,
            archive_count: u32_at(bytes, ARCHIVE_COUNT_AT),
            message_count,
            archives: part(bytes, FRONT as u64, records),
            records: part(bytes, records, directory),
            key_count,
            directory: part(bytes, directory, texts),
            texts: part(bytes, texts, postings),
            postings: part(bytes, postings, digest),
        })
    }

    /// Whether the directory consists of entries in order, with texts and postings that fill their sections.
    pub(crate) fn has_entries(&self) -> bool
        requires { length self.now.directory.now ≡ entry_size * self.now.key_count }
        ensures { IsTrue result ↔ AreEntries (version_number self.now.version) self.now.texts.now
            (length self.now.postings.now) 0 0 0 [] self.now.key_count self.now.directory.now }
    {
        let total = self.postings.len() as u64;
        are_entries(
            self.directory,
            self.key_count,
            self.texts,
            total,
            self.version,
        )
    }

    /// Whether the postings of each entry are one or more numbers of messages.
    pub(crate) fn has_lists(&self) -> bool
        requires { length self.now.directory.now ≡ entry_size * self.now.key_count }
        ensures { IsTrue result ↔ AreLists self.now.message_count self.now.postings.now
            self.now.key_count self.now.directory.now }
    {
        are_lists(
            self.directory,
            self.key_count,
            self.postings,
            self.message_count,
        )
    }

    /// The keys in order.
    pub(crate) fn directory(&self) -> Directory<'a>
        requires { IsDirectory self.now.texts.now self.now.postings.now self.now.key_count
            self.now.directory.now }
        ensures { result ≡ keys_read self.now.texts.now self.now.postings.now self.now.key_count
            self.now.directory.now }
    {
        Directory::of(self.directory, self.texts, self.postings, self.key_count)
    }
}
