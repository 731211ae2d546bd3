//! Builds an index.
ghost use Rattle.std.specs.Prelude.{◌≡◌, ◌+◌, ◌^◌, ◌<◌, ◌≤◌, ◌-◌, length, true, false, flat_map, string_len, Err, None, IfOk, IfErr, IsTrue, OnOk, OnErr};
ghost use Rattle.std.specs.Io.KnownBytes.{Appends};
ghost use Rattle.contract_words.specs.Devices.{Counted, Counts as CountsFailures, Sends};
ghost use Rattle.mail_index.specs.Files.{HasSmallSections, body, digest_or_zeros, file_by};
ghost use Rattle.mail_index.specs.Inside.SectionCounts.{IsCountOf, counted_length, section_of};
ghost use Rattle.mail_index.specs.Inside.Signing.{WritesSigned};
ghost use Rattle.mail_index.specs.Tables.{IsPath, IsWellFormed};
ghost use Rattle.mail_index.specs.Builders.{empty_draft, draft_in_archive, draft_in_message, draft_with_key, draft_after_message, draft_after_archive, Makes, is_output_failure, archive_count, end_of, IsNextMessage, IsBetweenArchives, IsInArchive, IsInMessage, IsLost, IsWithinMost, HasPair};
ghost use Rattle.mail_index.specs.Limits.{four_byte_limit, most_in_archive, most_in_index, most_in_key};

use crate::build::build_fault::{BuildFault, WriteFault};
use crate::build::file_out::Signer;
use crate::build::key_map::KeyMap;
use crate::build::key_sections::{key_bytes, send_keys};
use crate::build::prefetched::Prefetched;
use crate::build::sections::{
    Counts, FILE_SECTIONS, FileSection, archives_length, send_archives, send_counts, send_records,
};
use crate::digests::Digests;
use crate::kind::Kind;
use crate::places::{ENTRY, LEAST_FILE, RECORD};
use crate::record::Record;
use mbox_cutter::{DeviceFault, Out, send};
use std::alloc::Global;
use std::marker::Model;

/// An archive that has ended.
#[derive(Drop)]
pub(crate) struct NamedArchive {
    pub path: String,
    pub length: u64,
    pub digest: [u8; 32],
    pub ghost short: { string_len path < four_byte_limit },
}

/// Builds an index, archive by archive and, in each, message by message.
///
/// An archive is begun; each of its messages is begun, given its keys and ended; then the archive is ended. Messages
/// have numbers from 0 on, which run on over all archives. After a call that ran out of memory, or had one archive,
/// message or key too many, nothing is left: every later call fails with [`BuildFault::Failed`].
#[derive(Drop)]
pub struct Builder {
    alloc: Global,
    most: u32,
    // The path of the open archive.
    path: Option<String>,
    in_message: bool,
    archives: Vec<NamedArchive>,
    records: Vec<Record>,
    keys: KeyMap,
    // Whether a call has run out of memory or had too many, or `lose` was called.
    failed: bool,
}

impl Model for Builder {
    ghost use Rattle.std.specs.Prelude.{◌≡◌, None, true};
    ghost use Rattle.mail_index.specs.Builders.{Draft};
    ghost use Rattle.mail_index.specs.Inside.Drafts.{draft_of_fields, IsDraft};

    ghost Value = { Draft };

    ghost view = { λ s. draft_of_fields s.most s.path s.in_message s.archives.items
        s.records.items s.keys.keys s.failed };

    ghost invariant = { λ s. IsDraft (draft_of_fields s.most s.path s.in_message s.archives.items
        s.records.items s.keys.keys s.failed)
        × ((draft_of_fields s.most s.path s.in_message s.archives.items s.records.items s.keys.keys
        s.failed).path ≡ None → s.keys.sorted ≡ true) };
}

impl Builder {
    ghost use Rattle.mail_index.specs.Inside.Drafts.{IsDraft};

    /// Returns a builder without archives. It will accept at most `most` archives, messages and keys; `most` is at most
    /// 2,147,483,647.
    ///
    /// Takes no memory.
    pub fn new(alloc: Global, most: u32) -> Self
        requires { most ≤ most_in_index }
        ensures { result ≡ empty_draft most }
    {
        Builder {
            alloc,
            most,
            path: None,
            in_message: false,
            archives: Vec::new(alloc),
            records: Vec::new(alloc),
            keys: KeyMap::new(alloc),
            failed: false,
        }
    }

    /// Begins an archive with a path that meets `is_path`. No archive may be open.
    ///
    /// # Errors
    ///
    /// `TooMany` if there would be more than `most` archives. `OutOfMemory` if memory runs out, and `Failed` if nothing
    /// is left after an earlier call.
    pub fn begin_archive(&mut self, path: &str) -> Result<(), BuildFault>
        requires phase { IsBetweenArchives self.old }
        requires path { self.old.failed ≡ false → IsPath path.now }
        ensures gives { Makes (draft_in_archive path.now self.old) (archive_count self.old + 1)
            result self.old self.new }
        ensures empty { end_of (archive_count self.new) self.new.table.messages ≡ 0 }
    {
        if self.failed {
            return Err(BuildFault::Failed);
        }
        if self.archives.len() >= self.most as usize {
            return self.refuse(BuildFault::TooMany);
        }
        match String::from_str(self.alloc, path) {
            Ok(path) => {
                self.path = Some(path);
                Ok(())
            }
            Err(_) => self.refuse(BuildFault::OutOfMemory),
        }
    }

    /// Begins a message of the open archive. No message may be open.
    ///
    /// # Errors
    ///
    /// `TooMany` if there would be more than `most` messages, and `Failed` if nothing is left after an earlier call.
    pub fn begin_message(&mut self) -> Result<(), BuildFault>
        requires { IsInArchive self.old }
        ensures gives { Makes (draft_in_message self.old) (length self.old.table.messages + 1)
            result self.old self.new }
    {
        if self.failed {
            return Err(BuildFault::Failed);
        }
        if self.records.len() >= self.most as usize {
            return self.refuse(BuildFault::TooMany);
        }
        self.in_message = true;
        Ok(())
    }

    /// Gives the open message a key: a word or an id of 1 to 262,144 bytes. A key that it has already changes nothing,
    /// and takes no memory.
    ///
    /// # Errors
    ///
    /// `TooMany` if the key is new and there would be more than `most` keys. `OutOfMemory` if memory runs out, and
    /// `Failed` if nothing is left after an earlier call.
    pub fn add(&mut self, kind: Kind, text: &[u8]) -> Result<(), BuildFault>
        requires phase { IsInMessage self.old }
        requires some { self.old.failed ≡ false → 0 < length text.now }
        requires short { self.old.failed ≡ false → length text.now ≤ most_in_key }
        ensures gives { let made = draft_with_key kind text.now self.old
            in Makes made (length made.table.keys) result self.old self.new }
    {
        let mut places = [Prefetched::of(kind, text)];
        self.prefetch(&mut places);
        self.add_prefetched(kind, text, places[0])
    }

    /// Guesses where keys are, for [`Builder::add_prefetched`]. Takes no memory.
    pub fn prefetch(&self, places: &mut [Prefetched]) {
        self.keys.prefetch(places);
    }

    /// Whether a quick look finds that the open message has a key already, so that adding it would change nothing. A
    /// wrong false costs only time. It reads one of the latest keys, and needs no guess where the key is.
    #[inline(always)]
    pub fn has_recent(&self, kind: Kind, text: &[u8], place: Prefetched) -> bool
        ensures { IsTrue result → HasPair kind text.now self.now }
    {
        let message = self.records.len() as u32;
        self.keys.has_recent(kind, text, message, place)
    }

    /// Does what [`Builder::add`] does, with a guess where the key is. Several keys are added with less delay for
    /// memory if they are all guessed at once.
    ///
    /// # Errors
    ///
    /// `TooMany` if the key is new and there would be more than `most` keys. `OutOfMemory` if memory runs out, and
    /// `Failed` if nothing is left after an earlier call.
    // Inlined because it is called for each word.
    #[inline(always)]
    pub fn add_prefetched(
        &mut self,
        kind: Kind,
        text: &[u8],
        place: Prefetched,
    ) -> Result<(), BuildFault>
        requires phase { IsInMessage self.old }
        requires some { self.old.failed ≡ false → 0 < length text.now }
        requires short { self.old.failed ≡ false → length text.now ≤ most_in_key }
        ensures gives { let made = draft_with_key kind text.now self.old
            in Makes made (length made.table.keys) result self.old self.new }
    {
        if self.failed {
            return Err(BuildFault::Failed);
        }
        let number = self.records.len() as u32;
        let alloc = self.alloc;
        match self.keys.add(alloc, kind, text, number, self.most, place) {
            Ok(()) => Ok(()),
            Err(fault) => self.refuse(fault),
        }
    }

    /// Ends the open message. It belongs to the open archive, comes after the messages before it, ends within 2^40
    /// bytes, and has a text that is shorter than itself. Fails if memory runs out, or if nothing is left after an
    /// earlier call.
    pub fn end_message(&mut self, message: Record) -> Result<(), BuildFault>
        requires phase { IsInMessage self.old }
        requires next { self.old.failed ≡ false → IsNextMessage self.old message }
        ensures gives { Makes (draft_after_message message self.old) 0 result self.old self.new }
    {
        if self.failed {
            return Err(BuildFault::Failed);
        }
        match self.records.push(message) {
            Ok(()) => {
                self.in_message = false;
                Ok(())
            }
            Err(_) => self.refuse(BuildFault::OutOfMemory),
        }
    }

    /// Ends the open archive, whose messages have all ended. Its length is at most 2^40 bytes, and not less than the
    /// end of its last message. `digest` should be the SHA-256 of its bytes: the caller computes it, because a builder
    /// doesn't see the bytes, and any 32 bytes are written as they are. Fails if memory runs out, or if nothing is left
    /// after an earlier call.
    pub fn end_archive(&mut self, length: u64, digest: [u8; 32]) -> Result<(), BuildFault>
        requires phase { IsInArchive self.old }
        requires within { self.old.failed ≡ false → length ≤ most_in_archive }
        requires last { self.old.failed ≡ false
            → end_of (archive_count self.old) self.old.table.messages ≤ length }
        ensures gives { Makes (draft_after_archive length digest self.old) 0 result self.old
            self.new }
        ensures within { IsWithinMost self.new }
    {
        if self.failed {
            return Err(BuildFault::Failed);
        }
        if self.keys.sort(self.alloc).is_err() {
            return self.refuse(BuildFault::OutOfMemory);
        }
        let Some(path) = self.path.take() else {
            // Only after a fault is no archive open.
            return Err(BuildFault::Failed);
        };
        let archive = NamedArchive {
            path,
            length,
            digest,
        };
        match self.archives.push(archive) {
            Ok(()) => Ok(()),
            Err(refused) => {
                self.path = Some(refused.value.path);
                self.refuse(BuildFault::OutOfMemory)
            }
        }
    }

    /// Writes the index file of all archives, in version 2, and returns its number of bytes. Its own digest is computed,
    /// or zeros are in its place; those of the archives are what they were given as. No archive may be open.
    ///
    /// Takes no memory, and writes in pieces of some thousand bytes. The builder stays as it is, even if the output
    /// fails.
    ///
    /// # Errors
    ///
    /// `Out` if the output fails: then only a beginning of the file was sent. `Failed` if nothing is left after an
    /// earlier call.
    pub fn write<O: Out>(&self, out: &mut O, digests: Digests) -> Result<u64, WriteFault>
        requires failures { O.failures out.old < 2 ^ 64 - 1 }
        requires phase { IsBetweenArchives self.now }
        ensures formed { IsWellFormed self.now.table × HasSmallSections self.now.table }
        ensures failed { self.now.failed ≡ true
            → (result ≡ Err WriteFault.Failed) × (out.new ≡ out.old) }
        ensures ok { IfOk result (λ n. (n ≡ length (file_by digests self.now.table))
            × Appends (O.taken out.old) (O.taken out.new) (file_by digests self.now.table)) }
        ensures err { self.now.failed ≡ false → IfErr result (λ e. (e ≡ WriteFault.Out)
            × Sends (O.taken out.old) (O.taken out.new) (file_by digests self.now.table)) }
        ensures count { Counted (is_output_failure result) (O.failures out.old)
            (O.failures out.new) }
    {
        if self.failed {
            return Err(WriteFault::Failed);
        }
        self.write_table(out, digests).or(Err(WriteFault::Out))
    }

    /// Frees all that was built. Every later call fails with [`BuildFault::Failed`].
    // Kept out of the calls, because they nearly always succeed.
    #[cold]
    #[inline(never)]
    pub fn lose(&mut self)
        ensures { IsLost self.new }
    {
        let most = self.most;
        *self = Builder::new(self.alloc, most);
        self.failed = true;
    }

    /// Frees all that was built, and returns the fault.
    #[inline]
    fn refuse(&mut self, fault: BuildFault) -> Result<(), BuildFault>
        ensures fault { result ≡ Err fault }
        ensures lost { IsLost self.new }
    {
        self.lose();
        Err(fault)
    }

    /// Writes the index file of the table, and returns its number of bytes. Fails if the output does.
    fn write_table<O: Out>(&self, out: &mut O, digests: Digests) -> Result<u64, DeviceFault>
        requires failures { O.failures out.old < 2 ^ 64 - 1 }
        requires kept { self.now.failed ≡ false }
        requires phase { IsBetweenArchives self.now }
        ensures formed { IsWellFormed self.now.table × HasSmallSections self.now.table }
        ensures ok { IfOk result (λ n. (n ≡ length (file_by digests self.now.table))
            × Appends (O.taken out.old) (O.taken out.new) (file_by digests self.now.table)) }
        ensures err { OnErr result
            (Sends (O.taken out.old) (O.taken out.new) (file_by digests self.now.table)) }
        ensures count { CountsFailures result (O.failures out.old) (O.failures out.new) }
    {
        let counts = self.counts();
        let digest = self.send_undigested(out, &counts, digests)?;
        send(out, digest.as_slice())?;
        let length = LEAST_FILE as u64
            + counts.archive_bytes
            + RECORD as u64 * counts.messages as u64
            + ENTRY as u64 * counts.keys as u64
            + counts.text_bytes
            + counts.posting_bytes;
        Ok(length)
    }

    /// The contents of the counts section.
    fn counts(&self) -> Counts
        requires { self.now.path ≡ None }
        ensures draft { IsDraft self.now }
        ensures counts { IsCountOf self.now.table result }
        ensures small { counted_length result < 2 ^ 64 }
    {
        let (text_bytes, posting_bytes) = key_bytes(self.keys.in_order());
        Counts {
            archives: self.archives.len() as u32,
            messages: self.records.len() as u32,
            keys: self.keys.len() as u32,
            archive_bytes: archives_length(self.archives.as_slice()),
            text_bytes,
            posting_bytes,
        }
    }

    /// Writes all of the file but its digest, and returns the digest, or zeros.
    fn send_undigested<O: Out>(
        &self,
        out: &mut O,
        counts: &Counts,
        digests: Digests,
    ) -> Result<[u8; 32], DeviceFault>
        requires failures { O.failures out.old < 2 ^ 64 - 1 }
        requires closed { self.now.path ≡ None }
        requires counts { IsCountOf self.now.table counts.now }
        requires small { counted_length counts.now < 2 ^ 64 }
        ensures ok { OnOk result
            (Appends (O.taken out.old) (O.taken out.new) (body self.now.table)) }
        ensures digest { IfOk result (λ digest.
            digest ≡ digest_or_zeros digests (body self.now.table)) }
        ensures err { OnErr result
            (Sends (O.taken out.old) (O.taken out.new) (body self.now.table)) }
        ensures count { CountsFailures result (O.failures out.old) (O.failures out.new) }
    {
        let mut signer = Signer::new(digests);
        self.send_sections(out, &mut signer, counts, FILE_SECTIONS.as_slice())?;
        signer.finish(out)
    }

    /// Writes these sections one after another, or gathers their bytes to be written.
    fn send_sections<O: Out>(
        &self,
        out: &mut O,
        signer: &mut Signer,
        counts: &Counts,
        sections: &[FileSection],
    ) -> Result<(), DeviceFault>
        requires failures { O.failures out.old < 2 ^ 64 - 1 }
        requires closed { self.now.path ≡ None }
        requires counts { IsCountOf self.now.table counts.now }
        requires small { counted_length counts.now < 2 ^ 64 }
        ensures written { WritesSigned result (O.taken out.old) (O.taken out.new) signer.old
            signer.new
            (flat_map (section_of self.now.table) sections.now) }
        ensures count { CountsFailures result (O.failures out.old) (O.failures out.new) }
    {
        for section in sections {
            self.send_section(out, signer, counts, *section)?;
        }
        Ok(())
    }

    /// Writes a section, or gathers its bytes to be written.
    fn send_section<O: Out>(
        &self,
        out: &mut O,
        signer: &mut Signer,
        counts: &Counts,
        section: FileSection,
    ) -> Result<(), DeviceFault>
        requires failures { O.failures out.old < 2 ^ 64 - 1 }
        requires closed { self.now.path ≡ None }
        requires counts { IsCountOf self.now.table counts.now }
        requires small { counted_length counts.now < 2 ^ 64 }
        ensures written { WritesSigned result (O.taken out.old) (O.taken out.new) signer.old
            signer.new
            (section_of self.now.table section) }
        ensures count { CountsFailures result (O.failures out.old) (O.failures out.new) }
    {
        match section {
            FileSection::Counts => send_counts(out, signer, counts),
            FileSection::Archives => send_archives(out, signer, self.archives.as_slice()),
            FileSection::Records => send_records(out, signer, self.records.as_slice()),
            FileSection::Keys(part) => send_keys(out, signer, part, self.keys.in_order()),
        }
    }
}
