//! A job that indexes archives one after another.
ghost use Rattle.std.specs.Prelude.{◌≡◌, ◌<◌, ◌^◌, ◌-◌, ℕ, List, [], true, false, Some, Err, IfOk, IfErr, OnOk, length};
ghost use Rattle.std.specs.Io.KnownBytes.{Appends, IsAtEnd};
ghost use Rattle.contract_words.specs.Devices.{Counted, Sends};
ghost use Rattle.contract_words.specs.Knowledge.{still_known};
ghost use Rattle.mbox_cutter.specs.Sources.{Stays};
ghost use Rattle.mail_index.specs.Builders.{is_output_failure};
ghost use Rattle.mail_index.specs.Files.{file_by, HasSmallSections};
ghost use Rattle.mail_index.specs.Tables.{IsPath, IsWellFormed};
ghost use Rattle.index_job.specs.ArchiveTables.{Mbox};
ghost use Rattle.index_job.specs.IndexJobs.{GoesOn, IsIndexOf, IsAdded, IsAddFault};
ghost use Rattle.index_job.specs.Indexing.{IsArchiveFault};
ghost use Rattle.index_job.specs.JobFaults.{is_source_failure};

use crate::archive_reading::{NewArchive, add_archive};
use crate::folding_room::FoldingRoom;
use crate::job_fault::JobFault;
use mail_index::{Builder, Digests, WriteFault};
use mbox_cutter::{Buffer, Out, Source};
use std::alloc::{AllocError, Global};
use std::marker::Model;

/// The most archives, messages or keys of an index.
const MOST_IN_INDEX: u32 = 2_147_483_647;

/// Makes an index of archives. Each archive is read once, from its source.
///
/// After a fault nothing is kept, and every later call fails with `Failed`.
#[derive(Drop)]
pub struct IndexJob {
    alloc: Global,
    digests: Digests,
    // Both are kept from one archive to the next, so that their memory is used again.
    buffer: Option<Buffer>,
    room: FoldingRoom,
    // After a call has failed, it has lost everything.
    builder: Builder,
    // The number of archives that have ended.
    archives: u32,
}

impl Model for IndexJob {
    ghost use Rattle.std.specs.Prelude.{◌≡◌, false};
    ghost use Rattle.index_job.specs.IndexJobs.{Job};
    ghost use Rattle.index_job.specs.Indexing.{IsIdle};

    ghost Value = { Job };

    ghost view = { λ s. record { digests = s.digests; draft = s.builder } };

    ghost invariant = { λ s. s.builder.failed ≡ false → IsIdle s.archives s.builder };
}

impl IndexJob {
    /// Begins a job without archives, which computes digests or leaves them out. Takes the memory that reading needs.
    pub fn new(alloc: Global, digests: Digests) -> Result<Self, AllocError>
        ensures empty { IfOk result (λ job. IsIndexOf job []) }
        ensures digests { IfOk result (λ job. job.digests ≡ digests) }
    {
        let buffer = Buffer::new(alloc)?;
        Ok(IndexJob {
            alloc,
            digests,
            buffer: Some(buffer),
            room: FoldingRoom::new(alloc)?,
            builder: Builder::new(alloc, MOST_IN_INDEX),
            archives: 0,
        })
    }

    /// Indexes an archive whose path meets [`is_path`](mail_index::is_path), and returns the number of its messages.
    /// Reads the source once, to its end. If digests are computed, the index notes that of the bytes that were read.
    ///
    /// # Errors
    ///
    /// `Cut` if the source fails, or if the archive isn't an mbox or has more than 2^40 bytes. `TooMany` if there are
    /// more than 2,147,483,647 archives, messages or keys with this archive. `OutOfMemory` if memory runs out, and
    /// `Failed` if an earlier call has failed.
    pub fn archive<S: Source>(&mut self, path: &str, source: &mut S) -> Result<u64, JobFault>
        requires path { IsPath path.now }
        requires count { S.failures source.old < 2 ^ 64 - 1 }
        ensures ok { IfOk result (λ n. (before : List Mbox) (bytes : List ℕ)
            → IsIndexOf self.old before
            → still_known (S.rest source.old) (S.rest source.new) ≡ Some bytes
            → IsAdded before (record { path = path.now; bytes = bytes }) n self.new) }
        ensures err { IfErr result (λ fault. (before : List Mbox) (bytes : List ℕ)
            → IsIndexOf self.old before
            → still_known (S.rest source.old) (S.rest source.new) ≡ Some bytes
            → IsAddFault before (record { path = path.now; bytes = bytes }) fault) }
        ensures end { OnOk result (IsAtEnd (S.rest source.new)) }
        ensures stays { Stays S.Source source.old source.new }
        ensures count { Counted (is_source_failure result) (S.failures source.old)
            (S.failures source.new) }
        ensures own { self.old.draft.failed ≡ false → IfErr result IsArchiveFault }
        ensures goes_on { GoesOn result self.old self.new }
        ensures failed { self.old.draft.failed ≡ true → (result ≡ Err JobFault.Failed)
            × (source.new ≡ source.old) }
    {
        let added = add_archive(
            self.alloc,
            source,
            &mut self.buffer,
            &mut self.room,
            &mut self.builder,
            NewArchive {
                path,
                number: self.archives,
                digests: self.digests,
            },
        );
        match added {
            Ok(_) => self.archives += 1,
            Err(_) => self.builder.lose(),
        }
        added
    }

    /// Writes the index file of the archives so far, and returns its number of bytes. Takes no memory, and writes in
    /// pieces of some thousand bytes.
    ///
    /// # Errors
    ///
    /// `Out` if the output fails: then only a beginning of the file was sent. `Failed` if an earlier call has failed.
    pub fn finish<O: Out>(self, out: &mut O) -> Result<u64, WriteFault>
        requires { O.failures out.old < 2 ^ 64 - 1 }
        ensures formed { IsWellFormed self.draft.table × HasSmallSections self.draft.table }
        ensures ok { IfOk result (λ n. (n ≡ length (file_by self.digests self.draft.table))
            × Appends (O.taken out.old) (O.taken out.new) (file_by self.digests self.draft.table)) }
        ensures err { self.draft.failed ≡ false → IfErr result (λ fault. (fault ≡ WriteFault.Out)
            × Sends (O.taken out.old) (O.taken out.new) (file_by self.digests self.draft.table)) }
        ensures count { Counted (is_output_failure result) (O.failures out.old)
            (O.failures out.new) }
        ensures failed { self.draft.failed ≡ true
            → (result ≡ Err WriteFault.Failed) × (out.new ≡ out.old) }
    {
        self.builder.write(out, self.digests)
    }
}
