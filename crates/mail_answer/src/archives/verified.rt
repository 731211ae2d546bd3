//! Checks that archives have the bytes that were indexed.
ghost use Rattle.std.specs.Prelude.{◌≡◌, ◌≢◌, ◌<◌, ◌≤◌, ◌-◌, ◌^◌, ℕ, List, false, length, min, None, Err, IfOk, IfErr, OnOk, OnErr, IfSome};
ghost use Rattle.contract_words.specs.Archives.{archive_at};
ghost use Rattle.contract_words.specs.Devices.{Counted};
ghost use Rattle.mbox_cutter.specs.declared.device.DeviceFault.{DeviceFault};
ghost use Rattle.mail_index.specs.Tables.{IsWellFormed};
ghost use Rattle.mail_answer.specs.Answers.{fails_by, kind_of};
ghost use Rattle.mail_answer.specs.Asked.{HoldsArchives, RefusesCount};
ghost use Rattle.mail_answer.specs.Inside.Calls.{AreAsIndexed, KeepsArchives};
ghost use Rattle.mail_answer.specs.Inside.Digests.{front_digest, AbsorbsPart, ReadsDigest};
ghost use Rattle.mail_answer.specs.Faults.{has_fault, is_of_archives, is_of_output, IfStale};
ghost use Rattle.mail_answer.specs.Stale.{ReportsStale};
ghost use Rattle.mail_answer.specs.Pieces.{StopsWithin};
ghost use Rattle.mail_answer.specs.Verified.{first_altered, AreVerified, ReportsVerified, FindsDigests, VerifiesArchives};

use crate::archives::Archives;
use crate::archives::stale::check_archives;
use crate::fault::{AnswerFault, AnswerFaultKind};
use mail_index::IndexView;
use sha2::{Digest, Sha256};
use std::alloc::Global;

/// The most bytes of a read.
const PIECE: usize = 131_072;

/// Returns the digest of the first `indexed_length` bytes of an archive, read piece by piece through a buffer. None if
/// the archive ends before them. Fails if a read does.
fn read_digest<A: Archives>(
    archives: &mut A,
    archive: u32,
    indexed_length: u64,
    buffer: &mut [u8],
) -> Result<Option<[u8; 32]>, AnswerFaultKind>
    requires below { archive < A.number archives.old }
    requires room { 0 < length buffer.old }
    requires count { A.failures archives.old < 2 ^ 64 - 1 }
    ensures keeps { KeepsArchives A.Archives archives.old archives.new }
    ensures digest { IfOk result
        (λ digest. IfSome (A.held archives.new)
        (λ bytes. digest ≡ front_digest indexed_length (archive_at bytes archive))) }
    ensures read { IfOk result
        (λ digest. ReadsDigest A.Archives archive indexed_length archives.old archives.new digest) }
    ensures failed { OnErr result
        ((fault : DeviceFault) × StopsWithin A.Archives archive indexed_length (Err fault)
        archives.old archives.new) }
    ensures count { Counted (has_fault is_of_archives result)
        (A.failures archives.old) (A.failures archives.new) }
    ensures own { IfErr result (λ kind. kind ≡ AnswerFaultKind.Device) }
{
    let mut hasher = Sha256::new();
    let mut at: u64 = 0;
    'pieces: while at < indexed_length {
        let most = (indexed_length - at).min(buffer.len() as u64) as usize;
        let room = &mut buffer[..most];
        let Ok(count) = archives.read_at(archive, at, room) else {
            return Err(AnswerFaultKind::Device);
        };
        if count == 0 {
            return Ok(None);
        }
        hasher.update(&room[..count]);
        at += count as u64;
    }
    Ok(Some(hasher.finalize()))
}

/// Fails with the first archive whose digest isn't the one that was indexed, or if a read fails. Reads through a
/// buffer. All archives must have the lengths that were indexed.
fn check_digests<A: Archives>(
    index: &IndexView<'_>,
    archives: &mut A,
    buffer: &mut [u8],
) -> Result<(), AnswerFaultKind>
    requires table { IsWellFormed index.now }
    requires version { index.now.version ≡ 2 }
    requires indexed { AreAsIndexed A.Archives index.now.archives archives.old }
    requires room { 0 < length buffer.old }
    requires count { A.failures archives.old < 2 ^ 64 - 1 }
    ensures keeps { KeepsArchives A.Archives archives.old archives.new }
    ensures altered { IfSome (A.held archives.new)
        (λ bytes. ReportsStale (first_altered 0 index.now.archives bytes) result) }
    ensures found { FindsDigests A.Archives index.now.archives archives.old archives.new result }
    ensures below { IfErr result (λ kind. IfStale kind (λ n. n < length index.now.archives)) }
    ensures count { Counted (has_fault is_of_archives result)
        (A.failures archives.old) (A.failures archives.new) }
    ensures own { has_fault is_of_output result ≡ false }
{
    let mut named = index.archives();
    let mut n: u32 = 0;
    while let Some(archive) = named.next() {
        let digest = read_digest(archives, n, archive.length, buffer)?;
        if archive.digest != digest {
            return Err(AnswerFaultKind::Stale(n));
        }
        n += 1;
    }
    Ok(())
}

/// Reads every archive through, and compares the SHA-256 of its bytes with the digest that an index of version 2 has of
/// it. Takes memory for one buffer, however long the archives are.
///
/// # Errors
///
/// Stale with the smaller number of archives, if there are more or fewer than were indexed; otherwise with the first
/// archive of another length; otherwise with the first whose bytes have another digest, or that ends before its length.
/// Device if an archive can't be read. Out of memory only after the number and the lengths were found right. Nothing is
/// written, so every fault says that no bytes were sent.
pub fn verify<A: Archives>(
    alloc: Global,
    index: &IndexView<'_>,
    archives: &mut A,
) -> Result<(), AnswerFault>
    requires version { index.now.version ≡ 2 }
    requires archives { A.failures archives.old < 2 ^ 64 - 1 }
    ensures verified { IfSome (A.held archives.new)
        (λ bytes. ReportsVerified index.now.archives bytes (kind_of result)) }
    // Whether the bytes are known or not: the bytes that were read of each archive have the length and the digest that
    // were indexed.
    ensures read { OnOk result ((read : List (List ℕ)) × AreVerified index.now.archives read) }
    ensures same_count { OnOk result (A.number archives.old ≡ length index.now.archives) }
    ensures unwritten { IfErr result
        (λ fault. (fault.sent ≡ 0) × (is_of_output fault.kind ≡ false)) }
    // If the number of archives isn't the one that was indexed, the smaller number is stale, and no archive is read.
    ensures other_count { A.number archives.old ≢ length index.now.archives
        → RefusesCount A.Archives index.now.archives archives.old archives.new result }
    // If it is, all lengths are read first, each once and in order. Then the archives are read, each once and in order,
    // up to the first that isn't the one that was indexed. If a call fails before that, the fault is Device.
    ensures found { A.number archives.old ≡ length index.now.archives
        → VerifiesArchives A.Archives index.now.archives archives.old archives.new result }
    ensures archives_count { Counted (fails_by is_of_archives result)
        (A.failures archives.old) (A.failures archives.new) }
    ensures keeps { HoldsArchives A.Archives archives.old archives.new }
{
    let index = index.again();
    // Lack of memory would hide changed archives if the buffer came first.
    if let Err(kind) = check_archives(&index, archives) {
        return Err(AnswerFault::unsent(kind));
    }
    let Ok(mut buffer) = vec![in alloc; 0u8; PIECE] else {
        return Err(AnswerFault::unsent(AnswerFaultKind::OutOfMemory));
    };
    check_digests(&index, archives, buffer.as_mut_slice()).map_err(AnswerFault::unsent)
}
