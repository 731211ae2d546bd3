//! What is read of a file by its name.
//!
//! If a file isn't an index, only its first 80 bytes are read (decision 96 in docs/DECISIONS.md).
ghost use Rattle.std.specs.Prelude.{◌≡◌, ◌⊎◌, ◌<◌, true, false, [], None, IfOk, IfErr, OnOk};
ghost use Rattle.named_files.specs.Entries.{IsFileOf, bytes_of};
ghost use Rattle.named_files.specs.Refusals.{HasCause};
ghost use Rattle.named_files.specs.AddedReports.{AddsReports};
ghost use Rattle.mairix_run.specs.IndexReads.{IsKnownRead, IsReadAs, IsRefusedEarly, seen_early};
ghost use Rattle.mairix_run.specs.declared.named_file.Reading.TheVariants.{Index};

use crate::file_front::read_front;
use crate::whole_file::read_all;
use mail_index::{IndexFault, IndexView};
use named_files::{Folder, KeptFile, Refusal};
use std::alloc::Global;

/// The number of bytes of the shortest index, which are enough to see the version, or that the file is no index.
const SHORTEST: usize = 80;

/// The number of bytes of an index's magic.
const MAGIC: usize = 8;

/// How much of a file is read.
#[derive(Clone, Copy)]
pub enum Reading {
    /// All of it. Memory is taken once, for the length of the file, if it has one and doesn't grow meanwhile.
    Whole,
    /// All of an index. If the first 80 bytes show that the file is no index, or of an unknown version, only these are
    /// read: a search refuses them as it would refuse the whole file, however long that is.
    Index,
    /// As many bytes as the magic of an index has.
    Magic,
}

/// Returns the bytes that are read of a file.
///
/// # Errors
///
/// `Refused` if the name leads to no file, or if a call of the system fails; `Memory` if memory runs out.
pub fn read_named<F: Folder>(
    folder: &F,
    alloc: Global,
    reports: &mut F::Reports,
    name: &F::Name,
    reading: Reading,
) -> Result<Vec<u8>, Refusal>
    ensures bytes { IfOk result (λ bytes. F.agree reports.new ≡ true
        → IsFileOf (λ all. IsReadAs reading all bytes.items)
        (F.holds folder.now (F.Name.text name.now))) }
    // It doesn't give up by itself.
    ensures refused { IfErr result (λ why. HasCause why
        ((bytes_of (F.holds folder.now (F.Name.text name.now)) ≡ None)
        ⊎ (F.can_refuse ⊎ F.reads_can_fail))) }
    ensures reports { AddsReports F.Folder reports.old reports.new }
{
    let mut file = match folder.open(alloc, name) {
        Ok(file) => file,
        Err(why) => return Err(why),
    };
    let mut bytes = Vec::new(alloc);
    let read = read_bytes(&mut file, reading, &mut bytes);
    folder.take_back(reports, file);
    match read {
        Ok(()) => Ok(bytes),
        Err(why) => Err(why),
    }
}

/// Reads as much of a file.
fn read_bytes<K: KeptFile>(
    file: &mut K,
    reading: Reading,
    bytes: &mut Vec<u8>,
) -> Result<(), Refusal>
    requires fresh { K.failures file.old ≡ 0 }
    requires empty { bytes.old.items ≡ [] }
    ensures read { OnOk result (IsKnownRead reading (K.rest file.old) (K.rest file.new)
        bytes.new.items) }
    ensures failed { IfErr result (λ why. HasCause why (0 < K.failures file.new)) }
{
    match reading {
        Reading::Whole => read_all(file, bytes),
        Reading::Index => read_index(file, bytes),
        Reading::Magic => read_front(file, MAGIC, &mut [0; MAGIC], bytes),
    }
}

/// Reads the bytes of an index, or the first bytes of a file that is none.
fn read_index<K: KeptFile>(file: &mut K, bytes: &mut Vec<u8>) -> Result<(), Refusal>
    requires fresh { K.failures file.old ≡ 0 }
    requires empty { bytes.old.items ≡ [] }
    ensures read { OnOk result (IsKnownRead Index (K.rest file.old) (K.rest file.new)
        bytes.new.items) }
    ensures failed { IfErr result (λ why. HasCause why (0 < K.failures file.new)) }
{
    let mut piece = [0; SHORTEST];
    if let Err(why) = read_front(file, SHORTEST, &mut piece, bytes) {
        return Err(why);
    }
    if is_refused_early(bytes.as_slice()) {
        return Ok(());
    }
    read_all(file, bytes)
}

/// Whether the first bytes of a file show that it is no index, or of an unknown version.
fn is_refused_early(front: &[u8]) -> bool
    ensures shown { result ≡ true → IsRefusedEarly front.now }
    ensures not_shown { result ≡ false → ¬ IsRefusedEarly front.now }
{
    match IndexView::open(front) {
        Ok(_) => false,
        Err(fault) => is_seen_early(fault),
    }
}

/// Whether the first bytes of a file show this fault.
fn is_seen_early(fault: IndexFault) -> bool
    ensures { result ≡ seen_early fault }
{
    match fault {
        IndexFault::TooShort => true,
        IndexFault::BadMagic => true,
        IndexFault::BadVersion => true,
        IndexFault::BadDigest => false,
        IndexFault::BadLayout(_) => false,
    }
}
