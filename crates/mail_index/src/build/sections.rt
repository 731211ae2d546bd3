//! The sections of an index file and their order, and what writes the counts, archives and records.
ghost use Rattle.std.specs.List.{concat};
ghost use Rattle.std.specs.Prelude.{length, ◌≡◌, ◌-◌, ◌^◌, ◌<◌, ◌≤◌, map, flat_map};
ghost use Rattle.contract_words.specs.Devices.{Counts as CountsFailures};
ghost use Rattle.mail_index.specs.Files.{archive_bytes, record_bytes, bit, date_number};
ghost use Rattle.mail_index.specs.Inside.Drafts.{kept_archive};
ghost use Rattle.mail_index.specs.Inside.SectionCounts.{count_fields};
ghost use Rattle.mail_index.specs.Inside.Signing.{WritesSigned};

use crate::build::builder::NamedArchive;
use crate::build::file_out::{Signer, send_parts};
use crate::build::key_sections::KeyPart;
use crate::places::{ARCHIVE_FRONT, DATED, FLAGGED, MAGIC, REPLIED, SEEN};
use crate::record::Record;
use crate::version::Version;
use mbox_cutter::{DeviceFault, Out};

/// A part of the file that is written at once. The file's digest comes after all parts, and isn't one of them.
/// (`Section` is another type: it names the part that a reader found faulty.)
#[derive(Clone, Copy)]
pub(crate) enum FileSection {
    Counts,
    Archives,
    Records,
    Keys(KeyPart),
}

/// The order of the parts in the file. A loop keeps the proof short.
pub(crate) const FILE_SECTIONS: [FileSection; 6] = [
    FileSection::Counts,
    FileSection::Archives,
    FileSection::Records,
    FileSection::Keys(KeyPart::Entry),
    FileSection::Keys(KeyPart::Text),
    FileSection::Keys(KeyPart::Postings),
];

/// The counts that begin an index file: of archives, messages and keys, and of the bytes of three sections.
#[derive(Clone, Copy)]
pub(crate) struct Counts {
    pub archives: u32,
    pub messages: u32,
    pub keys: u32,
    pub archive_bytes: u64,
    pub text_bytes: u64,
    pub posting_bytes: u64,
}

/// Writes the counts, after the magic bytes and the version.
pub(crate) fn send_counts<O: Out>(
    out: &mut O,
    signer: &mut Signer,
    counts: &Counts,
) -> Result<(), DeviceFault>
    requires { O.failures out.old < 2 ^ 64 - 1 }
    ensures written { WritesSigned result (O.taken out.old) (O.taken out.new) signer.old signer.new
        (concat (count_fields counts.now)) }
    ensures count { CountsFailures result (O.failures out.old) (O.failures out.new) }
{
    let numbers = [
        Version::NEWEST.number().to_be_bytes(),
        counts.archives.to_be_bytes(),
        counts.messages.to_be_bytes(),
        counts.keys.to_be_bytes(),
    ];
    let lengths = [
        counts.archive_bytes.to_be_bytes(),
        counts.text_bytes.to_be_bytes(),
        counts.posting_bytes.to_be_bytes(),
    ];
    send_parts(
        out,
        signer,
        &[
            MAGIC.as_slice(),
            numbers.as_flattened(),
            lengths.as_flattened(),
        ],
    )
}

/// The number of bytes of the archives' entries.
pub(crate) fn archives_length(archives: &[NamedArchive]) -> u64
    requires { length (flat_map archive_bytes (map kept_archive archives.now)) < 2 ^ 64 }
    ensures { result ≡ length (flat_map archive_bytes (map kept_archive archives.now)) }
{
    let mut total = 0;
    for archive in archives {
        let digest = archive.digest.as_slice();
        total += ARCHIVE_FRONT as u64 + archive.path.len() as u64 + digest.len() as u64;
    }
    total
}

/// Writes the archives' entries. Each is the archive's length, the length of its path, the path, and its digest.
pub(crate) fn send_archives<O: Out>(
    out: &mut O,
    signer: &mut Signer,
    archives: &[NamedArchive],
) -> Result<(), DeviceFault>
    requires { O.failures out.old < 2 ^ 64 - 1 }
    ensures written { WritesSigned result (O.taken out.old) (O.taken out.new) signer.old signer.new
        (flat_map archive_bytes (map kept_archive archives.now)) }
    ensures count { CountsFailures result (O.failures out.old) (O.failures out.new) }
{
    for archive in archives {
        let path = archive.path.as_bytes();
        let length = archive.length.to_be_bytes();
        let path_length = (path.len() as u32).to_be_bytes();
        send_parts(
            out,
            signer,
            &[
                length.as_slice(),
                path_length.as_slice(),
                path,
                archive.digest.as_slice(),
            ],
        )?;
    }
    Ok(())
}

/// Writes the messages' records. Each flag is a bit, and so is whether the date is known.
pub(crate) fn send_records<O: Out>(
    out: &mut O,
    signer: &mut Signer,
    messages: &[Record],
) -> Result<(), DeviceFault>
    requires { O.failures out.old < 2 ^ 64 - 1 }
    ensures written { WritesSigned result (O.taken out.old) (O.taken out.new) signer.old signer.new
        (flat_map record_bytes messages.now) }
    ensures count { CountsFailures result (O.failures out.old) (O.failures out.new) }
{
    for message in messages {
        let known = bit(SEEN, message.flags.seen)
            + bit(REPLIED, message.flags.replied)
            + bit(FLAGGED, message.flags.flagged)
            + bit(DATED, message.date.is_some());
        let front = [message.archive.to_be_bytes(), [known, 0, 0, 0]];
        let numbers = [
            message.offset.to_be_bytes(),
            message.length.to_be_bytes(),
            message.size.to_be_bytes(),
            date_number(message.date).to_be_bytes(),
        ];
        send_parts(out, signer, &[front.as_flattened(), numbers.as_flattened()])?;
    }
    Ok(())
}

/// Returns the value of a flag's bit if the flag is set, and 0 if it isn't.
fn bit(value: u8, set: bool) -> u8
    ensures bit { result ≡ bit value set }
    ensures bound { result ≤ value }
{
    if set { value } else { 0 }
}

/// The date in two's complement, and 0 without a date.
fn date_number(date: Option<i64>) -> u64
    ensures { result ≡ date_number date }
{
    date.unwrap_or(0).cast_unsigned()
}
