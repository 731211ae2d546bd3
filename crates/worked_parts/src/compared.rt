//! The reader in place, compared with the second decoder.
use crate::index_decoder::{Decoded, DecodedArchive, DecodedKey, DecodedMessage, decode};
use mail_index::IndexFault::{self, BadDigest, BadLayout, BadMagic, BadVersion, TooShort};
use mail_index::{IndexView, Key, Keys, Kind, Postings, Record, Section, Steps};
use mail_words::TextKind;
use std::alloc::Global;

/// The kinds by their numbers, from 1.
const KINDS: &[Kind] = &[
    Kind::Text(TextKind::To),
    Kind::Text(TextKind::Cc),
    Kind::Text(TextKind::Bcc),
    Kind::Text(TextKind::From),
    Kind::Text(TextKind::Subject),
    Kind::Text(TextKind::Body),
    Kind::OwnId,
    Kind::LinkId,
    Kind::Text(TextKind::Name),
];

/// Returns the message of a record, in the form of the decoder.
fn message_of(record: Record) -> DecodedMessage {
    let place = [record.offset, record.length, record.size];
    let flags = record.flags;
    let marks = [flags.seen, flags.replied, flags.flagged];
    (u64::from(record.archive), place, record.date, marks)
}

/// Whether the list has exactly these numbers, each in one step.
pub fn have_numbers(mut postings: Postings<'_>, numbers: &[u32], steps: &mut Steps) -> bool {
    let begun = steps.count();
    let mut same = true;
    for number in numbers {
        same = postings.next(steps) == Some(*number) && same;
    }
    let is_whole = same && postings.next(steps).is_none();
    is_whole && steps.count().saturating_sub(begun) == numbers.len() as u64
}

/// Whether the key is the decoded one.
fn is_key(met: Option<Key<'_>>, key: &DecodedKey, steps: &mut Steps) -> bool {
    match met {
        Some(met) => {
            let has_text = met.text == key.text.as_slice();
            have_numbers(met.postings, &key.numbers, steps) && has_text
        }
        None => false,
    }
}

/// Whether the keys are, in order, the decoded ones with this kind's number that begin with a text.
fn are_keys(
    mut keys: Keys<'_>,
    number: u64,
    text: &[u8],
    decoded: &[DecodedKey],
    steps: &mut Steps,
) -> bool {
    let mut same = true;
    for key in decoded {
        if key.kind == number && key.text.starts_with(text) {
            same = is_key(keys.next(), key, steps) && same;
        }
    }
    same && keys.next().is_none()
}

/// Whether the keys of a kind are the decoded ones with its number: in order, looked up, and among those that begin
/// with the same byte.
fn has_keys(
    view: &IndexView<'_>,
    number: u64,
    kind: Kind,
    decoded: &[DecodedKey],
    steps: &mut Steps,
) -> bool {
    let keys = view.keys(kind);
    let mut same = are_keys(keys, number, b"", decoded, steps);
    for key in decoded {
        if key.kind == number {
            let looked_up = view.look_up(kind, &key.text, steps);
            let is_found = have_numbers(looked_up, &key.numbers, steps);
            let front = key.text.split_at(key.text.len().min(1)).0;
            let beginning = view.keys_beginning(kind, front);
            let are_same = are_keys(beginning, number, front, decoded, steps);
            same = same && is_found && are_same;
        }
    }
    same
}

fn has_archives(view: &IndexView<'_>, decoded: &[DecodedArchive]) -> bool {
    let mut same = view.archive_count() as usize == decoded.len();
    for n in 0..view.archive_count() {
        let archive = view.archive(n);
        same = match decoded.get(n as usize) {
            Some(other) => {
                other.path.as_str() == archive.path
                    && other.length == archive.length
                    && other.digest == archive.digest
                    && same
            }
            None => false,
        };
    }
    same
}

fn has_messages(view: &IndexView<'_>, decoded: &[DecodedMessage]) -> bool {
    let mut same = view.message_count() as usize == decoded.len();
    for n in 0..view.message_count() {
        let other = decoded.get(n as usize).copied();
        same = other == Some(message_of(view.message(n))) && same;
    }
    same
}

/// Whether both tables are the same.
fn has_table(alloc: Global, view: &IndexView<'_>, decoded: &Decoded) -> bool {
    let mut steps = Steps::new(alloc, view);
    let mut same = u64::from(view.version()) == decoded.version
        && has_archives(view, &decoded.archives)
        && has_messages(view, &decoded.messages);
    let mut number = 0u64;
    for kind in KINDS {
        number = number.wrapping_add(1);
        same = has_keys(view, number, *kind, &decoded.keys, &mut steps) && same;
    }
    same
}

/// Returns a number for each result of a reader, by which two results are compared. Results that one changed bit in a
/// body can cause come first.
pub fn number_of(found: Result<(), IndexFault>) -> usize {
    match found {
        Ok(()) => 0,
        Err(BadMagic) => 1,
        Err(BadVersion) => 2,
        Err(BadLayout(Section::Counts)) => 3,
        Err(BadLayout(Section::Archives)) => 4,
        Err(BadLayout(Section::Records)) => 5,
        Err(BadLayout(Section::Directory)) => 6,
        Err(BadLayout(Section::Postings)) => 7,
        Err(TooShort) => 8,
        Err(BadDigest) => 9,
    }
}

/// Whether this is the result.
pub fn is_found(found: Option<Result<(), IndexFault>>, wanted: Result<(), IndexFault>) -> bool {
    found.map(number_of) == Some(number_of(wanted))
}

/// Returns the result of both readers: the same table, or the same fault. It is None if they differ.
pub fn found(alloc: Global, bytes: &[u8]) -> Option<Result<(), IndexFault>> {
    match (IndexView::open(bytes), decode(alloc, bytes)) {
        (Ok(view), Ok(decoded)) => has_table(alloc, &view, &decoded).then_some(Ok(())),
        (Err(fault), Err(other)) => {
            (number_of(Err(fault)) == number_of(Err(other))).then_some(Err(fault))
        }
        _ => None,
    }
}
