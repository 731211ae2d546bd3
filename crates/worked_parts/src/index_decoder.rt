//! A second decoder of index files, written independently of the one that opens them in place. It copies the file into
//! values of its own, section by section, and stops at the first rule that is broken. Tests compare the two, with
//! enough memory: if memory runs out, the section that is read counts as broken.
use mail_index::IndexFault::{self, BadLayout};
use mail_index::Section;
use sha2::{Digest, Sha256};
use std::alloc::Global;
use std::str;

/// The table of an index file.
#[derive(Drop)]
pub struct Decoded {
    /// The version, 1 or 2.
    pub version: u64,
    pub archives: Vec<DecodedArchive>,
    pub messages: Vec<DecodedMessage>,
    pub keys: Vec<DecodedKey>,
}

#[derive(Drop)]
pub struct DecodedArchive {
    pub path: String,
    pub length: u64,
    /// The digest; None in version 1.
    pub digest: Option<[u8; 32]>,
}

/// A message: the number of its archive, its offset, length and size, its date, and whether it was seen, replied to and
/// flagged.
pub type DecodedMessage = (u64, [u64; 3], Option<i64>, [bool; 3]);

#[derive(Drop)]
pub struct DecodedKey {
    /// The number of the kind, 1 to 9.
    pub kind: u64,
    pub text: Vec<u8>,
    /// The offset in the postings where its list begins.
    pub place: u64,
    pub numbers: Vec<u32>,
}

/// Bytes that are read from the beginning.
#[derive(Drop)]
struct Reader<'a> {
    rest: &'a [u8],
    /// Whether more was to be read than there was. All that was read after that is empty or 0.
    is_short: bool,
}

impl<'a> Reader<'a> {
    fn new(bytes: &'a [u8]) -> Self {
        Reader {
            rest: bytes,
            is_short: false,
        }
    }

    /// Reads this many bytes.
    fn take(&mut self, count: u64) -> &'a [u8] {
        match self.rest.split_at_checked(count as usize) {
            Some((taken, rest)) => {
                self.rest = rest;
                taken
            }
            None => {
                self.rest = b"";
                self.is_short = true;
                b""
            }
        }
    }

    /// Reads a number of this many bytes, at most 8, the highest byte first.
    fn number(&mut self, count: u64) -> u64 {
        let mut number = 0u64;
        for byte in self.take(count) {
            number = number.wrapping_mul(256).wrapping_add(u64::from(*byte));
        }
        number
    }

    /// Whether exactly the bytes that there are were read.
    fn is_at_end(&self) -> bool {
        self.rest.is_empty() && !self.is_short
    }
}

/// Returns the bytes of which the digest is made.
fn signed_part(bytes: &[u8]) -> Result<&[u8], IndexFault> {
    if bytes.len() < 80 {
        return Err(IndexFault::TooShort);
    }
    let mut front = Reader::new(bytes);
    if front.take(8) != b"MAIRIX\r\n".as_slice() {
        return Err(IndexFault::BadMagic);
    }
    let version = front.number(4);
    if version == 0 || version > 2 {
        return Err(IndexFault::BadVersion);
    }
    match bytes.split_last_chunk::<32>() {
        Some((signed, digest)) if Sha256::digest(signed) == *digest => Ok(signed),
        _ => Err(IndexFault::BadDigest),
    }
}

/// The sections of a file, cut by the counts.
#[derive(Clone, Copy)]
struct Sections<'a> {
    version: u64,
    archive_count: u64,
    message_count: u64,
    archives: &'a [u8],
    records: &'a [u8],
    directory: &'a [u8],
    texts: &'a [u8],
    postings: &'a [u8],
}

/// Cuts a file into its sections, which must be the whole file.
fn cut(signed: &[u8]) -> Option<Sections<'_>> {
    let mut file = Reader::new(signed);
    let _magic = file.take(8);
    let version = file.number(4);
    let archive_count = file.number(4);
    let message_count = file.number(4);
    let key_count = file.number(4);
    let archive_bytes = file.number(8);
    let text_bytes = file.number(8);
    let posting_bytes = file.number(8);
    let sections = Sections {
        version,
        archive_count,
        message_count,
        archives: file.take(archive_bytes),
        records: file.take(message_count.saturating_mul(40)),
        directory: file.take(key_count.saturating_mul(24)),
        texts: file.take(text_bytes),
        postings: file.take(posting_bytes),
    };
    file.is_at_end().then_some(sections)
}

/// Reads the next archive.
fn read_archive(
    alloc: Global,
    section: &mut Reader<'_>,
    version: u64,
    archives: &mut Vec<DecodedArchive>,
) -> Option<()> {
    let length = section.number(8);
    let size = section.number(4);
    let path = str::from_utf8(section.take(size)).ok()?;
    let digest = if version == 1 {
        None
    } else {
        section.take(32).first_chunk::<32>().copied()
    };
    let is_sound = !path.contains('\n') && !path.contains('\0');
    if section.is_short || length > 1 << 40 || !is_sound || path.is_empty() || path.len() > 4096 {
        return None;
    }
    let path = String::from_str(alloc, path).ok()?;
    archives
        .push(DecodedArchive {
            path,
            length,
            digest,
        })
        .ok()
}

fn read_archives(
    alloc: Global,
    sections: &Sections<'_>,
    archives: &mut Vec<DecodedArchive>,
) -> Option<()> {
    let mut section = Reader::new(sections.archives);
    for _ in 0..sections.archive_count {
        read_archive(alloc, &mut section, sections.version, archives)?;
    }
    section.is_at_end().then_some(())
}

fn message_of(record: &[u8]) -> Option<DecodedMessage> {
    let mut fields = Reader::new(record);
    let archive = fields.number(4);
    let flags = fields.number(1);
    let zeros = fields.number(3);
    let place = [fields.number(8), fields.number(8), fields.number(8)];
    let date = fields.number(8).cast_signed();
    let is_dated = flags >= 8;
    if flags > 15 || zeros != 0 || (date != 0 && !is_dated) {
        return None;
    }
    let marks = [flags % 2 == 1, flags / 2 % 2 == 1, flags / 4 % 2 == 1];
    Some((archive, place, is_dated.then_some(date), marks))
}

/// Returns the end of a message. It is None unless the message is in its archive, and doesn't begin before the least
/// place, which is an archive and an offset.
fn end_of(archives: &[DecodedArchive], message: DecodedMessage, least: (u64, u64)) -> Option<u64> {
    let (number, [offset, length, size], _, _) = message;
    let archive = archives.get(number as usize)?;
    let end = offset.saturating_add(length);
    let fits = end <= archive.length && size < length && (number, offset) >= least;
    fits.then_some(end)
}

fn read_messages(
    archives: &[DecodedArchive],
    section: &[u8],
    messages: &mut Vec<DecodedMessage>,
) -> Option<()> {
    let mut least = (0u64, 0u64);
    for record in section.chunks_exact(40) {
        let message = message_of(record)?;
        least = (message.0, end_of(archives, message, least)?);
        messages.push(message).ok()?;
    }
    Some(())
}

/// Whether a key may come directly after another one, or be the first.
fn may_follow(before: Option<&DecodedKey>, kind: u64, text: &[u8], place: u64) -> bool {
    match before {
        None => place == 0,
        Some(before) => before.place < place
            && (before.kind < kind || before.kind == kind && before.text.as_slice() < text),
    }
}

/// Reads an entry, whose text is the next one. Its key has no numbers yet.
fn read_entry(
    alloc: Global,
    entry: &[u8],
    sections: &Sections<'_>,
    texts: &mut Reader<'_>,
    keys: &mut Vec<DecodedKey>,
) -> Option<()> {
    let text_place = sections.texts.len().saturating_sub(texts.rest.len()) as u64;
    let mut fields = Reader::new(entry);
    let kind = fields.number(1);
    let zeros = fields.number(3);
    let text = texts.take(fields.number(4));
    let is_next = fields.number(8) == text_place;
    let place = fields.number(8);
    let last_kind = if sections.version == 1 { 8 } else { 9 };
    let is_key = !text.is_empty() && zeros == 0 && 1 <= kind && kind <= last_kind;
    let is_within = place < sections.postings.len() as u64;
    if !is_next || !is_key || !is_within || !may_follow(keys.last(), kind, text, place) {
        return None;
    }
    let text = text.to_vec(alloc).ok()?;
    let numbers = Vec::new(alloc);
    keys.push(DecodedKey {
        kind,
        text,
        place,
        numbers,
    })
    .ok()
}

fn read_directory(
    alloc: Global,
    sections: &Sections<'_>,
    keys: &mut Vec<DecodedKey>,
) -> Option<()> {
    let mut texts = Reader::new(sections.texts);
    for entry in sections.directory.chunks_exact(24) {
        read_entry(alloc, entry, sections, &mut texts, keys)?;
    }
    (texts.is_at_end() && keys.is_empty() == sections.postings.is_empty()).then_some(())
}

/// Reads a list of the differences between numbers, each in groups of seven bits, the lowest group first.
fn read_numbers(list: &[u8], message_count: u64, numbers: &mut Vec<u32>) -> Option<()> {
    let mut next = 0u64;
    let mut difference = 0u64;
    let mut unit = 1u64;
    for byte in list {
        let group = u64::from(*byte % 128);
        difference = difference.saturating_add(unit.saturating_mul(group));
        unit = unit.saturating_mul(128);
        // A group from 128 on isn't the last one.
        if *byte < 128 {
            let number = next.saturating_add(difference).saturating_sub(1);
            // If the last group is 0, the difference is 0 or isn't in its shortest form.
            if *byte == 0 || number >= message_count {
                return None;
            }
            numbers.push(u32::try_from(number).ok()?).ok()?;
            next = number.saturating_add(1);
            difference = 0;
            unit = 1;
        }
    }
    (unit == 1 && !numbers.is_empty()).then_some(())
}

/// Reads the lists of all keys, beginning with the last. That one goes to the end of the postings, and each other list
/// ends where the next one begins.
fn read_postings(sections: &Sections<'_>, keys: &mut [DecodedKey]) -> Option<()> {
    let mut rest = sections.postings;
    for key in keys.iter_mut().rev() {
        let (before, list) = rest.split_at_checked(key.place as usize)?;
        read_numbers(list, sections.message_count, &mut key.numbers)?;
        rest = before;
    }
    Some(())
}

/// Reads a table section by section, up to the first one that is broken.
fn read_table(
    alloc: Global,
    sections: &Sections<'_>,
    decoded: &mut Decoded,
) -> Result<(), Section> {
    read_archives(alloc, sections, &mut decoded.archives).ok_or(Section::Archives)?;
    read_messages(&decoded.archives, sections.records, &mut decoded.messages).ok_or(
        Section::Records,
    )?;
    read_directory(alloc, sections, &mut decoded.keys).ok_or(Section::Directory)?;
    read_postings(sections, &mut decoded.keys).ok_or(Section::Postings)
}

/// Returns the table of these bytes.
///
/// # Errors
///
/// The fault of the first rule that they break.
pub fn decode(alloc: Global, bytes: &[u8]) -> Result<Decoded, IndexFault> {
    let sections = cut(signed_part(bytes)?).ok_or(BadLayout(Section::Counts))?;
    let mut decoded = Decoded {
        version: sections.version,
        archives: Vec::new(alloc),
        messages: Vec::new(alloc),
        keys: Vec::new(alloc),
    };
    match read_table(alloc, &sections, &mut decoded) {
        Ok(()) => Ok(decoded),
        Err(section) => Err(BadLayout(section)),
    }
}
