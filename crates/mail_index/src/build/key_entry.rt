//! A key of an index while it is built.
ghost use Rattle.std.specs.Prelude.{◌≡◌, ◌+◌, ◌*◌, ◌<◌, ◌≤◌, [], ◌∷◌, ◌++◌, length, take, IsTrue, OnOk, OnErr, IfOk};
ghost use Rattle.std.specs.Bool.{Decides};
ghost use Rattle.std.specs.Ordering.{is_eq};
ghost use Rattle.std.specs.declared.cmp.Ordering.TheVariants.{Equal};
ghost use Rattle.mail_index.specs.Inside.KeyMaps.{new_key, with_one, HoldsFront};
ghost use Rattle.mail_index.specs.Kinds.{kind_number};
ghost use Rattle.mail_index.specs.LookUps.{lies_to};
ghost use Rattle.mail_index.specs.Postings.{leb128, postings};
ghost use Rattle.mail_index.specs.Limits.{four_byte_limit};

use crate::build::leb128_out::leb128_of;
use crate::build::short_bytes::ShortBytes;
use crate::kind::{Kind, compare_keys};
use std::alloc::{AllocError, Global};
use std::cmp::Ordering;
use std::marker::Model;

/// The number of bytes for a kind's number and a short text. A longer text is kept outside the entry.
const SHORT: usize = 16;

/// A key, whose text is shorter than 2^32 bytes, with the numbers of its messages.
///
/// There are many keys, and most are short and have few numbers. So a short text and the last postings are in the entry
/// itself, which has 64 bytes. Adding a number mostly reads this entry alone, and a rare key takes no more memory.
#[derive(Drop)]
pub(crate) struct KeyEntry {
    text_length: u32,
    // One past the last number.
    next: u32,
    // The kind's number, and the text if it is short.
    front: [u8; SHORT],
    // The last bytes of the postings.
    recent: ShortBytes,
    // The text if it isn't short, and the postings before the recent ones: the difference of each number from the one
    // before it, with -1 before the first, in the shortest unsigned LEB128.
    bytes: Vec<u8>,
}

impl Model for KeyEntry {
    ghost use Rattle.std.specs.Prelude.{◌+◌, ◌≤◌, length};
    ghost use Rattle.mail_index.specs.Tables.{Key};
    ghost use Rattle.mail_index.specs.Inside.KeyMaps.{key_of_bytes, front_holder, key_bytes, AreEntryBytes};

    ghost Value = { Key };

    ghost view = { λ s. key_of_bytes
        (key_bytes s.front (s.text_length + 1) s.bytes.items s.recent) (s.text_length + 1) };

    ghost invariant = { λ s. AreEntryBytes
        (key_bytes s.front (s.text_length + 1) s.bytes.items s.recent) (s.text_length + 1) s.next
        × (s.text_length + 1 ≤ length (front_holder s.front (s.text_length + 1) s.bytes.items)) };
}

impl KeyEntry {
    /// Returns a key of one message. Fails if memory runs out.
    pub(crate) fn new(
        alloc: Global,
        kind: Kind,
        text: &[u8],
        number: u32,
    ) -> Result<Self, AllocError>
        requires number { number < u32.MAX }
        requires short { length text.now < four_byte_limit }
        ensures { IfOk result (λ entry. entry ≡ new_key kind text.now number) }
    {
        let (front, bytes) = front_and_bytes(alloc, kind, text)?;
        Ok(KeyEntry {
            text_length: text.len() as u32,
            next: number + 1,
            front,
            recent: leb128_of(number + 1),
            bytes,
        })
    }

    /// Adds a message's number, unless the last one isn't smaller. If memory runs out, nothing changes.
    pub(crate) fn push(&mut self, number: u32) -> Result<(), AllocError>
        requires { number < u32.MAX }
        ensures ok { OnOk result (self.new ≡ with_one self.old number) }
        ensures err { OnErr result (self.new ≡ self.old) }
    {
        if number < self.next {
            return Ok(());
        }
        let difference = number + 1 - self.next;
        append(&mut self.bytes, &mut self.recent, difference)?;
        self.next = number + 1;
        Ok(())
    }

    /// The number of the key's kind in the file, and the key's text.
    pub(crate) fn number_and_text(&self) -> (u8, &[u8])
        ensures number { result.0 ≡ kind_number self.now.kind }
        ensures text { result.1.now ≡ self.now.text }
        ensures short { length result.1.now < four_byte_limit }
    {
        let length = self.text_length as usize;
        let text = if length < SHORT {
            &self.front[1..length + 1]
        } else {
            self.bytes.split_at(length).0
        };
        (self.front[0], text)
    }

    /// Compares the key with another: first the numbers of their kinds, then their texts.
    pub(crate) fn compare(&self, kind: Kind, text: &[u8]) -> Ordering
        ensures { result ≡ lies_to kind text.now self.now }
    {
        let (own_number, own_text) = self.number_and_text();
        compare_keys(own_number, own_text, kind.number(), text)
    }

    /// Whether this is the key, and has the message's number already.
    #[inline(always)]
    pub(crate) fn has(&self, kind: Kind, text: &[u8], number: u32) -> bool
        ensures { IsTrue result → (lies_to kind text.now self.now ≡ Equal)
            × (with_one self.now number ≡ self.now) }
    {
        number < self.next && self.is_key(kind, text)
    }

    /// Whether this is the key.
    #[inline(always)]
    pub(crate) fn is_key(&self, kind: Kind, text: &[u8]) -> bool
        ensures { result ≡ is_eq (lies_to kind text.now self.now) }
    {
        let (own_number, own_text) = self.number_and_text();
        own_number == kind.number() && is_same_text(own_text, text)
    }

    /// The key's kind.
    pub(crate) fn kind(&self) -> Kind
        ensures { result ≡ self.now.kind }
    {
        Kind::of_number(self.front[0])
    }

    /// The key's text.
    pub(crate) fn text(&self) -> &[u8]
        ensures text { result.now ≡ self.now.text }
        ensures short { length result.now < four_byte_limit }
    {
        self.number_and_text().1
    }

    /// The postings of the key's numbers, in two parts.
    pub(crate) fn postings(&self) -> (&[u8], &[u8])
        ensures bytes { result.0.now ++ result.1.now ≡ postings self.now.numbers }
        ensures small { length result.0.now + length result.1.now < four_byte_limit }
    {
        let length = self.text_length as usize;
        let older = if length < SHORT {
            self.bytes.as_slice()
        } else {
            self.bytes.split_at(length).1
        };
        (older, self.recent.as_slice())
    }

    /// The number of bytes of the key's postings.
    pub(crate) fn postings_length(&self) -> usize
        ensures { result ≡ length (postings self.now.numbers) }
    {
        let (older, recent) = self.postings();
        older.len() + recent.len()
    }
}

/// Whether two texts are the same. Most have two to sixteen bytes, and need no loop.
#[inline(always)]
fn is_same_text(own: &[u8], text: &[u8]) -> bool
    ensures { Decides result (own.now ≡ text.now) }
{
    own.len() == text.len()
        && match own.len() {
            4..=8 => have_same_ends::<4>(own, text),
            9..=16 => have_same_ends::<8>(own, text),
            2..=3 => have_same_ends::<2>(own, text),
            _ => own == text,
        }
}

/// Whether two texts of the same length are the same, by their first N bytes and their last N, which cover them.
fn have_same_ends<const N: usize>(own: &[u8], text: &[u8]) -> bool
    requires length { length own.now ≡ length text.now }
    requires covered { (N ≤ length own.now) × (length own.now ≤ 2 * N) }
    ensures { Decides result (own.now ≡ text.now) }
{
    own.first_chunk::<N>() == text.first_chunk::<N>()
        && own.last_chunk::<N>() == text.last_chunk::<N>()
}

/// Appends a difference's bytes to the recent ones. Most differences have one byte, for which there is mostly room.
fn append(bytes: &mut Vec<u8>, recent: &mut ShortBytes, difference: u32) -> Result<(), AllocError>
    ensures ok { OnOk result
        (bytes.new.items ++ recent.new ≡ bytes.old.items ++ recent.old ++ leb128 5 difference) }
    ensures err { OnErr result ((bytes.new.items ≡ bytes.old.items) × (recent.new ≡ recent.old)) }
    ensures kept { length bytes.old.items ≤ length bytes.new.items }
{
    if difference < 128 && recent.as_slice().len() < ShortBytes::MOST {
        recent.push(difference as u8);
        return Ok(());
    }
    append_any(bytes, recent, difference)
}

/// Does what `append` does for any difference. If there is no room for its bytes, the recent ones are first moved to
/// the others. A function of its own, so that one byte costs no more than its own steps.
#[inline(never)]
fn append_any(
    bytes: &mut Vec<u8>,
    recent: &mut ShortBytes,
    difference: u32,
) -> Result<(), AllocError>
    ensures ok { OnOk result
        (bytes.new.items ++ recent.new ≡ bytes.old.items ++ recent.old ++ leb128 5 difference) }
    ensures err { OnErr result ((bytes.new.items ≡ bytes.old.items) × (recent.new ≡ recent.old)) }
    ensures kept { length bytes.old.items ≤ length bytes.new.items }
{
    let more = leb128_of(difference);
    let more = more.as_slice();
    if recent.as_slice().len() + more.len() > ShortBytes::MOST {
        bytes.extend_from_slice(recent.as_slice())?;
        recent.clear();
    }
    recent.append(more);
    Ok(())
}

/// The kind's number with a short text after it; and any longer text as the bytes outside the entry.
fn front_and_bytes(
    alloc: Global,
    kind: Kind,
    text: &[u8],
) -> Result<([u8; SHORT], Vec<u8>), AllocError>
    requires { length text.now < four_byte_limit }
    ensures { IfOk result (λ parts. HoldsFront kind text.now parts.0 parts.1.items) }
{
    let mut front = [0; SHORT];
    front[0] = kind.number();
    let bytes = if text.len() < SHORT {
        front[1..text.len() + 1].copy_from_slice(text);
        Vec::new(alloc)
    } else {
        Vec::from_slice(alloc, text)?
    };
    Ok((front, bytes))
}
