//! Fronts of keys. If the fronts of two keys differ, the key with the smaller front comes first.
ghost use Rattle.mail_index.specs.Inside.KeyFronts.{IsFrontOfKey};

use crate::kind::Kind;

/// The number of bytes of a text in a front, after the kind's number.
const TEXT_BYTES: usize = 7;

/// The number of an entry, and the front of its key.
///
/// The fronts of many keys are close together in memory, while reading an entry mostly costs a delay. So a search reads
/// an entry only if its front is the wanted one.
#[derive(Clone, Copy)]
pub(crate) struct Fronted {
    pub number: u32,
    pub front: u64,
}

/// The kind's number and the first seven bytes of the text, filled up with zeros, as one number.
pub(crate) fn front_of_key(kind: Kind, text: &[u8]) -> u64
    ensures { IsFrontOfKey kind text.now result }
{
    let length = text.len().min(TEXT_BYTES);
    let mut bytes = [0; TEXT_BYTES + 1];
    bytes[0] = kind.number();
    bytes[1..length + 1].copy_from_slice(&text[..length]);
    u64::from_be_bytes(bytes)
}
