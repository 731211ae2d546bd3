//! The sections of an index file about its keys: directory, texts and postings.
ghost use Rattle.std.specs.Prelude.{◌≡◌, ◌-◌, ◌^◌, ◌<◌, length, map};
ghost use Rattle.contract_words.specs.Devices.{Counts};
ghost use Rattle.mail_index.specs.Files.{entry_of_key, texts_of, postings_of};
ghost use Rattle.mail_index.specs.Inside.KeyParts.{key_part, keys_from};
ghost use Rattle.mail_index.specs.Inside.Signing.{WritesSigned};

use crate::build::file_out::{Signer, send_parts, send_signed};
use crate::build::key_entry::KeyEntry;
use crate::build::keys_in_order::KeysInOrder;
use mbox_cutter::{DeviceFault, Out};

/// The number of bytes of the keys' texts, and of their postings.
pub(crate) fn key_bytes(keys: KeysInOrder<'_>) -> (u64, u64)
    requires texts { length (texts_of (map entry_of_key keys)) < 2 ^ 64 }
    requires postings { length (postings_of (map entry_of_key keys)) < 2 ^ 64 }
    ensures texts { result.0 ≡ length (texts_of (map entry_of_key keys.entry)) }
    ensures postings { result.1 ≡ length (postings_of (map entry_of_key keys.entry)) }
{
    let mut texts = 0;
    let mut postings = 0;
    for key in keys {
        texts += key.text().len() as u64;
        postings += key.postings_length() as u64;
    }
    (texts, postings)
}

/// A part of a key that is written in one of the sections: its entry in the directory, its text, or its postings.
#[derive(Clone, Copy)]
pub(crate) enum KeyPart {
    Entry,
    Text,
    Postings,
}

/// Writes this part of each key.
pub(crate) fn send_keys<O: Out>(
    out: &mut O,
    signer: &mut Signer,
    part: KeyPart,
    keys: KeysInOrder<'_>,
) -> Result<(), DeviceFault>
    requires count { O.failures out.old < 2 ^ 64 - 1 }
    requires texts { length (texts_of (map entry_of_key keys)) < 2 ^ 64 }
    requires postings { length (postings_of (map entry_of_key keys)) < 2 ^ 64 }
    ensures written { WritesSigned result (O.taken out.old) (O.taken out.new) signer.old signer.new
        (keys_from part 0 0 (map entry_of_key keys.entry)) }
    ensures count { Counts result (O.failures out.old) (O.failures out.new) }
{
    let mut text_place = 0;
    let mut place = 0;
    for key in keys {
        send_key(out, signer, part, key, text_place, place)?;
        text_place += key.text().len() as u64;
        place += key.postings_length() as u64;
    }
    Ok(())
}

/// Writes this part of a key. Its entry is its kind, the length of its text, and the places of its text and of its
/// postings.
///
/// A function of its own: inside the loop over keys the compiler would copy each part by a call.
fn send_key<O: Out>(
    out: &mut O,
    signer: &mut Signer,
    part: KeyPart,
    key: &KeyEntry,
    text_place: u64,
    place: u64,
) -> Result<(), DeviceFault>
    requires { O.failures out.old < 2 ^ 64 - 1 }
    ensures written { WritesSigned result (O.taken out.old) (O.taken out.new) signer.old signer.new
        (key_part part text_place place (entry_of_key key.now)) }
    ensures count { Counts result (O.failures out.old) (O.failures out.new) }
{
    match part {
        KeyPart::Entry => {
            let (number, text) = key.number_and_text();
            let front = [[number, 0, 0, 0], (text.len() as u32).to_be_bytes()];
            let places = [text_place.to_be_bytes(), place.to_be_bytes()];
            send_parts(out, signer, &[front.as_flattened(), places.as_flattened()])
        }
        KeyPart::Text => send_signed(out, signer, key.text()),
        KeyPart::Postings => {
            let (older, recent) = key.postings();
            send_parts(out, signer, &[older, recent])
        }
    }
}
