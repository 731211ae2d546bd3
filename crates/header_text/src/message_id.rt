//! Finds the message ids of a value.
ghost use Rattle.std.specs.Prelude.{◌≡◌, ◌<◌, ◌≤◌, ◌∷◌, ◌++◌, length, map, filter, option_map, All, IfOk, OnOk, OnErr, if◌then◌else◌, nat_lt, []};
ghost use Rattle.header_text.specs.Ids.{ids_of, ids_size, is_id_byte};
ghost use Rattle.header_text.specs.Inside.Ids.{ids_of_texts, after_last_open as after_last_open_of};
ghost use Rattle.header_text.specs.Inside.Fronts.{IsFront};

use crate::cut::cut_at;
use memchr::memrchr;
use std::alloc::{AllocError, Global};

/// Returns what is after the last `<`, if there is one.
fn after_last_open(text: &[u8]) -> Option<&[u8]>
    ensures { option_map (λ t. t.now) result ≡ after_last_open_of text.now }
{
    let at = memrchr(b'<', text)?;
    Some(&text[at + 1..])
}

/// Adds the id that is at the end of the text before a `>`, if there is one.
fn push_id(alloc: Global, ids: &mut Vec<Vec<u8>>, text: &[u8]) -> Result<(), AllocError>
    ensures ids { OnOk result (map (λ id. id.items) ids.new.items
        ≡ map (λ id. id.items) ids.old.items ++ ids_of_texts (text.now ∷ [])) }
    ensures kept { IsFront ids.old.items ids.new.items }
{
    if let Some(inner) = after_last_open(text) {
        let mut id = Vec::from_slice(alloc, inner)?;
        id.retain(|b| !matches!(b, b' ' | b'\t' | b'\r' | b'\n'));
        if !id.is_empty() {
            ids.push(id)?;
        }
    }
    Ok(())
}

/// Adds the ids of a value. If memory runs out, some of them may have been added.
fn push_each(alloc: Global, value: &[u8], ids: &mut Vec<Vec<u8>>) -> Result<(), AllocError>
    ensures ids { OnOk result (map (λ id. id.items) ids.new.items
        ≡ map (λ id. id.items) ids.old.items ++ ids_of value.now) }
    ensures kept { IsFront ids.old.items ids.new.items }
{
    let mut rest = value;
    while let Some((text, after)) = cut_at(b'>', rest) {
        push_id(alloc, ids, text)?;
        rest = after;
    }
    Ok(())
}

/// Adds the ids of a value to the end of a list, in order (RFC 5322, 3.6.4). An id is the text between a `<` and the
/// next `>`, with neither between them, without its spaces, tabs, CRs and LFs. If nothing is left of it, it is left
/// out.
///
/// # Errors
///
/// `AllocError` if memory runs out. Then none is added.
pub fn push_ids(alloc: Global, value: &[u8], ids: &mut Vec<Vec<u8>>) -> Result<(), AllocError>
    ensures ids { OnOk result (map (λ id. id.items) ids.new.items
        ≡ map (λ id. id.items) ids.old.items ++ ids_of value.now) }
    ensures sizes { OnOk result (All (λ id. (0 < length id) × (length id ≤ length value.now))
        (ids_of value.now)) }

    // The bytes of all ids together, with the `<` and the `>` around each.
    ensures size { OnOk result (ids_size (ids_of value.now) ≤ length value.now) }
    ensures refused { OnErr result (ids.new.items ≡ ids.old.items) }
{
    let start = ids.len();
    let outcome = push_each(alloc, value, ids);
    if outcome.is_err() {
        ids.truncate(start);
    }
    outcome
}

/// Returns the ids of a value, as [`push_ids`] adds them. Together they have at most as many bytes as the value.
///
/// # Errors
///
/// `AllocError` if memory runs out.
pub fn message_ids(alloc: Global, value: &[u8]) -> Result<Vec<Vec<u8>>, AllocError>
    ensures ids { IfOk result (λ ids. map (λ id. id.items) ids.items ≡ ids_of value.now) }
    ensures sizes { IfOk result (λ ids. All (λ id. (0 < length id.items)
        × (length id.items ≤ length value.now)) ids.items) }

    // The bytes of all ids together, with the `<` and the `>` around each.
    ensures size { IfOk result (λ ids. ids_size (map (λ id. id.items) ids.items)
        ≤ length value.now) }
{
    let mut ids = Vec::new(alloc);
    push_ids(alloc, value, &mut ids)?;
    Ok(ids)
}
