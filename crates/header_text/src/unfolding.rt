//! Unfolds the bodies of fields to one line.
ghost use Rattle.std.specs.Prelude.{◌≡◌, ◌++◌, ◌+◌, ◌≤◌, length, take, drop, nat_lt, IfOk, OnOk, OnErr, is_ok, vec_len, if◌then◌else◌};
ghost use Rattle.bstr.specs.Text.{Extends};
ghost use Rattle.header_text.specs.Blanks.{after_blanks as after_blanks_of, before_blanks as before_blanks_of};
ghost use Rattle.header_text.specs.Unfolding.{unfolded_body, without_breaks};
ghost use Rattle.header_text.specs.Inside.Breaks.{added_part};

use crate::blanks::{after_blanks, before_blanks};
use crate::cut::cut_at;
use std::alloc::{AllocError, Global};

/// Adds a part of a body. Until a byte of the body was added at `start`, the spaces and tabs at the front of each part
/// are left out.
fn add_part(into: &mut Vec<u8>, start: usize, part: &[u8]) -> Result<(), AllocError>
    ensures part { OnOk result (into.new.items ≡ into.old.items ++ added_part
        (nat_lt start (length into.old.items)) part.now) }
    ensures kept { Extends into.old.items into.new.items }
{
    let part = if into.len() > start {
        part
    } else {
        after_blanks(part)
    };
    into.extend_from_slice(part)
}

/// Adds a body without line breaks, and without spaces and tabs at the front. It begins at `start`, which is the end of
/// the buffer. If memory runs out, a front of it may have been added.
fn add_lines(body: &[u8], start: usize, into: &mut Vec<u8>) -> Result<(), AllocError>
    requires { start ≡ length into.old.items }
    ensures text { OnOk result (into.new.items
        ≡ into.old.items ++ after_blanks_of (without_breaks body.now)) }
    ensures kept { Extends into.old.items into.new.items }
{
    let mut rest = body;
    while let Some((line, after)) = cut_at(b'\n', rest) {
        add_part(into, start, line.strip_suffix(b"\r").unwrap_or(line))?;
        rest = after;
    }
    add_part(into, start, rest)
}

/// Adds a field's body in one line, without line breaks, and without spaces and tabs at both ends (RFC 5322, 2.2.3). At
/// most as many bytes are added as the body has.
///
/// # Errors
///
/// `AllocError` if memory runs out. Then nothing is added.
pub fn unfold_into(body: &[u8], into: &mut Vec<u8>) -> Result<(), AllocError>
    ensures text { OnOk result (into.new.items ≡ into.old.items ++ unfolded_body body.now) }
    ensures size { OnOk result (length into.new.items ≤ length into.old.items + length body.now) }
    ensures refused { OnErr result (into.new.items ≡ into.old.items) }
{
    let start = into.len();
    if let Err(want) = add_lines(body, start, into) {
        into.truncate(start);
        return Err(want);
    }
    let end = start + before_blanks(&into[start..]).len();
    into.truncate(end);
    Ok(())
}

/// Returns a field's body in one line, as [`unfold_into`] adds it.
///
/// # Errors
///
/// `AllocError` if memory runs out.
pub fn unfold(alloc: Global, body: &[u8]) -> Result<Vec<u8>, AllocError>
    ensures text { IfOk result (λ value. value.items ≡ unfolded_body body.now) }
    ensures size { IfOk result (λ value. length value.items ≤ length body.now) }
{
    let mut value = Vec::new(alloc);
    unfold_into(body, &mut value).and(Ok(value))
}
