//! The name of an entity.
ghost use Rattle.std.specs.Prelude.{◌≡◌, ◌≤◌, ◌*◌, length, OnOk, option_map, string_bytes};
ghost use Rattle.header_text.specs.Headers.{fields_size, most_in_header};
ghost use Rattle.mime_text.specs.Names.{unless_empty, name_of, name_text};

use crate::parts::content_type::read_parameter_in;
use header_text::{Fields, decode_words_into};
use std::alloc::AllocError;

/// Writes the name of a header's entity, as written there, into `into`; nothing if it has none.
fn read_name(fields: Fields<'_>, value: &mut Vec<u8>, into: &mut Vec<u8>) -> Result<(), AllocError>
    ensures name { OnOk result (unless_empty (Some into.new.items) ≡ name_of fields.entry) }
    ensures size { OnOk result (length into.new.items ≤ fields_size fields.entry) }
{
    let again = fields.again();
    read_parameter_in(again, b"content-disposition", b"filename", value, into)?;
    if into.is_empty() {
        return read_parameter_in(fields, b"content-type", b"name", value, into);
    }
    Ok(())
}

/// Writes the name of a header's entity (RFC 2183, 2.3), and the name's text. The name is the parameter `filename` of
/// the first Content-Disposition field; if that is missing or empty, it is the parameter `name` of the first
/// Content-Type field. In the text encoded words are decoded (RFC 2047). The name is empty if the entity has none.
/// After an error nothing is promised of the buffers.
pub(crate) fn write_name(
    fields: Fields<'_>,
    name: &mut Vec<u8>,
    scratch: &mut Vec<u8>,
    into: &mut String,
) -> Result<(), AllocError>
    requires { fields_size fields ≤ most_in_header }
    ensures text { OnOk result (option_map (λ _. string_bytes into.new)
        (unless_empty (Some name.new.items)) ≡ name_text fields.entry) }
    ensures name { OnOk result (length name.new.items ≤ most_in_header) }
    ensures size { OnOk result (length (string_bytes into.new) ≤ 3 * most_in_header) }
{
    into.clear();
    read_name(fields, scratch, name)?;
    // Most entities have no name, so nothing has to be decoded.
    if name.is_empty() {
        return Ok(());
    }
    decode_words_into(name, scratch, into)
}
