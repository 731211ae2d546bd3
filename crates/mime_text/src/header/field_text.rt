//! The texts of a header's fields, and of an entity's name.
ghost use Rattle.std.specs.Prelude.{◌≡◌, ◌≤◌, ◌*◌, length, option_map, IfSome, OnOk, string_bytes};
ghost use Rattle.header_text.specs.Headers.{fields_size, most_in_header};
ghost use Rattle.mime_text.specs.Names.{name_text, unless_empty};
ghost use Rattle.mime_text.specs.FieldTexts.{kind_of_field as kind_of_field_of, text_of_body};
ghost use Rattle.mime_text.specs.Limits.{most_in_header_text};

use crate::header::name::write_name;
use header_text::{Fields, decode_words_into, is_named, unfold_into};
use mail_words::TextKind;
use std::alloc::{AllocError, Global};

/// Returns the kind of the text of a field with this name, in any ASCII case; None unless it is one of the five.
pub(crate) fn kind_of_field(name: &[u8]) -> Option<TextKind>
    ensures { result ≡ kind_of_field_of name.now }
{
    let kind = if is_named(name, b"to") {
        TextKind::To
    } else if is_named(name, b"cc") {
        TextKind::Cc
    } else if is_named(name, b"bcc") {
        TextKind::Bcc
    } else if is_named(name, b"from") {
        TextKind::From
    } else if is_named(name, b"subject") {
        TextKind::Subject
    } else {
        return None;
    };
    Some(kind)
}

/// Writes the unfolded body, and its text. After an error nothing is promised of the buffers.
fn write_text(
    body: &[u8],
    unfolded: &mut Vec<u8>,
    scratch: &mut Vec<u8>,
    into: &mut String,
) -> Result<(), AllocError>
    ensures text { OnOk result (string_bytes into.new ≡ text_of_body body.now) }
    ensures unfolded { OnOk result (length unfolded.new.items ≤ length body.now) }
    ensures size { OnOk result (length (string_bytes into.new) ≤ 3 * length body.now) }
{
    unfolded.clear();
    unfold_into(body, unfolded)?;
    into.clear();
    decode_words_into(unfolded, scratch, into)
}

/// Reads the bodies of fields and the names of entities. Its memory is used again for each, and is bounded by what is
/// kept of a header.
#[derive(Drop)]
pub(crate) struct FieldReader {
    unfolded: Vec<u8>,
    scratch: Vec<u8>,
    text: String,
    ghost unfolded_fits: { length unfolded.items ≤ most_in_header },
    ghost scratch_is_empty: { length scratch.items ≤ 0 },
    ghost text_fits: { length (string_bytes text) ≤ most_in_header_text },
}

impl FieldReader {
    /// Takes no memory before the first body.
    pub(crate) fn new(alloc: Global) -> Self {
        FieldReader {
            unfolded: Vec::new(alloc),
            scratch: Vec::new(alloc),
            text: String::new(alloc),
        }
    }

    /// Reads the text of a body: unfolded, with its encoded words decoded (RFC 2047). The text has at most three bytes
    /// for each byte of the body. If memory runs out, nothing is kept.
    pub(crate) fn read(&mut self, body: &[u8]) -> Result<(), AllocError>
        requires { length body.now ≤ most_in_header }
        ensures text { OnOk result (string_bytes self.new.text ≡ text_of_body body.now) }
        ensures size { OnOk result (length (string_bytes self.new.text) ≤ 3 * length body.now) }
    {
        let outcome = write_text(body, &mut self.unfolded, &mut self.scratch, &mut self.text);
        self.scratch.clear();
        if outcome.is_err() {
            self.unfolded.clear();
            self.text.clear();
        }
        outcome
    }

    /// Returns the text that was read last.
    pub(crate) fn text(&self) -> &str
        ensures text { result.now ≡ string_bytes self.now.text }
        ensures size { length result.now ≤ most_in_header_text }
    {
        self.text.as_str()
    }

    /// Reads the name of a header's entity, which is empty if the entity has none. If memory runs out, nothing is kept.
    pub(crate) fn read_name(&mut self, fields: Fields<'_>) -> Result<(), AllocError>
        requires { fields_size fields ≤ most_in_header }
        ensures { OnOk result (option_map (λ _. string_bytes self.new.text)
            (unless_empty (Some self.new.unfolded.items)) ≡ name_text fields.entry) }
    {
        let outcome = write_name(
            fields,
            &mut self.unfolded,
            &mut self.scratch,
            &mut self.text,
        );
        self.scratch.clear();
        if outcome.is_err() {
            self.unfolded.clear();
            self.text.clear();
        }
        outcome
    }

    /// Returns the text of the name that was read last; None if the entity has no name. The text has at most three
    /// bytes for each byte of the name.
    pub(crate) fn name(&self) -> Option<&str>
        ensures text { option_map (λ text. text.now) result
            ≡ option_map (λ _. string_bytes self.now.text)
            (unless_empty (Some self.now.unfolded.items)) }
        ensures size { IfSome result (λ text. length text.now ≤ most_in_header_text) }
    {
        (!self.unfolded.is_empty()).then_some(self.text.as_str())
    }
}
