//! What an entity is, by its header.
ghost use Rattle.std.specs.Prelude.{◌≡◌, ◌≤◌, ℕ, true, false, List, [], length, unwrap_or, IfOk, OnOk};
ghost use Rattle.mime_text.specs.Parameters.{parameter};
ghost use Rattle.header_text.specs.Headers.{fields_of, fields_size};
ghost use Rattle.header_text.specs.HeldLines.{HasLines};
ghost use Rattle.mime_text.specs.Types.{first_value, type_text as type_text_of, has_slash as has_slash_of, media_type as media_type_of, default_type, default_in as default_in_of, is_multipart as is_multipart_of, shape_of_single as shape_of_single_of, shape_of_value, shape_of, charset_of_value, charset_in, transfer_in};

use crate::header::giving::has_fields;
use crate::leaf::transfer::TransferEncoding;
use crate::parts::boundary::Boundary;
use crate::parts::parameter::read_parameter;
use crate::parts::shape::{DefaultType, Shape};
use header_text::{Charset, Fields, Header, cut_at, is_named, trimmed, unfold_into};
use std::alloc::{AllocError, Global};

/// What an entity's header says of its body.
#[derive(Drop)]
pub struct EntityType {
    /// What the entity is, by its first Content-Type field (RFC 2045, 5).
    pub shape: Shape,
    /// The charset of its text, by that field's first parameter `charset`.
    pub charset: Charset,
    /// The encoding of its body, by its first Content-Transfer-Encoding field (RFC 2045, 6).
    pub transfer: TransferEncoding,
}

/// Writes the unfolded value of the first field with this name, in any ASCII case; nothing if there is none.
#[tactic(auto, unfolding(header_text::specs::Unfolding::unfolded_body, header_text::specs::Blanks::before_blanks))]
fn read_first_value(fields: Fields<'_>, name: &[u8], into: &mut Vec<u8>) -> Result<(), AllocError>
    ensures value { OnOk result (into.new.items ≡ first_value name.now fields.entry) }
    ensures size { OnOk result (length into.new.items ≤ fields_size fields.entry) }
{
    into.clear();
    match fields.first_body(name) {
        Some(body) => unfold_into(body, into),
        None => Ok(()),
    }
}

/// Writes the unfolded value of the first field with one name, and the value of its first parameter with another name;
/// nothing if it is missing.
pub(crate) fn read_parameter_in(
    fields: Fields<'_>,
    field: &[u8],
    name: &[u8],
    value: &mut Vec<u8>,
    into: &mut Vec<u8>,
) -> Result<(), AllocError>
    ensures field { OnOk result (value.new.items ≡ first_value field.now fields.entry) }
    ensures value { OnOk result (into.new.items
        ≡ unwrap_or (parameter name.now (first_value field.now fields.entry)) []) }
    ensures size { OnOk result (length into.new.items ≤ fields_size fields.entry) }
{
    read_first_value(fields, field, value)?;
    read_parameter(value, name, into)
}

/// Returns the type that a Content-Type field's value names before its first semicolon; the default if it names none.
fn media_type(default: DefaultType, value: &[u8]) -> &[u8]
    ensures { result.now ≡ media_type_of default value.now }
{
    let (front, _) = cut_at(b';', value).unwrap_or((value, b""));
    let text = trimmed(front);
    if text.contains(&b'/') {
        return text;
    }
    match default {
        DefaultType::TextPlain => b"text/plain",
        DefaultType::MessageRfc822 => b"message/rfc822",
    }
}

/// Whether a type is a multipart, of any kind.
fn is_multipart(name: &[u8]) -> bool
    ensures { result ≡ is_multipart_of name.now }
{
    is_named(&name[..name.len().min(10)], b"multipart/")
}

/// Returns the type of the entities in a multipart of this type that don't name theirs.
fn default_in(name: &[u8]) -> DefaultType
    ensures { result ≡ default_in_of name.now }
{
    if is_named(name, b"multipart/digest") {
        DefaultType::MessageRfc822
    } else {
        DefaultType::TextPlain
    }
}

/// Returns what an entity of this type is, which isn't a multipart.
fn shape_of_single(name: &[u8]) -> Shape
    ensures { result ≡ shape_of_single_of name.now }
{
    if is_named(name, b"message/rfc822") {
        return Shape::Message;
    }
    if is_named(name, b"text/plain") {
        return Shape::Text { is_html: false };
    }
    if is_named(name, b"text/html") {
        return Shape::Text { is_html: true };
    }
    Shape::Other
}

/// Returns what an entity is whose Content-Type field has this value.
#[tactic(auto, unfolding(crate::specs::Types::shape_of_value))]
fn read_shape(default: DefaultType, value: &[u8], buffer: &mut Vec<u8>) -> Result<Shape, AllocError>
    ensures { IfOk result (λ shape. shape ≡ shape_of_value default value.now) }
{
    let name = media_type(default, value);
    if !is_multipart(name) {
        return Ok(shape_of_single(name));
    }
    read_parameter(value, b"boundary", buffer)?;
    let shape = match Boundary::new(buffer) {
        Some(boundary) => Shape::Multipart {
            boundary,
            default: default_in(name),
        },
        None => Shape::Text { is_html: false },
    };
    Ok(shape)
}

/// Whether an entity is plain text because that is its default and its header has no fields.
pub(crate) fn is_bare_text(default: DefaultType, header: &Header) -> bool
    ensures shape { result ≡ true → (ls : List (List ℕ)) → HasLines header.now ls
        → shape_of default (fields_of ls) ≡ Shape.Text false }
    ensures charset { result ≡ true → (ls : List (List ℕ)) → HasLines header.now ls
        → charset_in (fields_of ls) ≡ Charset.Utf8 }
    ensures transfer { result ≡ true → (ls : List (List ℕ)) → HasLines header.now ls
        → transfer_in (fields_of ls) ≡ TransferEncoding.Identity }
{
    match default {
        DefaultType::TextPlain => !has_fields(header.fields()),
        DefaultType::MessageRfc822 => false,
    }
}

impl EntityType {
    /// Returns what the fields of an entity's header say. Nothing is promised of the buffers after that.
    #[tactic(auto, unfolding(crate::specs::Types::charset_of_value))]
    fn read(
        default: DefaultType,
        fields: Fields<'_>,
        value: &mut Vec<u8>,
        buffer: &mut Vec<u8>,
    ) -> Result<Self, AllocError>
        ensures shape { IfOk result (λ entity. entity.shape ≡ shape_of default fields.entry) }
        ensures charset { IfOk result (λ entity. entity.charset ≡ charset_in fields.entry) }
        ensures transfer { IfOk result (λ entity. entity.transfer ≡ transfer_in fields.entry) }
    {
        read_first_value(fields.again(), b"content-transfer-encoding", value)?;
        let transfer = TransferEncoding::named(value);
        read_parameter_in(fields, b"content-type", b"charset", value, buffer)?;
        let charset = Charset::of(buffer);
        let shape = read_shape(default, value, buffer)?;
        Ok(EntityType {
            shape,
            charset,
            transfer,
        })
    }

    /// Returns what a header says of its entity's body, by the lines that the header was given.
    ///
    /// # Errors
    ///
    /// `AllocError` if memory runs out.
    pub fn of(alloc: Global, default: DefaultType, header: &Header) -> Result<Self, AllocError>
        ensures shape { IfOk result (λ entity. (ls : List (List ℕ)) → HasLines header.now ls
            → entity.shape ≡ shape_of default (fields_of ls)) }
        ensures charset { IfOk result (λ entity. (ls : List (List ℕ)) → HasLines header.now ls
            → entity.charset ≡ charset_in (fields_of ls)) }
        ensures transfer { IfOk result (λ entity. (ls : List (List ℕ)) → HasLines header.now ls
            → entity.transfer ≡ transfer_in (fields_of ls)) }
    {
        let mut value = Vec::new(alloc);
        let mut buffer = Vec::new(alloc);
        EntityType::read(default, header.fields(), &mut value, &mut buffer)
    }
}
