//! The parameters of a field (RFC 2045, 5.1; RFC 2183, 2), read leniently.
ghost use Rattle.std.specs.Prelude.{◌≡◌, ◌<◌, ◌≤◌, ◌++◌, [], length, IfOk, OnOk, option_map, unwrap_or};
ghost use Rattle.std.specs.Option.{option_map_or};
ghost use Rattle.header_text.specs.Blanks.{split_while};
ghost use Rattle.header_text.specs.Names.{is_named as is_named_of};
ghost use Rattle.mime_text.specs.Parameters.{quoted_and_rest, is_token_byte as is_token_byte_of, is_parameter_name_byte as is_parameter_name_byte_of, value_and_rest, piece_of, after_semicolon as after_semicolon_of, parameter as parameter_of};

use header_text::{after_blanks, cut_at, is_named, trimmed};
use std::alloc::AllocError;

/// Returns the bytes after a value without quotes.
fn after_token(bytes: &[u8]) -> &[u8]
    ensures { result.now ≡ (split_while is_token_byte_of bytes.now).1 }
{
    let mut rest = bytes;
    while let Some((first, others)) = rest.split_first()
        && *first != b';'
        && *first != b' '
        && *first != b'\t'
    {
        rest = others;
    }
    rest
}

/// Returns the bytes after a name.
fn after_name(bytes: &[u8]) -> &[u8]
    ensures { result.now ≡ (split_while is_parameter_name_byte_of bytes.now).1 }
{
    let mut rest = bytes;
    while let Some((first, others)) = rest.split_first()
        && *first != b';'
        && *first != b'='
    {
        rest = others;
    }
    rest
}

/// Adds what is in quotes, from after the first quote, and returns what follows the quotes.
fn read_quoted<'a>(text: &'a [u8], into: &mut Vec<u8>) -> Result<&'a [u8], AllocError>
    ensures value { IfOk result (λ rest. into.new.items ≡ into.old.items ++
        (quoted_and_rest text.now).0) }
    ensures rest { IfOk result (λ rest. rest.now ≡ (quoted_and_rest text.now).1) }
{
    let mut rest = text;
    while let Some((first, others)) = rest.split_first() {
        if *first == b'"' {
            return Ok(others);
        }
        if *first == b'\\' {
            match others.split_first() {
                Some((next, later)) => {
                    into.push(*next)?;
                    rest = later;
                }
                None => return Ok(others),
            }
        } else {
            into.push(*first)?;
            rest = others;
        }
    }
    Ok(rest)
}

/// Adds the value that begins a text, and returns what follows it.
fn read_value<'a>(text: &'a [u8], into: &mut Vec<u8>) -> Result<&'a [u8], AllocError>
    ensures value { IfOk result (λ rest. into.new.items
        ≡ into.old.items ++ (value_and_rest text.now).0) }
    ensures rest { IfOk result (λ rest. rest.now ≡ (value_and_rest text.now).1) }
{
    if let Some(quoted) = text.strip_prefix(b"\"") {
        return read_quoted(quoted, into);
    }
    let rest = after_token(text);
    let token = &text[..text.len() - rest.len()];
    into.extend_from_slice(token).and(Ok(rest))
}

/// What is between a semicolon and the next one.
#[derive(Clone, Copy)]
struct Piece<'a> {
    /// The name of the parameter; None if the piece is no parameter.
    name: Option<&'a [u8]>,
    /// What follows the next semicolon; None if there is no other semicolon.
    later: Option<&'a [u8]>,
}

/// Returns what follows the first semicolon; None if there is none.
fn after_semicolon(text: &[u8]) -> Option<&[u8]>
    ensures { option_map (λ rest. rest.now) result ≡ after_semicolon_of text.now }
{
    let (_, tail) = cut_at(b';', text)?;
    Some(tail)
}

/// Reads the piece after a semicolon, and writes its value into the buffer, if it is a parameter.
#[tactic(auto, unfolding(crate::specs::Parameters::piece_of))]
fn read_piece<'a>(text: &'a [u8], into: &mut Vec<u8>) -> Result<Piece<'a>, AllocError>
    ensures parameter { IfOk result (λ piece. option_map
        (λ name. record { name = name.now; value = into.new.items }) piece.name
        ≡ (piece_of text.now).parameter) }
    ensures later { IfOk result (λ piece. option_map (λ rest. rest.now) piece.later
        ≡ (piece_of text.now).later) }
{
    into.clear();
    let tail = after_name(text);
    let name = &text[..text.len() - tail.len()];
    match tail.split_first() {
        Some((sign, rest)) if *sign == b'=' => {
            let after = read_value(after_blanks(rest), into)?;
            Ok(Piece {
                name: Some(trimmed(name)),
                later: after_semicolon(after),
            })
        }
        Some((_, rest)) => Ok(Piece {
            name: None,
            later: Some(rest),
        }),
        None => Ok(Piece {
            name: None,
            later: None,
        }),
    }
}

/// Writes the value of an unfolded value's first parameter with this name, in any ASCII case; nothing if there is none.
///
/// # Errors
///
/// `AllocError` if memory runs out.
pub fn read_parameter(value: &[u8], name: &[u8], into: &mut Vec<u8>) -> Result<(), AllocError>
    ensures value { OnOk result (into.new.items ≡ unwrap_or (parameter_of name.now value.now) []) }
    ensures size { OnOk result (length into.new.items ≤ length value.now) }
{
    let mut rest = after_semicolon(value);
    while let Some(text) = rest {
        let piece = read_piece(text, into)?;
        if let Some(found) = piece.name
            && is_named(found, name)
        {
            return Ok(());
        }
        rest = piece.later;
    }
    into.clear();
    Ok(())
}
