//! Finds and decodes encoded words (RFC 2047).
ghost use Rattle.std.specs.Prelude.{◌≡◌, ◌<◌, ◌≤◌, ◌+◌, ◌*◌, ◌∷◌, ◌++◌, [], Some, None, length, option_map, MatchOption, IfSome, IfOk, OnOk, string_bytes, if◌then◌else◌};
ghost use Rattle.std.specs.List.{list_all};
ghost use Rattle.bstr.specs.Text.{Extends};
ghost use Rattle.contract_words.specs.Blanks.{is_blank as is_blank_of};
ghost use Rattle.header_text.specs.EncodedWords.{is_charset_byte, is_text_byte, word_of as word_of_parts, word_and_later, value_pieces, text_between, plain_text, word_text, decoded_value};
ghost use Rattle.header_text.specs.Inside.ShownWords.{shown_word, shown_found, no_word, word_first};

use crate::base64_reader::decode_base64_into;
use crate::blanks::after_blanks;
use crate::charset::Charset;
use crate::cut::cut_at;
use crate::escape::decode_q_into;
use crate::text::{decode_into, push_lossy};
use std::alloc::{AllocError, Global};

/// An encoded word: `=?charset?encoding?text?=`.
#[derive(Clone, Copy)]
struct EncodedWord<'a> {
    charset: &'a [u8],
    encoding: u8,
    text: &'a [u8],
}

/// An encoded word that was found, with the text before it and the text after it.
#[derive(Clone, Copy)]
struct Found<'a> {
    between: &'a [u8],
    word: EncodedWord<'a>,
    later: &'a [u8],
}

/// Returns whether all these bytes are allowed in the name of a charset.
fn are_charset_bytes(bytes: &[u8]) -> bool
    ensures { result ≡ list_all is_charset_byte bytes.now }
{
    bytes.iter().all(|b| b.is_ascii_graphic() && *b != b'?')
}

/// Returns whether all these bytes are allowed in the text of an encoded word.
fn is_text(bytes: &[u8]) -> bool
    ensures { result ≡ list_all is_text_byte bytes.now }
{
    bytes
        .iter()
        .all(|b| (b.is_ascii_graphic() || *b == b' ') && *b != b'?')
}

/// Returns the word of these three parts, if they make one.
fn word_of<'a>(charset: &'a [u8], encoding: &[u8], text: &'a [u8]) -> Option<EncodedWord<'a>>
    ensures { option_map shown_word result ≡ word_of_parts charset.now encoding.now text.now }
{
    if let [encoding @ (b'Q' | b'q' | b'B' | b'b')] = encoding
        && !charset.is_empty()
        && are_charset_bytes(charset)
        && is_text(text)
    {
        return Some(EncodedWord {
            charset,
            encoding: *encoding,
            text,
        });
    }
    None
}

/// Returns the encoded word that begins with `=` and these bytes, and what follows it, if there is one.
#[tactic(auto, unfolding(crate::specs::EncodedWords::word_and_later))]
fn word_after(bytes: &[u8]) -> Option<(EncodedWord<'_>, &[u8])>
    ensures { option_map (λ f. (shown_word f.0, f.1.now)) result ≡ word_and_later bytes.now }
{
    if let Some(rest) = bytes.strip_prefix(b"?")
        && let Some((charset, rest)) = cut_at(b'?', rest)
        && let Some((encoding, rest)) = cut_at(b'?', rest)
        && let Some((text, rest)) = cut_at(b'?', rest)
        && let Some(later) = rest.strip_prefix(b"=")
        && let Some(word) = word_of(charset, encoding, text)
    {
        return Some((word, later));
    }
    None
}

/// Finds the leftmost encoded word.
fn find_word(value: &[u8]) -> Option<Found<'_>>
    ensures pieces { MatchOption result (value_pieces value.now ≡ no_word value.now)
        (λ f. value_pieces value.now ≡ word_first (shown_found f) f.later.now) }
    ensures smaller { IfSome result (λ f. length f.between.now + length f.word.text.now + length
        f.later.now < length value.now) }
{
    let mut rest = value;
    while let Some((_, after)) = cut_at(b'=', rest) {
        if let Some((word, later)) = word_after(after) {
            return Some(Found {
                between: &value[..value.len() - after.len() - 1],
                word,
                later,
            });
        }
        rest = after;
    }
    None
}

/// Adds the text before an encoded word. If it is between two of them, and spaces and tabs alone, nothing is added. If
/// memory runs out, a front of the text may have been added.
fn push_between(bytes: &[u8], follows_word: bool, into: &mut String) -> Result<(), AllocError>
    ensures text { OnOk result (string_bytes into.new
        ≡ string_bytes into.old ++ (if follows_word then text_between bytes.now else plain_text
        bytes.now)) }
    ensures size { OnOk result (length (string_bytes into.new)
        ≤ length (string_bytes into.old) + 3 * length bytes.now) }
    ensures kept { Extends (string_bytes into.old) (string_bytes into.new) }
    ensures front { Extends (string_bytes into.new)
        (string_bytes into.old ++ (if follows_word then text_between bytes.now else plain_text
        bytes.now)) }
{
    if follows_word && are_blanks(bytes) {
        return Ok(());
    }
    push_lossy(bytes, into)
}

/// Returns whether all bytes are spaces and tabs.
fn are_blanks(bytes: &[u8]) -> bool
    ensures { result ≡ list_all is_blank_of bytes.now }
{
    after_blanks(bytes).is_empty()
}

/// Adds the text of an encoded word, whose bytes are gathered in `scratch`. If memory runs out, a front of the text may
/// have been added.
fn push_word(
    word: &EncodedWord<'_>,
    scratch: &mut Vec<u8>,
    into: &mut String,
) -> Result<(), AllocError>
    ensures text { OnOk result (string_bytes into.new
        ≡ string_bytes into.old ++ word_text (shown_word word.now)) }
    ensures size { OnOk result (length (string_bytes into.new)
        ≤ length (string_bytes into.old) + 3 * length word.now.text.now) }
    ensures kept { Extends (string_bytes into.old) (string_bytes into.new) }
    ensures front { Extends (string_bytes into.new)
        (string_bytes into.old ++ word_text (shown_word word.now)) }
{
    scratch.clear();
    let gathered = if word.encoding.eq_ignore_ascii_case(&b'q') {
        decode_q_into(word.text, scratch)
    } else {
        decode_base64_into(word.text, scratch)
    };
    gathered?;
    decode_into(Charset::of(word.charset), scratch, into)
}

/// Adds the text of an unfolded value (RFC 2047). Encoded words are found anywhere in it, the leftmost first, and each
/// is decoded alone. If there are only spaces and tabs between two of them, these are dropped. Any other text is read
/// as UTF-8, with U+FFFD for each maximal faulty part. At most three bytes are added for each byte of the value. The
/// bytes of an encoded word are gathered in `scratch`, which is cleared for each.
///
/// # Errors
///
/// `AllocError` if memory runs out. Then the buffer has its old text and a front of what was to be added.
pub fn decode_words_into(
    unfolded: &[u8],
    scratch: &mut Vec<u8>,
    into: &mut String,
) -> Result<(), AllocError>
    ensures text { OnOk result (string_bytes into.new
        ≡ string_bytes into.old ++ decoded_value unfolded.now) }
    ensures size { OnOk result (length (string_bytes into.new)
        ≤ length (string_bytes into.old) + 3 * length unfolded.now) }
    ensures kept { Extends (string_bytes into.old) (string_bytes into.new) }
    ensures front { Extends (string_bytes into.new)
        (string_bytes into.old ++ decoded_value unfolded.now) }
{
    let mut rest = unfolded;
    let mut follows_word = false;
    while let Some(found) = find_word(rest) {
        push_between(found.between, follows_word, into)?;
        push_word(&found.word, scratch, into)?;
        follows_word = true;
        rest = found.later;
    }
    push_lossy(rest, into)
}

/// Returns the text of an unfolded value (RFC 2047), as [`decode_words_into`] adds it.
///
/// # Errors
///
/// `AllocError` if memory runs out.
pub fn decode_words(alloc: Global, unfolded: &[u8]) -> Result<String, AllocError>
    ensures text { IfOk result (λ text. string_bytes text ≡ decoded_value unfolded.now) }
    ensures size { IfOk result (λ text. length (string_bytes text) ≤ 3 * length unfolded.now) }
{
    let mut text = String::new(alloc);
    let mut scratch = Vec::new(alloc);
    decode_words_into(unfolded, &mut scratch, &mut text).and(Ok(text))
}
