//! The tags of HTML.
ghost use Rattle.std.specs.Prelude.{◌≡◌, ◌≤◌, ◌+◌, ◌++◌, true, false, length, replicate, option_map, IfOk, IfSome, OnOk, string_bytes, encode_utf8_all};
ghost use Rattle.std.specs.Str.{chars};
ghost use Rattle.header_text.specs.Cuts.{cut_at as cut_at_of};
ghost use Rattle.header_text.specs.Charsets.{text_of};
ghost use Rattle.header_text.specs.declared.charset.Charset.{Charset};
ghost use Rattle.mime_text.specs.OpenTags.{blanked_tags, is_tag_open_after_all};
ghost use Rattle.mime_text.specs.Inside.TagSpans.{span_end, shown_span};

use header_text::cut_at;
use std::alloc::AllocError;

/// The most spaces that are added at once.
const SPACES: &str = "                                                                ";

/// Whether a quick look finds that no character of a text is in a tag, if one is open before it or none is.
pub(crate) fn is_free_of_tags(open_before: bool, text: &str) -> bool
    ensures text { result ≡ true → encode_utf8_all (blanked_tags open_before (chars text.now))
        ≡ text.now }
    ensures is_open { result ≡ true → is_tag_open_after_all open_before (chars text.now)
        ≡ open_before }
{
    if open_before {
        return false;
    }
    cut_at(b'<', text.as_bytes()).is_none()
}

/// Returns the text of a line before which a tag is open, if a quick look finds that it is spaces alone: the line is
/// ASCII, has no `>`, and is no longer than `SPACES`.
pub(crate) fn spaces_in_tag(line: &[u8]) -> Option<&'static str>
    ensures text { IfSome result (λ spaces. (charset : Charset)
        → (spaces.now ≡ encode_utf8_all (blanked_tags true (chars (text_of charset line.now))))
        × (is_tag_open_after_all true (chars (text_of charset line.now)) ≡ true)) }
    ensures size { IfSome result (λ spaces. length spaces.now ≤ 64) }
{
    if line.len() > SPACES.len() || !line.is_ascii() || cut_at(b'>', line).is_some() {
        return None;
    }
    Some(&SPACES[..line.len()])
}

/// Returns the number of characters of a text.
fn character_count(text: &str) -> usize
    ensures { result ≡ length (chars text.now) }
{
    if text.is_ascii() {
        text.len()
    } else {
        text.chars().count()
    }
}

/// Adds this many spaces.
fn push_spaces(count: usize, into: &mut String) -> Result<(), AllocError>
    ensures { OnOk result (string_bytes into.new ≡ string_bytes into.old ++ replicate count 0x20) }
{
    let mut left = count;
    while left > 0 {
        let some = left.min(SPACES.len());
        into.push_str(&SPACES[..some])?;
        left -= some;
    }
    Ok(())
}

/// Adds a span: in a tag a space for each character, and outside tags the span as it is.
#[tactic(auto, using(crate::proofs::TagReads::written_tag, crate::proofs::TagReads::written_outside))]
fn push_span(in_tag: bool, span: &str, into: &mut String) -> Result<(), AllocError>
    ensures { OnOk result (string_bytes into.new ≡ string_bytes into.old ++ encode_utf8_all
        (shown_span in_tag (chars span.now))) }
{
    if in_tag {
        push_spaces(character_count(span), into)
    } else {
        into.push_str(span)
    }
}

/// Returns the character that ends a span: `>` in a tag, and `<` outside tags.
fn end_of_span(in_tag: bool) -> char
    ensures { result ≡ span_end in_tag }
{
    if in_tag { '>' } else { '<' }
}

/// Adds a text with a space for each character in a tag. A tag goes from a `<` to the next `>`, or to the end. Returns
/// whether a tag is open after the text; one may be open before it.
pub(crate) fn blank_tags(
    open_before: bool,
    text: &str,
    into: &mut String,
) -> Result<bool, AllocError>
    ensures text { OnOk result (string_bytes into.new
        ≡ string_bytes into.old ++ encode_utf8_all (blanked_tags open_before (chars text.now))) }
    ensures is_open { IfOk result (λ after. after ≡ is_tag_open_after_all open_before
        (chars text.now)) }
    ensures size { OnOk result (length (string_bytes into.new)
        ≤ length (string_bytes into.old) + length text.now) }
{
    let mut is_open = open_before;
    let mut rest = text;
    while let Some((span, after)) = rest.split_once(end_of_span(is_open)) {
        push_span(is_open, span, into)?;
        // The character at which the text was cut is part of the tag too.
        into.push(' ')?;
        is_open = !is_open;
        rest = after;
    }
    push_span(is_open, rest, into)?;
    Ok(is_open)
}
