//! The text of a line, in memory that is used again.
ghost use Rattle.std.specs.Prelude.{◌≡◌, ℕ, ◌≤◌, List, length, IfSome, IfOk, OnOk, string_bytes, encode_utf8_all};
ghost use Rattle.std.specs.Str.{chars};
ghost use Rattle.header_text.specs.Charsets.{text_of};
ghost use Rattle.mime_text.specs.OpenTags.{blanked_tags, is_tag_open_after_all};
ghost use Rattle.mime_text.specs.Inside.Showing.{Shows};
ghost use Rattle.mime_text.specs.Limits.{most_in_line, most_in_line_text};

use crate::fault::TextFault;
use crate::leaf::own_text::own_text;
use crate::leaf::tags::{blank_tags, is_free_of_tags, spaces_in_tag};
use crate::sink::{TextSink, give_text};
use header_text::{Charset, decode_into};
use mail_words::TextKind;
use std::alloc::{AllocError, Global};

/// Memory for the text of a line, and for the text without tags. It is used again for each line.
#[derive(Drop)]
pub(crate) struct TextBuffers {
    text: String,
    blanked: String,
    ghost text_fits: { length (string_bytes text) ≤ most_in_line_text },
    ghost blanked_fits: { length (string_bytes blanked) ≤ most_in_line_text },
}

/// Writes the text of a line; nothing if memory runs out.
fn write_text(charset: Charset, line: &[u8], into: &mut String) -> Result<(), AllocError>
    requires { length line.now ≤ most_in_line }
    ensures text { OnOk result (string_bytes into.new ≡ text_of charset line.now) }
    ensures size { length (string_bytes into.new) ≤ most_in_line_text }
{
    into.clear();
    let outcome = decode_into(charset, line, into);
    if outcome.is_err() {
        into.clear();
    }
    outcome
}

/// Writes a text without its tags; nothing if memory runs out. Returns whether a tag is open after it.
fn write_blanked(open_before: bool, text: &str, into: &mut String) -> Result<bool, AllocError>
    requires { length text.now ≤ most_in_line_text }
    ensures text { OnOk result (string_bytes into.new
        ≡ encode_utf8_all (blanked_tags open_before (chars text.now))) }
    ensures is_open { IfOk result (λ after. after ≡ is_tag_open_after_all open_before
        (chars text.now)) }
    ensures size { length (string_bytes into.new) ≤ most_in_line_text }
{
    into.clear();
    let outcome = blank_tags(open_before, text, into);
    if outcome.is_err() {
        into.clear();
    }
    outcome
}

impl TextBuffers {
    /// Returns buffers without text. They take no memory.
    pub(crate) fn new(alloc: Global) -> Self {
        TextBuffers {
            text: String::new(alloc),
            blanked: String::new(alloc),
        }
    }

    /// Gives the text of a line to the sink.
    pub(crate) fn show_plain<S: TextSink>(
        &mut self,
        charset: Charset,
        line: &[u8],
        sink: &mut S,
    ) -> Result<(), TextFault>
        requires { length line.now ≤ most_in_line }
        ensures { Shows S.takes S.refuses TextKind.Body (text_of charset line.now) result
            sink.old sink.new }
    {
        if let Some(text) = own_text(charset, line) {
            return give_text(TextKind::Body, text, sink);
        }
        write_text(charset, line, &mut self.text)?;
        give_text(TextKind::Body, self.text.as_str(), sink)
    }

    /// Writes the text of a line without its tags; if the line is its own text, it isn't decoded. Returns whether a tag
    /// is open after it.
    fn write_blanked_line(
        &mut self,
        charset: Charset,
        open_before: bool,
        line: &[u8],
        own: Option<&str>,
    ) -> Result<bool, AllocError>
        requires short { length line.now ≤ most_in_line }
        requires own { IfSome own (λ text. (text.now ≡ line.now)
            × (text.now ≡ text_of charset line.now)) }
        ensures text { OnOk result (string_bytes self.new.blanked
            ≡ encode_utf8_all (blanked_tags open_before (chars (text_of charset line.now)))) }
        ensures is_open { IfOk result (λ after. after
            ≡ is_tag_open_after_all open_before (chars (text_of charset line.now))) }
    {
        if let Some(text) = own {
            return write_blanked(open_before, text, &mut self.blanked);
        }
        write_text(charset, line, &mut self.text)?;
        write_blanked(open_before, self.text.as_str(), &mut self.blanked)
    }

    /// Gives the text of a line without its tags to the sink, and notes whether a tag is open after it.
    pub(crate) fn show_html<S: TextSink>(
        &mut self,
        charset: Charset,
        is_open: &mut bool,
        line: &[u8],
        sink: &mut S,
    ) -> Result<(), TextFault>
        requires { length line.now ≤ most_in_line }
        ensures shows { Shows S.takes S.refuses TextKind.Body (encode_utf8_all
            (blanked_tags is_open.old (chars
            (text_of charset line.now)))) result sink.old sink.new }
        ensures is_open { OnOk result (is_open.new
            ≡ is_tag_open_after_all is_open.old (chars (text_of charset line.now))) }
    {
        if *is_open && let Some(spaces) = spaces_in_tag(line) {
            return give_text(TextKind::Body, spaces, sink);
        }
        let own = own_text(charset, line);
        if let Some(text) = own
            && is_free_of_tags(*is_open, text)
        {
            return give_text(TextKind::Body, text, sink);
        }
        *is_open = self.write_blanked_line(charset, *is_open, line, own)?;
        give_text(TextKind::Body, self.blanked.as_str(), sink)
    }
}
