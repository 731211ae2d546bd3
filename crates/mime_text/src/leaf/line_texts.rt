//! The texts of a leaf's decoded lines.
ghost use Rattle.std.specs.Prelude.{◌≡◌, ℕ, ◌≤◌, ◌∷◌, List, false, length};
ghost use Rattle.mime_text.specs.Sinks.{Hands};
ghost use Rattle.mime_text.specs.LeafReading.{pairs_of_lines};
ghost use Rattle.mime_text.specs.Limits.{most_in_line};

use crate::fault::TextFault;
use crate::leaf::text_buffers::TextBuffers;
use crate::sink::TextSink;
use header_text::Charset;
use std::alloc::Global;

/// Gives the texts of decoded lines to a sink, one after another.
#[derive(Drop)]
pub(crate) struct LineTexts {
    charset: Charset,
    is_html: bool,
    // Whether a tag is open after the last line, so that it goes on in the next one.
    is_open: bool,
    buffers: TextBuffers,
}

impl LineTexts {
    /// Returns the state for a leaf that is plain text in UTF-8. It takes no memory.
    pub(crate) fn new(alloc: Global) -> Self
        ensures charset { result.charset ≡ Charset.Utf8 }
        ensures is_html { result.is_html ≡ false }
        ensures is_open { result.is_open ≡ false }
    {
        LineTexts {
            charset: Charset::Utf8,
            is_html: false,
            is_open: false,
            buffers: TextBuffers::new(alloc),
        }
    }

    /// Begins another leaf, with no tag open.
    pub(crate) fn begin(&mut self, charset: Charset, is_html: bool)
        ensures charset { self.new.charset ≡ charset }
        ensures is_html { self.new.is_html ≡ is_html }
        ensures is_open { self.new.is_open ≡ false }
    {
        self.charset = charset;
        self.is_html = is_html;
        self.is_open = false;
    }

    /// Gives the text of the next line to the sink, and notes whether a tag is open after it.
    pub(crate) fn give<S: TextSink>(&mut self, line: &[u8], sink: &mut S) -> Result<(), TextFault>
        requires { length line.now ≤ most_in_line }
        ensures { Hands S.takes S.refuses (λ ls. pairs_of_lines self.old (line.now ∷ ls))
            (λ ls. pairs_of_lines self.new ls) result sink.old sink.new }
    {
        if !self.is_html {
            return self.buffers.show_plain(self.charset, line, sink);
        }
        self.buffers
            .show_html(self.charset, &mut self.is_open, line, sink)
    }
}
