//! Charsets: their labels, and the characters of their bytes.
ghost use Rattle.std.specs.Prelude.{◌≡◌, ◌<◌, not, ◌==◌};
ghost use Rattle.header_text.specs.Blanks.{split_while};
ghost use Rattle.header_text.specs.Charsets.{charset_of, charset_named as charset_named_of, character as character_of};

use crate::cut::cut_at;
use crate::names::is_named;

/// A charset that a mail can name.
#[derive(Clone, Copy)]
pub enum Charset {
    /// UTF-8, and US-ASCII, which is part of it.
    Utf8,
    /// ISO 8859-1: each byte is the character of its number.
    Latin1,
    /// ISO 8859-15.
    Latin9,
    /// Windows-1252.
    Windows1252,
    /// Any other charset: ASCII bytes are read, and any other byte gives U+FFFD.
    Unknown,
}

/// Windows-1252 from 80 to 9F, with U+FFFD for a byte without a character.
const WINDOWS_1252_UPPER: [char; 32] = [
    '\u{20AC}', '\u{FFFD}', '\u{201A}', '\u{192}', '\u{201E}', '\u{2026}', '\u{2020}', '\u{2021}',
    '\u{2C6}', '\u{2030}', '\u{160}', '\u{2039}', '\u{152}', '\u{FFFD}', '\u{17D}', '\u{FFFD}',
    '\u{FFFD}', '\u{2018}', '\u{2019}', '\u{201C}', '\u{201D}', '\u{2022}', '\u{2013}', '\u{2014}',
    '\u{2DC}', '\u{2122}', '\u{161}', '\u{203A}', '\u{153}', '\u{FFFD}', '\u{17E}', '\u{178}',
];

/// The known labels, and the charset of each.
static LABELS: [(&[u8], Charset); 12] = [
    (b"", Charset::Utf8),
    (b"us-ascii", Charset::Utf8),
    (b"ascii", Charset::Utf8),
    (b"utf-8", Charset::Utf8),
    (b"utf8", Charset::Utf8),
    (b"iso-8859-1", Charset::Latin1),
    (b"iso8859-1", Charset::Latin1),
    (b"latin1", Charset::Latin1),
    (b"iso-8859-15", Charset::Latin9),
    (b"iso8859-15", Charset::Latin9),
    (b"windows-1252", Charset::Windows1252),
    (b"cp1252", Charset::Windows1252),
];

/// Returns the charset of a label without a language.
fn charset_named(name: &[u8]) -> Charset
    ensures { result ≡ charset_named_of name.now }
{
    for (label, charset) in &LABELS {
        if is_named(name, label) {
            return *charset;
        }
    }
    Charset::Unknown
}

impl Charset {
    /// Returns the charset of a label, by the part before the label's first `*`, in any ASCII case. An empty part means
    /// UTF-8. It takes no memory.
    pub fn of(label: &[u8]) -> Charset
        ensures { result ≡ charset_of label.now }
    {
        let (name, _) = cut_at(b'*', label).unwrap_or((label, b""));
        charset_named(name)
    }

    /// Returns the character of a single byte, or U+FFFD if the byte alone has none.
    pub(crate) fn character(self, b: u8) -> char
        ensures value { result ≡ character_of self b }
        ensures small { result < 65536 }
    {
        match (self, b) {
            (Charset::Latin9, 0xA4) => '\u{20AC}',
            (Charset::Latin9, 0xA6) => '\u{160}',
            (Charset::Latin9, 0xA8) => '\u{161}',
            (Charset::Latin9, 0xB4) => '\u{17D}',
            (Charset::Latin9, 0xB8) => '\u{17E}',
            (Charset::Latin9, 0xBC) => '\u{152}',
            (Charset::Latin9, 0xBD) => '\u{153}',
            (Charset::Latin9, 0xBE) => '\u{178}',
            (Charset::Windows1252, 0x80..=0x9F) => WINDOWS_1252_UPPER[usize::from(b - 0x80)],
            (Charset::Utf8 | Charset::Unknown, 0x80..) => '\u{FFFD}',
            _ => char::from(b),
        }
    }
}
