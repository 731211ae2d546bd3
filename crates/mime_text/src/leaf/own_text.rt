//! Lines that need no decoding.
ghost use Rattle.std.specs.Prelude.{◌≡◌, IfSome};
ghost use Rattle.header_text.specs.Charsets.{text_of};

use header_text::Charset;
use simdutf8::basic::from_utf8;

/// Returns the text of bytes in a charset, if it is seen to be these same bytes: valid UTF-8 in UTF-8, and ASCII in any
/// charset.
pub(crate) fn own_text(charset: Charset, bytes: &[u8]) -> Option<&str>
    ensures { IfSome result (λ text. (text.now ≡ bytes.now)
        × (text.now ≡ text_of charset bytes.now)) }
{
    let text = from_utf8(bytes).ok()?;
    match charset {
        Charset::Utf8 => Some(text),
        _ => text.is_ascii().then_some(text),
    }
}
