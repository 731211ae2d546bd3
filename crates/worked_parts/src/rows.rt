//! Archives and results as the lines of tables have them.

use std::alloc::{AllocError, Global};
use std::fmt::{Display, InlineText};

/// The line at which a message starts.
const SEPARATOR: &[u8] = b"From a@x.org Thu Jan  2 10:00:00 2003\n";

/// Returns the bytes of a text, in which `^` means the line at which a message starts, `|` LF, `~` the byte FC, which
/// is `ü` in ISO 8859-1, and `{3*ab}` means `ababab`. It is None if memory runs out.
pub fn bytes_of(alloc: Global, text: &str) -> Option<Vec<u8>> {
    let mut bytes = Vec::new(alloc);
    for piece in text.split('{') {
        push_piece(&mut bytes, piece)?;
    }
    Some(bytes)
}

/// Writes the text between one `{` and the next.
fn push_piece(bytes: &mut Vec<u8>, piece: &str) -> Option<()> {
    let (repeated, rest) = piece.split_once('}').unwrap_or(("", piece));
    let (count, repeated) = repeated.split_once('*').unwrap_or(("0", ""));
    for _ in 0..count.parse::<u32>().ok()? {
        push_signs(bytes, repeated).ok()?;
    }
    push_signs(bytes, rest).ok()
}

fn push_signs(bytes: &mut Vec<u8>, signs: &str) -> Result<(), AllocError> {
    for sign in signs.as_bytes() {
        let written: &[u8] = match sign {
            b'^' => SEPARATOR,
            b'|' => b"\n",
            b'~' => b"\xFC",
            _ => std::slice::from_ref(sign),
        };
        bytes.extend_from_slice(written)?;
    }
    Ok(())
}

/// Whether a fault has this text.
pub fn has_text<D: Display + Drop>(fault: D, text: &str) -> bool {
    let shown: InlineText<64> = InlineText::of(fault);
    shown.as_str() == text
}
