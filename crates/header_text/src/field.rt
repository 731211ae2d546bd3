//! The fields of a header, and the line that begins one.
ghost use Rattle.std.specs.Prelude.{◌≡◌, ◌+◌, ◌<◌, ◌≤◌, length, take, drop, IfSome, option_map};
ghost use Rattle.header_text.specs.Blanks.{split_while};
ghost use Rattle.header_text.specs.Names.{is_named as is_named_of};
ghost use Rattle.header_text.specs.Headers.{HeaderField, field_of_line, is_field_name_byte as is_field_name_byte_of, is_continuation as is_continuation_of};

use crate::blanks::after_blanks;
use crate::names::is_named;

/// A field of a header: its name, and all bytes after its colon, with line breaks and continuation lines.
#[derive(Clone, Copy)]
pub struct Field<'a> {
    /// One or more bytes from 33 to 126, but no colon.
    pub name: &'a [u8],
    /// As it is in the lines; it must be unfolded before it is read.
    pub body: &'a [u8],
}

impl Field<'_> {
    /// Returns whether the field has this name, in any ASCII case.
    pub fn is(&self, name: &[u8]) -> bool
        ensures { result ≡ is_named_of self.now.name.now name.now }
    {
        is_named(self.name, name)
    }
}

/// Returns the bytes after the name at the front; a name has bytes from 33 to 126, but no colon.
fn after_name(line: &[u8]) -> &[u8]
    ensures { result.now ≡ (split_while is_field_name_byte_of line.now).1 }
{
    let mut rest = line;
    while let Some((first, others)) = rest.split_first()
        && first.is_ascii_graphic()
        && *first != b':'
    {
        rest = others;
    }
    rest
}

/// Returns the field that a line begins, without its continuation lines, or None if the line begins no field.
pub fn field_of_line(line: &[u8]) -> Option<Field<'_>>
    ensures field { option_map (λ f. record { name = f.name.now; body = f.body.now }) result
        ≡ field_of_line line.now }
    ensures name { IfSome result (λ f. 0 < length f.name.now) }
    ensures fits { IfSome result (λ f. length f.name.now + length f.body.now ≤ length line.now) }
{
    let rest = after_name(line);
    let name = &line[..line.len() - rest.len()];
    match after_blanks(rest) {
        [b':', body @ ..] if !name.is_empty() => Some(Field { name, body }),
        _ => None,
    }
}
