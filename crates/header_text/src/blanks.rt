//! Spaces and tabs in the bytes of a header. For the text of an rcfile mairix_options has its own, because it doesn't
//! use this crate.
ghost use Rattle.std.specs.Prelude.{◌≡◌};
ghost use Rattle.header_text.specs.Blanks.{after_blanks as after_blanks_of, before_blanks as before_blanks_of, without_outer_blanks};
ghost use Rattle.contract_words.specs.Blanks.{is_blank as is_blank_of};

/// Returns whether a byte is a space or a tab.
pub fn is_blank(b: u8) -> bool
    ensures { result ≡ is_blank_of b }
{
    b == b' ' || b == b'\t'
}

/// Returns the bytes after the spaces and tabs at the front.
pub fn after_blanks(bytes: &[u8]) -> &[u8]
    ensures { result.now ≡ after_blanks_of bytes.now }
{
    let mut rest = bytes;
    while let Some((first, others)) = rest.split_first()
        && is_blank(*first)
    {
        rest = others;
    }
    rest
}

/// Returns the bytes before the spaces and tabs at the end.
pub fn before_blanks(bytes: &[u8]) -> &[u8]
    ensures { result.now ≡ before_blanks_of bytes.now }
{
    let mut rest = bytes;
    while let Some((last, others)) = rest.split_last()
        && is_blank(*last)
    {
        rest = others;
    }
    rest
}

/// Returns the bytes without the spaces and tabs at both ends.
pub fn trimmed(bytes: &[u8]) -> &[u8]
    ensures { result.now ≡ without_outer_blanks bytes.now }
{
    before_blanks(after_blanks(bytes))
}
