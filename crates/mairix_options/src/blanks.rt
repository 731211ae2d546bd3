//! Takes spaces and tabs off the ends of a text. header_text has the same blanks, but an rcfile isn't mail, and its
//! texts have to stay UTF-8.
ghost use Rattle.std.specs.Prelude.{◌≡◌, ◌≤◌, length};
ghost use Rattle.std.specs.List.{prefix_len, suffix_len};
ghost use Rattle.mairix_options.specs.Blanks.{text_without_blanks};
ghost use Rattle.contract_words.specs.Blanks.{is_blank};

fn is_blank(byte: u8) -> bool
    ensures { result ≡ is_blank byte }
{
    byte == b' ' || byte == b'\t'
}

fn blanks_at_front(text: &[u8]) -> usize
    ensures count { result ≡ prefix_len is_blank text.now }
    ensures bound { result ≤ length text.now }
{
    text.iter().take_while(|byte| is_blank(**byte)).count()
}

fn blanks_at_end(text: &[u8]) -> usize
    ensures count { result ≡ suffix_len is_blank text.now }
    ensures bound { result ≤ length text.now }
{
    text.iter()
        .rev()
        .take_while(|byte| is_blank(**byte))
        .count()
}

/// Returns the bytes without the spaces and tabs at both ends.
pub(crate) fn trimmed(text: &[u8]) -> &[u8]
    ensures { result.now ≡ text_without_blanks text.now }
{
    let (_, rest) = text.split_at(blanks_at_front(text));
    let (kept, _) = rest.split_at(rest.len() - blanks_at_end(rest));
    kept
}

/// Returns the text without the spaces and tabs at both ends.
pub(crate) fn trimmed_text(text: &str) -> &str
    ensures { result.now ≡ text_without_blanks text.now }
{
    let rest = &text[blanks_at_front(text.as_bytes())..];
    &rest[..rest.len() - blanks_at_end(rest.as_bytes())]
}
