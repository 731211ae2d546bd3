//! Which lines are separators. `From ` alone isn't enough: a time and then a year must follow (decision 23 in
//! docs/DECISIONS.md).
ghost use Rattle.std.specs.Prelude.{◌≡◌};
ghost use Rattle.mbox_cutter.specs.Separators.{has_form, has_time_then_year, is_separator, is_time, is_year, stands_for, separator_tokens, without_break};

use memchr::memchr;

/// Returns whether a message may start with this line. The rule is that of RFC 4155, Appendix A, but more lenient.
///
/// The line begins with `From `. Its rest, without the line break, is split at spaces. One piece is a time, `dd:dd` or
/// `dd:dd:dd` with digits for `d`, and a later piece is a year, four digits.
#[tactic(auto, unfolding(crate::specs::Separators::is_separator))]
pub fn is_separator(line: &[u8]) -> bool
    ensures { result ≡ is_separator line.now }
{
    match line.strip_prefix(b"From ") {
        Some(rest) => has_time_then_year(without_break(rest)),
        None => false,
    }
}

/// Returns the line without its final LF, and without a CR directly before that.
#[tactic(auto, unfolding(crate::specs::Separators::without_break))]
pub fn without_break(line: &[u8]) -> &[u8]
    ensures { result.now ≡ without_break line.now }
{
    if let Some(text) = line.strip_suffix(b"\r\n") {
        return text;
    }
    line.strip_suffix(b"\n").unwrap_or(line)
}

/// Returns whether a piece between spaces is a time, and a later one is a year.
fn has_time_then_year(text: &[u8]) -> bool
    ensures { result ≡ has_time_then_year (separator_tokens text.now) }
{
    let mut rest = text;
    let mut timed = false;
    'tokens: loop {
        match memchr(b' ', rest) {
            Some(end) => {
                let (token, more) = rest.split_at(end);
                if !timed {
                    timed = is_time(token);
                } else if is_year(token) {
                    return true;
                }
                rest = more.split_at(1).1;
            }
            None if timed => return is_year(rest),
            None => return false,
        }
    }
}

fn is_time(token: &[u8]) -> bool
    ensures { result ≡ is_time token.now }
{
    has_form(b"dd:dd", token) || has_form(b"dd:dd:dd", token)
}

fn is_year(token: &[u8]) -> bool
    ensures { result ≡ is_year token.now }
{
    has_form(b"dddd", token)
}

/// Returns whether a sign of a form fits the byte: `d` fits any digit, and any other sign fits itself.
fn stands_for(sign: u8, byte: u8) -> bool
    ensures { result ≡ stands_for sign byte }
{
    if sign == b'd' {
        byte.is_ascii_digit()
    } else {
        byte == sign
    }
}

/// Returns whether the text has the form: it has as many bytes as the form has signs, and each sign fits its byte.
fn has_form(form: &[u8], text: &[u8]) -> bool
    ensures { result ≡ has_form form.now text.now }
{
    form.len() == text.len()
        && form
            .iter()
            .zip(text)
            .all(|(sign, byte)| stands_for(*sign, *byte))
}
