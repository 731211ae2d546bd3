//! Takes the tokens of a header field.

ghost use Rattle.std.specs.Prelude.{◌≡◌, ◌<◌, [], ◌∷◌, length, position, MatchOption, IfSome};
ghost use Rattle.std.specs.List.{list_all, slice_split};
ghost use Rattle.std.specs.Char.{is_ascii_alphabetic};
ghost use Rattle.mail_dates.specs.HeaderDates.{is_gap, date_tokens, with_first, without_comments};

use crate::text::place_of;

/// Returns what is before the first `(`, where comments begin.
pub fn without_comments(text: &[u8]) -> &[u8]
    ensures { result.now ≡ without_comments text.now }
{
    match place_of(text, b'(') {
        Some(at) => &text[..at],
        None => text,
    }
}

/// Returns the first token, and what follows it. If there is no token, both are empty.
pub fn next_token(text: &[u8]) -> (&[u8], &[u8])
    ensures tokens { date_tokens text.now ≡ with_first result.0.now result.1.now }
    ensures none { result.0.now ≡ [] → result.1.now ≡ [] }
{
    let mut rest = text;
    while let Some((front, back)) = cut_at_gap(rest) {
        if !front.is_empty() {
            return (front, back);
        }
        rest = back;
    }
    (rest, b"")
}

/// Returns whether a token has ASCII letters alone. An empty one does.
pub fn are_letters(token: &[u8]) -> bool
    ensures { result ≡ list_all is_ascii_alphabetic token.now }
{
    token.iter().all(u8::is_ascii_alphabetic)
}

/// Returns what is before the first space, tab or comma, and what is after it.
#[tactic(auto, using(crate::proofs::Cuts::split_some, crate::proofs::Cuts::split_none, std::proofs::lemmas::List::take_rest))]
fn cut_at_gap(text: &[u8]) -> Option<(&[u8], &[u8])>
    ensures shorter { IfSome result (λ parts. length parts.1.now < length text.now) }
    ensures parts { MatchOption result (slice_split is_gap text.now ≡ text.now ∷ [])
        (λ parts. slice_split is_gap text.now ≡ parts.0.now ∷ slice_split is_gap parts.1.now) }
{
    let at = place_of_gap(text)?;
    Some((&text[..at], &text[at + 1..]))
}

/// Returns the place of the first space, tab or comma.
fn place_of_gap(text: &[u8]) -> Option<usize>
    ensures { result ≡ position is_gap text.now }
{
    text.iter().position(|b| matches!(*b, b' ' | b'\t' | b','))
}
