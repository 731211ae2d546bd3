//! Cuts a boolean query into tokens.
ghost use Rattle.std.specs.Prelude.{◌≡◌, ◌<◌, ◌≤◌, not, [], ◌∷◌, length, MatchOption, IfSome};
ghost use Rattle.std.specs.List.{prefix_len};
ghost use Rattle.mail_query.specs.Tokens.{query_tokens, token_of, is_blank_or_feed};
ghost use Rattle.mail_query.specs.Inside.Shown.{shown_token, blank_count, ends_run};

use crate::pieces::without_first;

/// A token: a parenthesis, an operator in any case, or a term.
#[derive(Clone, Copy)]
pub(crate) enum Token<'a> {
    Open,
    Close,
    And,
    Or,
    Not,
    Term(&'a str),
}

/// Returns the first token and the text after it, or None if only blanks are left.
pub(crate) fn next_token(text: &str) -> Option<(Token<'_>, &str)>
    ensures token { MatchOption result (query_tokens text.now ≡ [])
        (λ p. query_tokens text.now ≡ shown_token p.0 ∷ query_tokens p.1.now) }
    ensures shorter { IfSome result (λ p. length p.1.now < length text.now) }
{
    let text = after_blanks(text);
    if let Some(rest) = without_first(text, '(') {
        return Some((Token::Open, rest));
    }
    if let Some(rest) = without_first(text, ')') {
        return Some((Token::Close, rest));
    }
    if text.is_empty() {
        return None;
    }
    let (run, rest) = text.split_at(run_length(text.as_bytes()));
    Some((token_of(run), rest))
}

fn token_of(run: &str) -> Token<'_>
    ensures { shown_token result ≡ token_of run.now }
{
    if run.eq_ignore_ascii_case("and") {
        Token::And
    } else if run.eq_ignore_ascii_case("or") {
        Token::Or
    } else if run.eq_ignore_ascii_case("not") {
        Token::Not
    } else {
        Token::Term(run)
    }
}

/// Returns the text without the blanks at its front.
fn after_blanks(text: &str) -> &str
    ensures tokens { query_tokens result.now ≡ query_tokens text.now }
    ensures none { blank_count result.now ≡ 0 }
    ensures within { length result.now ≤ length text.now }
{
    text.split_at(blank_count(text.as_bytes())).1
}

/// Returns the number of blanks at the front.
fn blank_count(text: &[u8]) -> usize
    ensures value { result ≡ prefix_len is_blank_or_feed text.now }
{
    text.iter().take_while(|b| is_blank(**b)).count()
}

/// Returns the number of bytes before the first blank or parenthesis.
fn run_length(text: &[u8]) -> usize
    ensures value { result ≡ prefix_len (λ b. not (ends_run b)) text.now }
{
    text.iter().take_while(|b| !ends_run(**b)).count()
}

fn ends_run(b: u8) -> bool
    ensures { result ≡ ends_run b }
{
    is_blank(b) || b == b'(' || b == b')'
}

/// Returns whether the byte is a space, a tab or a line feed. A header and an rcfile have no line feed among their
/// blanks; here it is one because a query may have several lines.
fn is_blank(b: u8) -> bool
    ensures { result ≡ is_blank_or_feed b }
{
    matches!(b, b' ' | b'\t' | b'\n')
}
