//! Cuts a text at a character, or takes characters off its ends.
ghost use Rattle.std.specs.Prelude.{◌≡◌, ◌<◌, option_map, option_copied};
ghost use Rattle.mail_query.specs.Pieces.{texts_around, without_first, without_last, without_angles};

/// Returns the text before the first `sign` and the text after it, or None if the text has no `sign`.
pub(crate) fn cut(text: &str, sign: char) -> Option<(&str, &str)>
    requires { sign < 128 }
    ensures { option_map (λ p. (p.0.now, p.1.now)) result ≡ texts_around sign text.now }
{
    text.split_once(sign)
}

/// Returns the text after `sign` if the text begins with it.
pub(crate) fn without_first(text: &str, sign: char) -> Option<&str>
    requires { sign < 128 }
    ensures { option_copied result ≡ without_first sign text.now }
{
    text.strip_prefix(sign)
}

/// Returns the text before `sign` if the text ends with it.
pub(crate) fn without_last(text: &str, sign: char) -> Option<&str>
    requires { sign < 128 }
    ensures { option_copied result ≡ without_last sign text.now }
{
    text.strip_suffix(sign)
}

/// Returns the text between a `<` at the front and a `>` at the end. Without both it returns the whole text.
pub(crate) fn without_angles(text: &str) -> &str
    ensures { result.now ≡ without_angles text.now }
{
    let after = without_first(text, '<');
    after
        .and_then(|rest| without_last(rest, '>'))
        .unwrap_or(text)
}
