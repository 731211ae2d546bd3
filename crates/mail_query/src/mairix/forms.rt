//! Where a pattern looks for its words, and which forms these have.
ghost use Rattle.std.specs.Prelude.{◌≡◌, IfOk};
ghost use Rattle.mail_query.specs.Inside.Reading.{forms_of};
ghost use Rattle.std.specs.List.{list_any};
ghost use Rattle.mail_query.specs.Mairix.{may_be_id, is_sign};

use crate::kinds::Kinds;
use crate::pieces::without_angles;
use crate::query_text::QueryText;
use mail_words::{is_one_word, is_part_of_word};
use std::alloc::{AllocError, Global};

/// Where a pattern looks for its words.
#[derive(Clone, Copy)]
pub(crate) enum Target {
    /// In texts of these kinds, with case folded.
    Words(Kinds),
    /// In the message's own id, as written.
    OwnId,
}

/// Returns the text to look for if `text` is a whole word, or a whole id, and None if it isn't.
pub(crate) fn word_of(
    alloc: Global,
    target: Target,
    text: &str,
) -> Result<Option<QueryText>, AllocError>
    ensures { IfOk result (λ word. word ≡ (forms_of target).word text.now) }
{
    match target {
        Target::Words(_) if is_one_word(text) => QueryText::folded(alloc, text).map(Some),
        Target::OwnId if is_id(text) && !without_angles(text).is_empty() => {
            QueryText::copy_of(alloc, without_angles(text)).map(Some)
        }
        _ => Ok(None),
    }
}

/// Returns the text to look for if `text` can be a part of a word, or of an id, and None if it can't.
pub(crate) fn part_of(
    alloc: Global,
    target: Target,
    text: &str,
) -> Result<Option<QueryText>, AllocError>
    ensures { IfOk result (λ part. part ≡ (forms_of target).part text.now) }
{
    match target {
        Target::Words(_) if is_part_of_word(text) => QueryText::folded(alloc, text).map(Some),
        Target::OwnId if is_id(text) => QueryText::copy_of(alloc, text).map(Some),
        _ => Ok(None),
    }
}

/// Returns whether the text isn't empty and no byte of it has a meaning in patterns.
fn is_id(text: &str) -> bool
    ensures { result ≡ may_be_id text.now }
{
    !text.is_empty() && !has_sign(text.as_bytes())
}

fn has_sign(text: &[u8]) -> bool
    ensures { result ≡ list_any is_sign text.now }
{
    text.iter()
        .any(|b| matches!(*b, b'~' | b',' | b'/' | b'=' | b'^'))
}
