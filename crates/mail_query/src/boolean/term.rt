//! Reads a term of a boolean query.
ghost use Rattle.std.specs.Prelude.{◌≡◌};
ghost use Rattle.contract_words.specs.Answers.{Gives};
ghost use Rattle.mail_query.specs.Query.{query_of};
ghost use Rattle.or_memory.specs.Refusals.{refusal};
ghost use Rattle.mail_query.specs.BooleanTerms.{boolean_word_query, parts_query};
ghost use Rattle.mail_query.specs.Inside.Reading.{kinds_sought};
ghost use Rattle.mail_query.specs.Mail.{boolean_lexicon};

use crate::boolean::field::Field;
use crate::fault::QueryFaultKind;
use crate::kinds::Kinds;
use crate::node::Node;
use crate::pieces::{without_angles, without_last};
use crate::query_text::QueryText;
use mail_dates::iso_range;
use mail_words::{is_one_word, is_part_of_word};
use or_memory::OrMemory;
use std::alloc::Global;

/// Reads a term, cut into its prefix, if it has one, and the text after it.
pub(crate) fn read_parts(
    alloc: Global,
    prefix: Option<Field>,
    rest: &str,
) -> Result<Node, OrMemory<QueryFaultKind>>
    ensures { Gives query_of refusal result (parts_query boolean_lexicon prefix rest.now) }
{
    match prefix {
        None if rest == "*" => Ok(Node::Any),
        None if rest.eq_ignore_ascii_case("xor") => Err(OrMemory::Refused(QueryFaultKind::BadWord)),
        Some(_) if rest.is_empty() => Err(OrMemory::Refused(QueryFaultKind::MissingTerm)),
        Some(Field::Id) => {
            let id = without_angles(rest);
            if id.is_empty() {
                return Err(OrMemory::Refused(QueryFaultKind::MissingTerm));
            }
            let text = QueryText::copy_of(alloc, id)?;
            let kinds = kinds_sought(prefix);
            Ok(Node::Word { kinds, text })
        }
        Some(Field::Date) => iso_range(rest)
            .map(Node::Date)
            .or(Err(OrMemory::Refused(QueryFaultKind::BadDate))),
        _ => read_word(alloc, kinds_sought(prefix), rest),
    }
}

/// Returns the kinds of text in which a term with this prefix is looked for.
fn kinds_sought(prefix: Option<Field>) -> Kinds
    ensures { result ≡ kinds_sought prefix }
{
    let mut kinds = Kinds::NONE;
    match prefix {
        // A bare term isn't looked for in names of attachments.
        None => {
            kinds.to = true;
            kinds.cc = true;
            kinds.bcc = true;
            kinds.from = true;
            kinds.subject = true;
            kinds.body = true;
        }
        Some(Field::From) => kinds.from = true,
        Some(Field::To) => {
            kinds.to = true;
            kinds.cc = true;
            kinds.bcc = true;
        }
        Some(Field::Subject) => kinds.subject = true,
        Some(Field::Body) => kinds.body = true,
        Some(Field::Id) => kinds.own_id = true,
        Some(Field::Date) => {}
    }
    kinds
}

/// Reads a word, or the beginning of a word with a `*` after it.
fn read_word(alloc: Global, kinds: Kinds, text: &str) -> Result<Node, OrMemory<QueryFaultKind>>
    ensures { Gives query_of refusal result (boolean_word_query boolean_lexicon kinds text.now) }
{
    if is_one_word(text) {
        let text = QueryText::folded(alloc, text)?;
        return Ok(Node::Word { kinds, text });
    }
    match without_last(text, '*') {
        Some(piece) if is_part_of_word(piece) => {
            let text = QueryText::folded(alloc, piece)?;
            Ok(Node::Prefix { kinds, text })
        }
        _ => Err(OrMemory::Refused(QueryFaultKind::BadWord)),
    }
}
