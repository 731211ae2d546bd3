//! Reads queries in the boolean language.
ghost use Rattle.std.specs.Prelude.{◌≡◌, Some, IfOk};
ghost use Rattle.contract_words.specs.Answers.{Gives};
ghost use Rattle.mail_query.specs.Meaning.{meaning};
ghost use Rattle.or_memory.specs.Refusals.{refusal, IfRefused};
ghost use Rattle.mail_query.specs.Mail.{boolean_lexicon, boolean_query};
ghost use Rattle.mail_query.specs.Tokens.{query_tokens};
ghost use Rattle.mail_query.specs.BooleanGrammar.{Reads};
ghost use Rattle.mail_query.specs.BooleanFaults.{first_fault};
ghost use Rattle.mail_query.specs.BooleanReading.{start};
ghost use Rattle.mail_query.specs.Inside.Shown.{state_of_reader};

mod field;
mod reader;
mod term;
mod token;

use crate::boolean::reader::Reader;
use crate::boolean::token::next_token;
use crate::fault::{QueryFault, QueryFaultKind, numbered};
use crate::query::Query;
use mail_dates::Moment;
use or_memory::OrMemory;
use std::alloc::Global;

/// Reads a query in the boolean language.
///
/// Each parenthesis is a token, and so is each run of other characters without spaces, tabs and line feeds. `now`
/// isn't used, because `date:` names days of the calendar only.
///
/// # Errors
///
/// The first fault, with the number of its token, counted from 1; the end counts as a token. A text without a token
/// is `NoPattern` with number 1. `Memory` for lack of memory.
pub fn read_boolean(alloc: Global, text: &str, _now: Moment) -> Result<Query, OrMemory<QueryFault>>
    ensures answer { Gives meaning refusal result (boolean_query text.now) }
    ensures read { IfOk result (λ q. Reads boolean_lexicon (query_tokens text.now) (meaning q)) }
    ensures fault { IfRefused result
        (λ f. first_fault boolean_lexicon (query_tokens text.now) ≡ Some f) }
{
    let mut reader = Reader::new(alloc);
    read_tokens(alloc, &mut reader, text)
}

/// Reads all tokens of a text, with a reader that has read nothing yet.
fn read_tokens(
    alloc: Global,
    reader: &mut Reader,
    text: &str,
) -> Result<Query, OrMemory<QueryFault>>
    requires { state_of_reader reader.old ≡ start }
    ensures { Gives meaning refusal result (boolean_query text.now) }
{
    let mut rest = text;
    let mut number = 1;
    'tokens: while let Some((token, after)) = next_token(rest) {
        if let Err(given) = reader.read(alloc, token) {
            return Err(numbered(number, given));
        }
        rest = after;
        number += 1;
    }
    if number == 1 {
        return Err(OrMemory::Refused(QueryFault {
            number: 1,
            kind: QueryFaultKind::NoPattern,
        }));
    }
    match reader.end(alloc) {
        Ok(node) => Ok(Query::new(node)),
        Err(given) => Err(numbered(number, given)),
    }
}
