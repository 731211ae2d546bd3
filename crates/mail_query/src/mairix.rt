//! Reads mairix patterns.
ghost use Rattle.std.specs.Prelude.{◌≡◌, map, string_bytes, IfOk};
ghost use Rattle.contract_words.specs.Answers.{Gives};
ghost use Rattle.mail_query.specs.Query.{query_of};
ghost use Rattle.mail_query.specs.Meaning.{meaning};
ghost use Rattle.mail_query.specs.Inside.Reading.{kinds_added};
ghost use Rattle.or_memory.specs.Refusals.{refusal, IfRefused};
ghost use Rattle.mail_query.specs.Mairix.{kinds_of, pattern_query};
ghost use Rattle.mail_query.specs.MairixGrammar.{IsAsked, AskNothing};
ghost use Rattle.mail_query.specs.MairixFaults.{IsFirstFault};
ghost use Rattle.mail_query.specs.Mail.{pattern_lexicon, mairix_query};

mod forms;
mod terms;

use crate::fault::{QueryFault, QueryFaultKind, numbered};
use crate::flags::read_flags;
use crate::kinds::{Kinds, kinds};
use crate::mairix::forms::Target;
use crate::mairix::terms::read_rest;
use crate::node::{Node, add, all_of};
use crate::pieces::cut;
use crate::query::Query;
use crate::size::sizes_of;
use mail_dates::{Moment, range_of};
use or_memory::OrMemory;
use std::alloc::Global;

/// Reads a list of patterns. A message satisfies the query if it satisfies all of them.
///
/// A pattern is a prefix, `:` and a rest, cut at the first `:`, or a rest alone. `now` is the moment from which
/// ages, and days without a year, are counted.
///
/// # Errors
///
/// The first faulty pattern, by its number from 1, with its first fault from the left. An empty list is `NoPattern`
/// with number 1. `Memory` for lack of memory.
pub fn read_mairix(
    alloc: Global,
    patterns: &[String],
    now: Moment,
) -> Result<Query, OrMemory<QueryFault>>
    ensures answer { Gives meaning refusal result
        (mairix_query (map string_bytes patterns.now) now) }
    ensures read { IfOk result
        (λ q. IsAsked (pattern_lexicon now) (map string_bytes patterns.now) (meaning q)) }
    ensures refused { IfRefused result
        (λ _. AskNothing (pattern_lexicon now) (map string_bytes patterns.now)) }
    ensures first_fault { IfRefused result
        (IsFirstFault (pattern_lexicon now) (map string_bytes patterns.now)) }
{
    read_patterns(alloc, patterns, now)
}

// The clauses `read` to `first_fault` of `read_mairix` follow from the laws, so the proof of this loop needs only one.
fn read_patterns(
    alloc: Global,
    patterns: &[String],
    now: Moment,
) -> Result<Query, OrMemory<QueryFault>>
    ensures { Gives meaning refusal result (mairix_query (map string_bytes patterns.now) now) }
{
    if patterns.is_empty() {
        return Err(OrMemory::Refused(QueryFault {
            number: 1,
            kind: QueryFaultKind::NoPattern,
        }));
    }
    let mut members = Vec::new(alloc);
    for (i, pattern) in patterns.iter().enumerate() {
        match read_pattern(alloc, pattern.as_str(), now) {
            Ok(node) => add(&mut members, node)?,
            Err(given) => return Err(numbered(i + 1, given)),
        }
    }
    Ok(Query::new(all_of(members)))
}

/// Reads one pattern.
fn read_pattern(alloc: Global, pattern: &str, now: Moment) -> Result<Node, OrMemory<QueryFaultKind>>
    ensures { Gives query_of refusal result (pattern_query (pattern_lexicon now) pattern.now) }
{
    let Some((prefix, rest)) = cut(pattern, ':') else {
        // A bare word isn't looked for in blind copies or in names of attachments.
        let kinds = kinds!(to, cc, from, subject, body);
        return read_rest(alloc, Target::Words(kinds), pattern);
    };
    match prefix {
        "m" => read_rest(alloc, Target::OwnId, rest),
        "d" => range_of(rest, now)
            .map(Node::Date)
            .or(Err(OrMemory::Refused(QueryFaultKind::BadDate))),
        "z" => sizes_of(rest).ok_or(OrMemory::Refused(QueryFaultKind::BadSize)),
        "F" => read_flags(alloc, rest.as_bytes()),
        letters => match kinds_of(letters.as_bytes()) {
            Some(kinds) => read_rest(alloc, Target::Words(kinds), rest),
            None => Err(OrMemory::Refused(QueryFaultKind::BadPrefix)),
        },
    }
}

/// Returns all kinds that the letters name. Returns None if there is no letter, or one names nothing.
fn kinds_of(letters: &[u8]) -> Option<Kinds>
    ensures { result ≡ kinds_of letters.now }
{
    if letters.is_empty() {
        return None;
    }
    let mut kinds = Kinds::NONE;
    for letter in letters {
        kinds = with_letter(kinds, *letter)?;
    }
    Some(kinds)
}

/// Adds the kinds that a letter names. Returns None if it names nothing.
fn with_letter(mut kinds: Kinds, letter: u8) -> Option<Kinds>
    ensures { result ≡ kinds_added kinds letter }
{
    match letter {
        b't' => kinds.to = true,
        b'c' => kinds.cc = true,
        b'f' => kinds.from = true,
        b's' => kinds.subject = true,
        b'b' => kinds.body = true,
        b'a' => {
            kinds.to = true;
            kinds.cc = true;
            kinds.from = true;
        }
        b'n' => kinds.name = true,
        _ => return None,
    }
    Some(kinds)
}
