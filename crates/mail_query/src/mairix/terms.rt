//! Reads the rest of a pattern, after its prefix: words and parts of words, and the signs that join them.
ghost use Rattle.std.specs.Prelude.{◌≡◌};
ghost use Rattle.contract_words.specs.Answers.{Gives};
ghost use Rattle.mail_query.specs.Query.{query_of};
ghost use Rattle.or_memory.specs.Refusals.{refusal};
ghost use Rattle.mail_query.specs.Inside.Reading.{forms_of};
ghost use Rattle.mail_query.specs.Mairix.{atom_query, term_query, all_query, rest_query, is_approximate};

use crate::fault::QueryFaultKind;
use crate::kinds::{Kinds, kinds};
use crate::mairix::forms::{Target, part_of, word_of};
use crate::node::{Node, add, all_of, either_of, negated};
use crate::pieces::{without_first, without_last};
use or_memory::OrMemory;
use std::alloc::Global;

/// Reads one or more alternatives with slashes between them. One of them has to be satisfied.
pub(crate) fn read_rest(
    alloc: Global,
    target: Target,
    text: &str,
) -> Result<Node, OrMemory<QueryFaultKind>>
    ensures { Gives query_of refusal result (rest_query (forms_of target) text.now) }
{
    let mut members = Vec::new(alloc);
    for part in text.split('/') {
        let alternative = read_all(alloc, target, part)?;
        add(&mut members, alternative)?;
    }
    Ok(either_of(members))
}

/// Reads one or more terms with commas between them. All of them have to be satisfied.
fn read_all(alloc: Global, target: Target, text: &str) -> Result<Node, OrMemory<QueryFaultKind>>
    ensures { Gives query_of refusal result (all_query (forms_of target) text.now) }
{
    let mut members = Vec::new(alloc);
    for part in text.split(',') {
        let term = read_term(alloc, target, part)?;
        add(&mut members, term)?;
    }
    Ok(all_of(members))
}

/// Reads an atom. A `~` before it negates it.
fn read_term(alloc: Global, target: Target, text: &str) -> Result<Node, OrMemory<QueryFaultKind>>
    ensures { Gives query_of refusal result (term_query (forms_of target) text.now) }
{
    match without_first(text, '~') {
        None => read_atom(alloc, target, text),
        Some(atom) => {
            let node = read_atom(alloc, target, atom)?;
            let node = negated(alloc, node)?;
            Ok(node)
        }
    }
}

/// Reads a word, `part=` for a part of a word, or `^part=` for the beginning of one.
fn read_atom(alloc: Global, target: Target, text: &str) -> Result<Node, OrMemory<QueryFaultKind>>
    ensures { Gives query_of refusal result (atom_query (forms_of target) text.now) }
{
    if is_approximate(text.as_bytes()) {
        return Err(OrMemory::Refused(QueryFaultKind::Approximate));
    }
    let kinds = match target {
        Target::Words(kinds) => kinds,
        Target::OwnId => kinds!(own_id),
    };
    if let Some(text) = word_of(alloc, target, text)? {
        return Ok(Node::Word { kinds, text });
    }
    let Some(sub) = without_last(text, '=') else {
        return Err(OrMemory::Refused(QueryFaultKind::BadWord));
    };
    if let Some(text) = part_of(alloc, target, sub)? {
        return Ok(Node::Part { kinds, text });
    }
    let Some(sub) = without_first(sub, '^') else {
        return Err(OrMemory::Refused(QueryFaultKind::BadWord));
    };
    match part_of(alloc, target, sub)? {
        Some(text) => Ok(Node::Prefix { kinds, text }),
        None => Err(OrMemory::Refused(QueryFaultKind::BadWord)),
    }
}

/// Returns whether the text ends with an `=` and one or more digits.
fn is_approximate(text: &[u8]) -> bool
    ensures { result ≡ is_approximate text.now }
{
    let mut marked = false;
    let mut counted = false;
    for b in text {
        if *b == b'=' {
            marked = true;
            counted = false;
        } else if b.is_ascii_digit() {
            counted = marked;
        } else {
            marked = false;
            counted = false;
        }
    }
    counted
}
