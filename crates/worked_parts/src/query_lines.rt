//! A query as a line of text.
//!
//! A query is `any`, `word KINDS TEXT`, `part KINDS TEXT`, `prefix KINDS TEXT`, `date FROM UNTIL` in seconds, `size LOW
//! HIGH`, `flag s` or `flag -s` by its letter, `not QUERY`, `all(QUERY, QUERY)` or `either(QUERY, QUERY)`. A bound that
//! is missing is `-`. [`kinds_of`] reads the kinds. A refusal is its printed text.

use mail_query::{Kinds, Node, Query, QueryFault};
use mail_words::Flag;
use std::fmt::{Display, InlineText};

/// Whether the result of a reader is that of the line.
pub fn is_reported(answer: &Result<Query, QueryFault>, reported: &str) -> bool {
    match answer {
        Ok(query) => after_node(reported, query.root()) == Some(""),
        Err(fault) => {
            let text: InlineText<64> = InlineText::of(*fault);
            text.as_str() == reported
        }
    }
}

/// Returns what follows a query in the line, if the line begins with this query.
fn after_node<'a>(reported: &'a str, node: &Node) -> Option<&'a str> {
    match node {
        Node::Any => reported.strip_prefix("any"),
        Node::Word { kinds, text } => after_sought(reported, "word ", *kinds, text.as_str()),
        Node::Part { kinds, text } => after_sought(reported, "part ", *kinds, text.as_str()),
        Node::Prefix { kinds, text } => after_sought(reported, "prefix ", *kinds, text.as_str()),
        Node::Date(range) => {
            let rest = after_bound(reported.strip_prefix("date ")?, range.from)?;
            after_bound(rest.strip_prefix(" ")?, range.until)
        }
        Node::Size { low, high } => {
            let rest = after_bound(reported.strip_prefix("size ")?, Some(*low))?;
            after_bound(rest.strip_prefix(" ")?, *high)
        }
        Node::Flag { flag, wanted } => after_flag(reported.strip_prefix("flag ")?, *flag, *wanted),
        Node::Not(inner) => after_node(reported.strip_prefix("not ")?, inner),
        Node::All(members) | Node::Either(members) => {
            let is_all = matches!(node, Node::All(_));
            let mut rest = reported.strip_prefix(if is_all { "all(" } else { "either(" })?;
            let mut separator = "";
            for member in members {
                rest = after_node(rest.strip_prefix(separator)?, member)?;
                separator = ", ";
            }
            rest.strip_prefix(")")
        }
    }
}

fn after_sought<'a>(reported: &'a str, name: &str, kinds: Kinds, text: &str) -> Option<&'a str> {
    let (letters, rest) = reported.strip_prefix(name)?.split_once(' ')?;
    if kinds_of(letters) == Some(kinds) {
        rest.strip_prefix(text)
    } else {
        None
    }
}

/// Returns the kinds of some letters: `h` means Bcc, `m` the message's own id, and each other letter the kind that
/// begins with it.
fn kinds_of(letters: &str) -> Option<Kinds> {
    let mut kinds = Kinds::NONE;
    for letter in letters.as_bytes() {
        match letter {
            b't' => kinds.to = true,
            b'c' => kinds.cc = true,
            b'h' => kinds.bcc = true,
            b'f' => kinds.from = true,
            b's' => kinds.subject = true,
            b'b' => kinds.body = true,
            b'n' => kinds.name = true,
            b'm' => kinds.own_id = true,
            _ => return None,
        }
    }
    Some(kinds)
}

fn after_bound<N: Display + Drop>(reported: &str, bound: Option<N>) -> Option<&str> {
    match bound {
        None => reported.strip_prefix("-"),
        Some(number) => {
            let text: InlineText<20> = InlineText::of(number);
            reported.strip_prefix(text.as_str())
        }
    }
}

fn after_flag(reported: &str, flag: Flag, wanted: bool) -> Option<&str> {
    let rest = if wanted {
        reported
    } else {
        reported.strip_prefix("-")?
    };
    rest.strip_prefix(match flag {
        Flag::Seen => "s",
        Flag::Replied => "r",
        Flag::Flagged => "f",
    })
}
