//! What queries say of themselves, and the texts of faults.

use crate::reading::{read_patterns, read_text};
use mail_query::{Query, QueryFault, QueryFaultKind};
use std::fmt::InlineText;

/// What a query says of itself.
#[derive(Clone, Copy)]
enum Wanted {
    Depth(u32),
    UsesNames(bool),
}

/// Patterns, separated by `, `, and what their query says.
const PATTERNS: [(&str, Wanted); 5] = [
    ("F:-rs, s:one/GRÜSSE, d:mar", Wanted::Depth(3)),
    ("F:s, n:report", Wanted::UsesNames(true)),
    ("F:s, s:a/~b", Wanted::UsesNames(false)),
    ("F:s, sn:~rep=/hi", Wanted::UsesNames(true)),
    ("F:s, report", Wanted::UsesNames(false)),
];

/// Boolean texts, and what their query says.
const BOOLEANS: [(&str, Wanted); 5] = [
    (DEEPEST, Wanted::Depth(63)),
    ("subject:hello and not date:2003-02", Wanted::Depth(3)),
    ("(subject:ho or body:hi) hel*", Wanted::Depth(3)),
    ("*", Wanted::Depth(1)),
    ("report", Wanted::UsesNames(false)),
];

/// Thirty parentheses, one inside another, which is the most that a text may have.
const DEEPEST: &str = "\
    a or b (a or b (a or b (a or b (a or b (a or b (a or b (a or b (a or b (a or b (\
    a or b (a or b (a or b (a or b (a or b (a or b (a or b (a or b (a or b (a or b (\
    a or b (a or b (a or b (a or b (a or b (a or b (a or b (a or b (a or b (a or b (\
    a or b c))))))))))))))))))))))))))))))";

/// Whether a text is read, and its query says what is wanted.
fn is_said(answer: Option<Result<Query, QueryFault>>, wanted: Wanted) -> bool {
    match (answer, wanted) {
        (Some(Ok(query)), Wanted::Depth(depth)) => query.depth() == depth,
        (Some(Ok(query)), Wanted::UsesNames(uses)) => query.uses_names() == uses,
        _ => false,
    }
}

#[test]
fn queries_of_patterns_say(rt: HostRuntime) {
    for (text, wanted) in PATTERNS {
        assert!(rt; is_said(read_patterns(rt.alloc(), text), wanted), "{text}");
    }
}

#[test]
fn queries_of_boolean_texts_say(rt: HostRuntime) {
    for (text, wanted) in BOOLEANS {
        assert!(rt; is_said(read_text(rt.alloc(), text), wanted), "{text}");
    }
}

#[test]
fn faults_are_printed(rt: HostRuntime) {
    let fault = QueryFault {
        number: 3,
        kind: QueryFaultKind::MissingTerm,
    };
    let text: InlineText<64> = InlineText::of(fault);
    assert_eq!(rt; text.as_str(), "query item 3: term missing");
}
