//! What no clause says: that cursors are made if there is enough memory, and what each call of them returns.

use crate::answered::{INDEX, TWO_MESSAGES, asked, indexed, query_of};
use mail_answer::{Cursor, matches};
use mail_index::{IndexView, Steps};
use mail_query::Query;
use std::alloc::Global;

// Patterns, each with the numbers of the messages that satisfy it.
const CASES: &[(&str, &[u32])] = &[
    ("s:hello", &[0, 1]),
    ("s:~re", &[0]),
    ("s:hello,re", &[1]),
    ("b:hi", &[0]),
    ("b:^hi=", &[0, 1]),
    ("b:gh=", &[1]),
    ("b:hi/high", &[0, 1]),
    ("bs:re", &[1]),
    ("s:hi", &[]),
    ("m:1@x", &[0]),
    ("d:1970", &[1]),
    ("z:19-29", &[0]),
    ("z:20-30", &[1]),
    ("F:-s", &[0]),
];

/// Whether a pattern chooses these messages of an index. It is None if memory runs out, and so are the results below.
fn chooses(alloc: Global, file: &[u8], pattern: &str, numbers: &[u32]) -> Option<bool> {
    let Ok(index) = IndexView::open(file) else {
        return Some(false);
    };
    let query = query_of(alloc, pattern)?;
    match matches(alloc, &index, &query) {
        Ok(chosen) => Some(chosen.as_slice() == numbers),
        Err(_) => None,
    }
}

/// Whether a pattern chooses only the second of two messages.
fn chooses_second(alloc: Global) -> Option<bool> {
    let file = indexed(alloc, &[("m.mbox", TWO_MESSAGES)])?;
    chooses(alloc, &file, "s:two", &[1])
}

#[test]
fn patterns_choose_messages(rt: HostRuntime) {
    for (pattern, numbers) in CASES {
        let as_wanted = chooses(rt.alloc(), INDEX, pattern, numbers);
        assert!(rt; as_wanted == Some(true), "{pattern}");
    }
    assert!(rt; chooses_second(rt.alloc()) == Some(true));
}

/// Whether a cursor gives the last message that a query chooses, if it starts there, and none after it.
fn gives_last(alloc: Global, index: &IndexView<'_>, query: &Query, last: u32) -> Option<bool> {
    let mut steps = Steps::new(alloc, index);
    let mut cursor = Cursor::new(alloc, index, query, &mut steps).ok()?;
    let given = [
        cursor.next_at_least(last, &mut steps),
        cursor.next_at_least(last, &mut steps),
    ];
    Some(given == [Some(last), None])
}

/// Returns how many steps a cursor takes to begin, for its first number, and for all numbers, if a query chooses
/// exactly the first messages, this many of them.
fn steps_of(
    alloc: Global,
    index: &IndexView<'_>,
    query: &Query,
    count: u32,
) -> Option<(u64, u64, u64)> {
    let mut steps = Steps::new(alloc, index);
    let mut cursor = Cursor::new(alloc, index, query, &mut steps).ok()?;
    let begun = steps.count();
    let mut all = cursor.next(&mut steps) == Some(0);
    let first = steps.count().saturating_sub(begun);
    for number in 1..count {
        all = cursor.next(&mut steps) == Some(number) && all;
    }
    all = cursor.next(&mut steps).is_none() && all;
    let taken = steps.count().saturating_sub(begun);
    let is_last = gives_last(alloc, index, query, count.saturating_sub(1)) == Some(true);
    let is_whole = all && cursor.next(&mut steps).is_none() && is_last;
    is_whole.then_some((begun, first, taken))
}

/// The same for a pattern, and for messages of a text that is repeated this many times.
fn steps_among(
    alloc: Global,
    (text, times): (&str, usize),
    pattern: &str,
    count: u32,
) -> Option<(u64, u64, u64)> {
    let text = text.repeat(alloc, times).ok()?;
    let file = indexed(alloc, &[("m.mbox", text.as_str())])?;
    let (index, query) = asked(alloc, &file, pattern)?;
    steps_of(alloc, &index, &query, count)
}

#[test]
fn a_complement_gives_all_messages(rt: HostRuntime) {
    let steps = steps_among(rt.alloc(), (TWO_MESSAGES, 1), "s:~absent", 2);
    assert!(rt; steps.is_some());
}

// A look-up among nine keys takes at most four steps, and each of the two lists has one number.
#[test]
fn a_choice_takes_few_steps(rt: HostRuntime) {
    let steps = steps_among(rt.alloc(), (TWO_MESSAGES, 1), "s:one/two", 2);
    assert!(rt; matches!(steps, Some((1..=10, _, 1..=2))), "{steps:?}");
}

// Each message has five words, and each word contains the same letter. There are more messages than a window covers.
// For the first number, a window of 32,768 messages is marked in each of the five lists of 33,000 numbers, and no list
// is read to its end.
#[test]
fn a_union_reads_its_lists_window_by_window(rt: HostRuntime) {
    let steps = steps_among(rt.alloc(), ("^|ea eb ec ed ee||", 33_000), "b:e=", 33_000);
    assert!(rt;
        matches!(steps, Some((_, 1..=163_860, 165_000))),
        "{steps:?}"
    );
}

// Each refused allocation is reported as lack of memory, and the result is either that or everything.
#[test]
fn sweep_all_matches_or_want_of_memory(rt: HostRuntime) {
    let as_wanted = chooses(rt.alloc(), INDEX, "s:~re,hello/~h=", &[0]);
    assert!(rt; as_wanted != Some(false));
}
