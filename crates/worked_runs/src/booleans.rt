//! Boolean texts of many shapes, compared with a filter over facts that were written by hand.

use crate::answered::{NOW, indexed};
use mail_answer::matches;
use mail_dates::Moment;
use mail_index::IndexView;
use mail_query::read_boolean;
use std::alloc::Global;

/// Eight messages. The subject of each second one is `a`, the body of each second pair is `b`, and the last four are
/// from `c`.
const EIGHT: &str =
    "^Subject: x|From: x||x||^Subject: a|From: x||x||^Subject: x|From: x||b||^Subject: a|From: x||b||^Subject: x|From: c||x||^Subject: a|From: c||x||^Subject: x|From: c||b||^Subject: a|From: c||b||";

/// A set of messages: the bit 2^n is set if the message n is in it.
type Messages = u8;

const ALL: Messages = 0b1111_1111;

const SUBJECT_A: Messages = 0b1010_1010;

const BODY_B: Messages = 0b1100_1100;

const FROM_C: Messages = 0b1111_0000;

/// Texts before and after an inner one. Each pair is followed by the number of parentheses and negations that are open
/// at the inner text, and by what is chosen: of the messages that the inner text chooses (the others if the next field
/// is ALL), those that are also in the field after it, and all those of the last field.
static SHAPES: [(&str, &str, u32, Messages, Messages, Messages); 6] = [
    ("subject:a or body:b (", ")", 1, 0, BODY_B, SUBJECT_A),
    ("not (", ")", 2, ALL, ALL, 0),
    ("subject:a and (", ") or from:c", 1, 0, SUBJECT_A, FROM_C),
    ("NOT body:b Or (", ")", 1, 0, ALL, !BODY_B),
    ("(", ") and not subject:a", 1, 0, !SUBJECT_A, 0),
    ("body:x or from:c not (", ")", 2, ALL, FROM_C, !BODY_B),
];

/// The innermost text, and what it chooses.
const INMOST: (&str, Messages) = ("subject:a or from:c body:b", SUBJECT_A | FROM_C & BODY_B);

/// The most parentheses and negations that may be open.
const MOST_WAITS: u32 = 30;

/// Whether exactly these messages are chosen.
fn are(chosen: &[u32], messages: Messages) -> bool {
    let mut as_wanted = true;
    for n in 0..8u32 {
        let is_wanted = messages >> n & 1 == 1;
        as_wanted = as_wanted && chosen.contains(&n) == is_wanted;
    }
    as_wanted
}

/// Returns the depth of the query that this text is, if it chooses exactly these messages.
fn depth_of(alloc: Global, index: &IndexView<'_>, text: &str, messages: Messages) -> Option<u32> {
    let query = read_boolean(alloc, text, Moment::new(NOW)?).ok()?;
    match matches(alloc, index, &query) {
        Ok(chosen) => are(&chosen, messages).then_some(query.depth()),
        Err(_) => None,
    }
}

/// Puts shapes around the innermost text, from this shape on and this many further each time, as deep as a reader
/// accepts. Returns the depth of the last query, if each chooses the right messages.
fn depth_of_nested(alloc: Global, index: &IndexView<'_>, first: usize, step: usize) -> Option<u32> {
    let (inmost, mut messages) = INMOST;
    let mut text = String::from_str(alloc, inmost).ok()?;
    let mut waits = 0u32;
    let mut depth = 0;
    for round in 0..=MOST_WAITS as usize {
        depth = depth_of(alloc, index, text.as_str(), messages)?;
        let number = step.wrapping_mul(round).wrapping_add(first) % 6;
        let (front, after, more, turned, kept, added) = SHAPES[number];
        waits = waits.saturating_add(more);
        if waits > MOST_WAITS {
            break;
        }
        text = format!(in alloc; "{front}{text}{after}").ok()?;
        messages = (messages ^ turned) & kept | added;
    }
    Some(depth)
}

/// Does the same for the eight messages.
fn depth_among_eight(alloc: Global, first: usize, step: usize) -> Option<u32> {
    let file = indexed(alloc, &[("m.mbox", EIGHT)])?;
    match IndexView::open(&file) {
        Ok(index) if index.message_count() == 8 => depth_of_nested(alloc, &index, first, step),
        _ => None,
    }
}

#[test]
fn boolean_texts_choose_as_a_filter_does(rt: HostRuntime) {
    let mut deepest = 0;
    for first in 0..6usize {
        for step in 0..6usize {
            let depth = depth_among_eight(rt.alloc(), first, step);
            assert!(rt; depth.is_some(), "from {first} by {step}");
            deepest = deepest.max(depth.unwrap_or(0));
        }
    }
    assert!(rt; deepest == 63);
}
