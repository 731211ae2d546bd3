//! The queries that are read from texts, on one day.

use mail_dates::Moment;
use mail_query::{Query, QueryFault, read_boolean, read_mairix};
use or_memory::OrMemory;
use std::alloc::Global;

/// Noon of 18 May 2003, UTC.
const NOW: i64 = 1_053_259_200;

/// Returns the query or its refusal. It is None if memory ran out.
fn unless_memory(read: Result<Query, OrMemory<QueryFault>>) -> Option<Result<Query, QueryFault>> {
    match read {
        Ok(query) => Some(Ok(query)),
        Err(OrMemory::Refused(fault)) => Some(Err(fault)),
        Err(OrMemory::Memory) => None,
    }
}

/// Returns what is read from patterns, which are separated by `, `. It is None if memory runs out.
pub fn read_patterns(alloc: Global, text: &str) -> Option<Result<Query, QueryFault>> {
    let now = Moment::new(NOW)?;
    let mut patterns = Vec::new(alloc);
    for pattern in text.split(", ") {
        if !pattern.is_empty() {
            patterns.push(String::from_str(alloc, pattern).ok()?).ok()?;
        }
    }
    unless_memory(read_mairix(alloc, patterns.as_slice(), now))
}

/// What is read of a Boolean text. It is None if memory runs out.
pub fn read_text(alloc: Global, text: &str) -> Option<Result<Query, QueryFault>> {
    unless_memory(read_boolean(alloc, text, Moment::new(NOW)?))
}
