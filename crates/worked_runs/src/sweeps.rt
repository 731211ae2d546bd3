//! Calls of which each allocation is refused in turn: the gate runs these tests with a library that refuses the first
//! allocation, then the second, and so on. Each call returns its whole result, or reports lack of memory and leaves
//! what it promises. If there is no memory for a fixture, the test succeeds.

use crate::fixture::{COUSINS, Given, HELLO, Reported, SOUND, TWO_MESSAGES};
use std::alloc::Global;
use std::process::Abort;

/// Whether a run reports that it found messages, with the whole answer, or lack of memory, with the first bytes of the
/// answer. If an output in memory can't grow, that device has failed. There is no outcome if there was no memory for
/// the fixture.
fn is_answered(given: &Given, reported: Reported) -> bool {
    let Some(reported) = reported else {
        return true;
    };
    reported == given.reported
        || given
            .sent_before(b"refused 5: out of memory", &reported)
            .is_some()
        || given
            .sent_before(b"refused 4: output failed", &reported)
            .is_some()
}

/// Whether this is so for a run that indexes the archives itself, then for a search of their stored index, and then for
/// one that first reads all archives.
fn are_answered(alloc: Global, given: &Given) -> bool {
    is_answered(given, given.once(alloc, SOUND))
        && match &given.index {
            Some(index) => {
                is_answered(given, given.stored(alloc, index, SOUND))
                    && is_answered(given, given.verified(alloc, index, SOUND))
            }
            None => true,
        }
}

/// Asserts that this is so for the runs of a row.
fn check<R: Abort + AllocGlobal>(rt: &R, archives: &str, row: &str) {
    if let Some(given) = Given::over(rt.alloc(), archives, row) {
        assert!(rt; are_answered(rt.alloc(), &given), "{row}");
    }
}

#[test]
fn sweep_runs_of_one_message(rt: HostRuntime) {
    let row = "--once, -r, s:hello => found 1: 0 58 m.mbox|";
    check(&rt, HELLO, row);
}

#[test]
fn sweep_runs_that_write_an_excerpt(rt: HostRuntime) {
    let row = "-x, s:hello => found 1: m.mbox|To:|Cc:|From:|Subject: Hello|Date:|";
    check(&rt, HELLO, row);
}

#[test]
fn sweep_runs_that_write_an_mbox(rt: HostRuntime) {
    let row = "--stdout, s:hello => found 1: ^Subject: Hello||hi||";
    check(&rt, HELLO, row);
}

#[test]
fn sweep_runs_of_two_messages(rt: HostRuntime) {
    let row = "--once, -r, s:one => found 1: 0 75 m.mbox|";
    check(&rt, TWO_MESSAGES, row);
}

#[test]
fn sweep_runs_of_a_boolean_query(rt: HostRuntime) {
    let row = "-r, --boolean, not (subject:one or not subject:two) => found 1: 75 49 m.mbox|";
    check(&rt, TWO_MESSAGES, row);
}

/// Patterns of words, parts, ids, dates, sizes and flags.
#[test]
fn sweep_runs_of_two_archives(rt: HostRuntime) {
    let archives =
        "^Message-ID: <1@x>|Date: 4 May 2003 10:00|Status: R||hi|| & ^Message-ID: <1@x>|Date: 4 May 2003 10:00|Status: R||hi||";
    let row =
        "--once, -r, hi/ho, bs:~a,h=, m:@=, d:2003, z:-99, F:s => found 2: 0 94 a.mbox|0 94 b.mbox|";
    check(&rt, archives, row);
}

#[test]
fn sweep_runs_with_threads(rt: HostRuntime) {
    let row = "-r, -t, b:hi => found 2: 0 79 a.mbox|0 79 b.mbox|";
    check(&rt, COUSINS, row);
}

#[test]
fn sweep_runs_that_write_threads_as_an_mbox(rt: HostRuntime) {
    let row = "--stdout, -t, s:hello => found 1: ^Subject: Hello||hi||";
    check(&rt, HELLO, row);
}
