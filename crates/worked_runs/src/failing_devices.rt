//! Runs over devices of which one call fails, or that run full: over archives that are indexed, and over their stored
//! index.

use crate::fixture::{COUSINS, Given, HELLO, Reported, SOUND, TWO_MESSAGES, reports};
use std::alloc::Global;

/// Archives, a row of which runs over them have the outcome if nothing fails, and the number of messages in the answer.
/// A run reads the length of each archive, and makes one read for each message in the answer. With `--verify` it first
/// reads each length, and each archive in one read.
const ANSWERED: [(&str, &str, u64); 5] = [
    (
        COUSINS,
        "-t, -r, b:hi => found 2: 0 79 a.mbox|0 79 b.mbox|",
        0,
    ),
    (
        COUSINS,
        "-t, -x, b:hi => found 2: a.mbox|To:|Cc:|From:|Subject:|Date:|b.mbox|To:|Cc:|From:|Subject:|Date:|",
        2,
    ),
    (
        COUSINS,
        "-t, --stdout, b:hi => found 2: ^Message-ID: <1@x>|References: <0@x>||hi||^Message-ID: <2@x>|References: <0@x>||ho||",
        2,
    ),
    (TWO_MESSAGES, "-r, s:one => found 1: 0 75 m.mbox|", 0),
    (
        TWO_MESSAGES,
        "--stdout, s:one/two => found 2: ^Subject: one||a||From here on we go||From - Sat Jan  4 12:00:00 2003|Subject: two||b||",
        2,
    ),
];

/// A call of the archives that no run makes.
const BEYOND: u64 = 10;

/// Whether the outcome of a run that makes this many calls of the archives is right: a failure if one of these calls
/// fails, otherwise that of the row. Nothing is sent before the first read of a message in the answer.
fn is_reported(
    given: &Given,
    calls: u64,
    failing_call: u64,
    shown: u64,
    reported: &Reported,
) -> bool {
    let Some(reported) = reported else {
        return false;
    };
    if failing_call > calls {
        return *reported == given.reported;
    }
    let sent = given.sent_before(b"refused 4: archive read failed", reported);
    sent == Some(0) || (sent.is_some() && calls.saturating_sub(failing_call) < shown)
}

/// Whether all runs report each failing call of the archives with the first bytes of the answer, and succeed if the
/// failing call is one that they don't make: the run that indexes the archives itself, the search of their stored
/// index, and that with `--verify`.
fn report_failing_calls(alloc: Global, given: &Given, shown: u64) -> Option<bool> {
    let lengths = given.archives.len() as u64;
    let searched = lengths.saturating_add(shown);
    let verified = lengths.saturating_mul(2).saturating_add(searched);
    let mut devices = SOUND;
    let mut as_wanted = true;
    for failing_call in 1..=BEYOND {
        devices.failing_call = failing_call;
        let reported = given.all(alloc, devices)?;
        for (reported, calls) in reported.iter().zip(&[searched, searched, verified]) {
            as_wanted = is_reported(given, *calls, failing_call, shown, reported) && as_wanted;
        }
    }
    Some(as_wanted)
}

/// Whether this is the outcome if the output has this much room.
fn fills(given: &Given, room: usize, reported: &Reported) -> bool {
    match reported {
        Some(reported) if room < given.answer().len() => {
            given.sent_before(b"refused 4: output failed", reported) == Some(room)
        }
        Some(reported) => *reported == given.reported,
        None => false,
    }
}

/// Whether all runs fill an output of each room, up to that of the whole answer.
fn fill_each_room(alloc: Global, given: &Given) -> Option<bool> {
    let mut devices = SOUND;
    let mut as_wanted = true;
    for room in 0..=given.answer().len() {
        devices.room = Some(room as u64);
        for reported in &given.all(alloc, devices)? {
            as_wanted = fills(given, room, reported) && as_wanted;
        }
    }
    Some(as_wanted)
}

/// After a failed call of the archives, and in a full output, the output has the first bytes of the answer.
#[test]
fn devices_that_end_leave_a_front(rt: HostRuntime) {
    for (archives, row, shown) in ANSWERED {
        let given = Given::over(rt.alloc(), archives, row).expect(&rt, "what is given");
        let report = report_failing_calls(rt.alloc(), &given, shown);
        assert!(rt; report.unwrap_or(false), "failing calls: {row}");
        let fill = fill_each_room(rt.alloc(), &given);
        assert!(rt; fill.unwrap_or(false), "rooms: {row}");
    }
}

/// Archives, a row whose outcome a run over them has if no read fails, and how many reads of this many bytes are made
/// of each archive: the last read finds its end.
const READ: [(&str, &str, [(usize, [u64; 2]); 2]); 4] = [
    (
        HELLO,
        "-r, s:hello => found 1: 0 58 m.mbox|",
        [(1, [59, 0]), (7, [10, 0])],
    ),
    (
        "^Subject: Hello||hi|| & ^Subject: one||a||From here on we go||From - Sat Jan  4 12:00:00 2003|Subject: two||b||",
        "-r, s:hello/two => found 2: 0 58 a.mbox|75 49 b.mbox|",
        [(1, [59, 125]), (7, [10, 19])],
    ),
    (
        COUSINS,
        "-t, --stdout, b:hi => found 2: ^Message-ID: <1@x>|References: <0@x>||hi||^Message-ID: <2@x>|References: <0@x>||ho||",
        [(1, [80, 80]), (7, [13, 13])],
    ),
    // A failed read of the first archive is reported before a second archive that is no mbox.
    (
        "^Subject: Hello||hi|| & x|",
        "-r, s:hello/two => refused 4: archive 2: not an mbox",
        [(1, [59, 2]), (7, [10, 1])],
    ),
];

/// Returns the outcome if these reads fail, and this many reads of each archive are made.
fn reported_of_reads(given: &Given, failing: [Option<u64>; 2], [first, second]: [u64; 2]) -> &[u8] {
    match failing {
        [Some(read), _] if read <= first => b"refused 4: archive 1: read failed",
        [_, Some(read)] if read <= second => b"refused 4: archive 2: read failed",
        _ => &given.reported,
    }
}

/// Whether each failed read, of either archive or of both, is reported with nothing sent.
fn reports_failing_reads(alloc: Global, given: &Given, piece: usize, reads: [u64; 2]) -> bool {
    let mut devices = SOUND;
    devices.piece = piece;
    let mut as_wanted = true;
    for n in 1..=reads[0].max(reads[1]).saturating_add(1) {
        for failing in [[Some(n), None], [None, Some(n)], [Some(n), Some(n)]] {
            devices.failing_reads = failing;
            let wanted = reported_of_reads(given, failing, reads);
            as_wanted = reports(given.once(alloc, devices), wanted) && as_wanted;
        }
    }
    as_wanted
}

#[test]
fn a_failed_read_is_reported(rt: HostRuntime) {
    for (archives, row, by_pieces) in READ {
        let given = Given::over(rt.alloc(), archives, row).expect(&rt, "what is given");
        for (piece, reads) in by_pieces {
            let as_wanted = reports_failing_reads(rt.alloc(), &given, piece, reads);
            assert!(rt; as_wanted, "{row} by {piece}");
        }
    }
}
