//! Answers over devices that fail, run full or have changed.

use crate::answered::{
    BOTH_COUSINS, COUSIN as A, COUSINS, OTHER_COUSIN as B, RAW_COUSINS, is_front, is_whole,
    reported_of, text_of,
};
use mail_answer::AnswerFaultKind::{Device, OutFailed, Stale};
use mail_answer::Format;
use std::alloc::Global;

/// The answer to `b:hi` with threads, of two messages, in a form: its text, the least number of calls of the archives
/// that it makes, and how many bytes of each message it reads. The calls are a length of each archive, and a read for
/// each message whose bytes are in the answer.
pub type Form = (Format, &'static str, u64, u64);

const EXCERPTS: &str = "a.mbox|To:|Cc:|From:|Subject:|Date:|b.mbox|To:|Cc:|From:|Subject:|Date:|";

/// An excerpt reads only the header of 75 bytes.
pub const FORMS: &[Form] = &[
    (Format::Raw, RAW_COUSINS, 2, 0),
    (Format::Excerpt, EXCERPTS, 4, 75),
    (Format::Mbox, BOTH_COUSINS, 4, 79),
];

/// A call of the archives that no answer to that query makes.
const BEYOND: u64 = 20;

/// Whether a failure of one call is reported if the answer makes that call, and only then. A raw answer makes only the
/// calls of the lengths. It is None if memory runs out, and so are the results below.
fn reports_failed_call(alloc: Global, form: Form, fail_at: u64) -> Option<bool> {
    let (format, text, least, _) = form;
    let whole = text_of(alloc, text)?;
    let search = ("b:hi", true, format);
    let reported = reported_of(alloc, (&COUSINS, &COUSINS), search, fail_at, None)?;
    let failed = is_front(&reported, Device, &whole);
    let answered = is_whole(&reported, 2, &whole);
    Some(if fail_at <= 2 {
        failed && reported.1.bytes().is_empty()
    } else if fail_at <= least {
        failed
    } else if fail_at == BEYOND || matches!(format, Format::Raw) {
        answered
    } else {
        failed || answered
    })
}

#[test]
fn a_failed_call_leaves_a_front(rt: HostRuntime) {
    for form in FORMS {
        for fail_at in 1..=BEYOND {
            let as_wanted = reports_failed_call(rt.alloc(), *form, fail_at);
            assert!(rt; as_wanted == Some(true), "{} at call {fail_at}", form.1);
        }
    }
}

/// Whether an output takes exactly as many bytes of an answer as it has room for.
fn fills(alloc: Global, (format, text, _, _): Form, room: u64) -> Option<bool> {
    let whole = text_of(alloc, text)?;
    let search = ("b:hi", true, format);
    let reported = reported_of(alloc, (&COUSINS, &COUSINS), search, 0, Some(room))?;
    Some(if room >= whole.len() as u64 {
        is_whole(&reported, 2, &whole)
    } else {
        is_front(&reported, OutFailed, &whole) && reported.1.bytes().len() as u64 == room
    })
}

/// An output with too little room takes as many bytes as it has room for. The longest answer has 158 bytes.
#[test]
fn a_full_output_has_a_front(rt: HostRuntime) {
    for form in FORMS {
        for room in 0..=158 {
            let as_wanted = fills(rt.alloc(), *form, room);
            assert!(rt; as_wanted == Some(true), "{} in {room} bytes", form.1);
        }
    }
}

const OTHER: (&str, &str) = ("m.mbox", "^Subject: x||hi||");

const SHORTER: (&str, &str) = ("a.mbox", "^Message-ID: <1@x>|References: <0@x>||hi|");

const LONGER: (&str, &str) = ("m.mbox", "^Subject: x||ho|||");

/// What has become of the archives A, B and OTHER, and which of them is reported: of several that have changed the
/// first; if there are more or fewer, the smaller number.
const STALE: &[(&[(&str, &str)], u32)] = &[
    (&[], 0),
    (&[A], 1),
    (&[A, B], 2),
    (&[A, B, OTHER, OTHER], 3),
    (&[SHORTER, B, OTHER], 0),
    (&[B, SHORTER, OTHER], 1),
    (&[A, B, LONGER], 2),
    (&[SHORTER, B, LONGER], 0),
    (&[SHORTER, B], 2),
];

/// Whether an answer over changed archives reports this one, or a failure of this call if it makes the call. The
/// lengths are read in order up to the first that differs, and none is if there are more or fewer archives. Nothing is
/// written.
fn is_stale(
    alloc: Global,
    format: Format,
    archives: &[(&str, &str)],
    number: u32,
    fail_at: u64,
) -> Option<bool> {
    let search = ("b:hi", true, format);
    let reported = reported_of(alloc, (&[A, B, OTHER], archives), search, fail_at, None)?;
    let is_asked = archives.len() == 3 && 1 <= fail_at && fail_at <= u64::from(number) + 1;
    let kind = if is_asked { Device } else { Stale(number) };
    Some(is_front(&reported, kind, &[]))
}

/// If there are more or fewer archives, or one has another length, the answer is refused in each form, even if that
/// archive has no message of the answer. A failure is reported exactly if it comes before that.
#[test]
fn changed_archives_are_stale(rt: HostRuntime) {
    for (archives, number) in STALE {
        for (format, text, _, _) in FORMS {
            for fail_at in 0..=4 {
                let as_wanted = is_stale(rt.alloc(), *format, archives, *number, fail_at);
                assert!(rt;
                    as_wanted == Some(true),
                    "{text}: {number}, {archives:?}, call {fail_at}"
                );
            }
        }
    }
}
