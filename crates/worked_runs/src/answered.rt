//! Archives in memory, their indexes, and answers from these.
ghost use Rattle.std.specs.Prelude.{◌<◌, ◌-◌, ◌^◌};

use index_job::IndexJob;
use mail_answer::AnswerFaultKind::{Device, OutFailed, OutOfMemory, Stale};
use mail_answer::{AnswerFault, AnswerFaultKind, Archives, FailAt, Format, MemoryArchives, answer};
use mail_dates::Moment;
use mail_index::{Digests, IndexView, is_path};
use mail_query::{Query, read_mairix};
use mbox_cutter::{MemoryOut, MemorySource, Out};
use std::alloc::Global;

/// Noon of 18 May 2003, UTC.
pub const NOW: i64 = 1_053_259_200;

/// The most archives of a test.
const MOST: u32 = 20;

/// The line at which a message of the rows starts.
const SEPARATOR: &[u8] = b"From a@x.org Thu Jan  2 10:00:00 2003\n";

/// The index of one archive m.mbox with two messages. The first has the subject "hello", the text "hi" and its own id
/// 1@x; it has 19 bytes of text and no date. The second has the subject "hello re", the text "high", its own id 2@x and
/// the link id 1@x; it has 30 bytes of text and the second 1000, and was seen.
pub const INDEX: &[u8] = b"MAIRIX\r\n\
    \0\0\0\x01\0\0\0\x01\0\0\0\x02\0\0\0\x07\0\0\0\0\0\0\0\x12\0\0\0\0\0\0\0\x16\0\0\0\0\0\0\0\x09\
    \0\0\0\0\0\0\0\x78\0\0\0\x06m.mbox\
    \0\0\0\0\0\0\0\0\0\0\0\0\0\0\0\0\0\0\0\0\0\0\0\x3a\0\0\0\0\0\0\0\x13\0\0\0\0\0\0\0\0\
    \0\0\0\0\x09\0\0\0\0\0\0\0\0\0\0\x3a\0\0\0\0\0\0\0\x3e\0\0\0\0\0\0\0\x1e\0\0\0\0\0\0\x03\xe8\
    \x05\0\0\0\0\0\0\x05\0\0\0\0\0\0\0\0\0\0\0\0\0\0\0\0\
    \x05\0\0\0\0\0\0\x02\0\0\0\0\0\0\0\x05\0\0\0\0\0\0\0\x02\
    \x06\0\0\0\0\0\0\x02\0\0\0\0\0\0\0\x07\0\0\0\0\0\0\0\x03\
    \x06\0\0\0\0\0\0\x04\0\0\0\0\0\0\0\x09\0\0\0\0\0\0\0\x04\
    \x07\0\0\0\0\0\0\x03\0\0\0\0\0\0\0\x0d\0\0\0\0\0\0\0\x05\
    \x07\0\0\0\0\0\0\x03\0\0\0\0\0\0\0\x10\0\0\0\0\0\0\0\x06\
    \x08\0\0\0\0\0\0\x03\0\0\0\0\0\0\0\x13\0\0\0\0\0\0\0\x07\
    hellorehihigh1@x2@x1@x\
    \x01\x01\x02\x01\x02\x01\x02\x01\x01\
    \xdd\x4b\xd8\x71\x2e\x1b\xc8\xe3\xcd\x73\xfe\xe3\x6c\xcc\xa0\xbc\
    \x0d\x9a\x70\xf8\x9d\x73\xe3\x6c\x84\0\x4f\x59\xad\xa2\x34\xb4";

/// The archive of that index: a message of 58 bytes, whose last line ends in LF, and one of 62, whose last line
/// doesn't.
pub const ARCHIVE: &[u8] = b"From a\nSubject: =?utf-8?q?h=65llo?=\nTo: x@y\n\nhi to us all\n\
    From b\nSUBJECT: hello\n re\tno\nSubject: other\n\nSubject: highways";

/// An archive of two messages, each with its own subject and body: nine keys.
pub const TWO_MESSAGES: &str =
    "^Subject: one||a||From here on we go||From - Sat Jan  4 12:00:00 2003|Subject: two||b||";

/// A message that refers to another one, which is in no archive.
pub const COUSIN: (&str, &str) = ("a.mbox", "^Message-ID: <1@x>|References: <0@x>||hi||");

/// Another message that refers to the same one.
pub const OTHER_COUSIN: (&str, &str) = ("b.mbox", "^Message-ID: <2@x>|References: <0@x>||ho||");

pub const COUSINS: [(&str, &str); 2] = [COUSIN, OTHER_COUSIN];

/// The answer of both messages as an mbox and in the raw form.
pub const BOTH_COUSINS: &str =
    "^Message-ID: <1@x>|References: <0@x>||hi||^Message-ID: <2@x>|References: <0@x>||ho||";

pub const RAW_COUSINS: &str = "0 79 a.mbox|0 79 b.mbox|";

/// Returns the bytes of a text, in which `^` means the separator line and `|` LF. It is None if memory runs out, and so
/// are the results below.
pub fn text_of(alloc: Global, text: &str) -> Option<Vec<u8>> {
    let mut bytes = Vec::new(alloc);
    let mut is_whole = true;
    for piece in text.as_bytes().chunks(1) {
        let piece = match piece {
            [b'^'] => SEPARATOR,
            [b'|'] => b"\n",
            piece => piece,
        };
        is_whole = bytes.extend_from_slice(piece).is_ok() && is_whole;
    }
    is_whole.then_some(bytes)
}

/// Gives a job an archive by its path and text. It is None also if the archive is refused.
fn index_archive(alloc: Global, job: &mut IndexJob, path: &str, text: &str) -> Option<u64> {
    if !is_path(path) {
        return None;
    }
    let bytes = text_of(alloc, text)?;
    let mut source = MemorySource::new(alloc, &bytes, 7, None).ok()?;
    job.archive(path, &mut source).ok()
}

/// Returns the index file of archives, each given by its path and text. It is None also if one of them is refused.
pub fn indexed(alloc: Global, archives: &[(&str, &str)]) -> Option<Vec<u8>> {
    let mut job = IndexJob::new(alloc, Digests::Computed).ok()?;
    let mut are_indexed = true;
    for (path, text) in archives {
        are_indexed = index_archive(alloc, &mut job, path, text).is_some() && are_indexed;
    }
    let mut out = MemoryOut::new(alloc, None);
    match job.finish(&mut out) {
        Ok(_) if are_indexed => out.bytes().to_vec(alloc).ok(),
        _ => None,
    }
}

/// Adds an archive with this text, if there are fewer than the most.
fn hold(alloc: Global, held: &mut MemoryArchives, text: &str) -> Option<()> {
    if held.count() >= MOST {
        return None;
    }
    held.add(&text_of(alloc, text)?).ok()
}

/// Returns the archives with these texts, if they aren't more than the most.
pub fn held(alloc: Global, archives: &[(&str, &str)]) -> Option<MemoryArchives> {
    let mut held = MemoryArchives::new(alloc);
    let mut are_held = true;
    for (_, text) in archives {
        are_held = hold(alloc, &mut held, text).is_some() && are_held;
    }
    are_held.then_some(held)
}

/// Returns the query of a pattern. It is None also if the pattern is refused.
pub fn query_of(alloc: Global, pattern: &str) -> Option<Query> {
    let now = Moment::new(NOW)?;
    let word = String::from_str(alloc, pattern).ok()?;
    read_mairix(alloc, &[word], now).ok()
}

/// Returns the index of a file, and the query of a pattern. It is None also if one of them is refused.
pub fn asked<'a>(alloc: Global, file: &'a [u8], pattern: &str) -> Option<(IndexView<'a>, Query)> {
    match IndexView::open(file) {
        Ok(index) => Some((index, query_of(alloc, pattern)?)),
        Err(_) => None,
    }
}

/// The result of an answer, and what it has written.
pub type Reported = (Result<u64, AnswerFault>, MemoryOut);

/// Writes the answer from an index file over archives to an output: for a pattern, with threads or without, in a form.
/// It is None also if the file or the pattern is refused.
pub fn reported_to<A: Archives, O: Out>(
    alloc: Global,
    file: &[u8],
    search: (&str, bool, Format),
    archives: &mut A,
    out: &mut O,
) -> Option<Result<u64, AnswerFault>>
    requires archives { A.failures archives.old < 2 ^ 64 - 1 }
    requires out { O.failures out.old < 2 ^ 64 - 1 }
{
    let (pattern, threads, format) = search;
    let (index, query) = asked(alloc, file, pattern)?;
    Some(answer(alloc, &index, &query, threads, format, archives, out))
}

/// Returns the result of such an answer, and what it writes into this much room.
pub fn reported<A: Archives>(
    alloc: Global,
    file: &[u8],
    search: (&str, bool, Format),
    archives: &mut A,
    room: Option<u64>,
) -> Option<Reported>
    requires { A.failures archives.old < 2 ^ 64 - 1 }
{
    let mut out = MemoryOut::new(alloc, room);
    let reported = reported_to(alloc, file, search, archives, &mut out)?;
    Some((reported, out))
}

/// Returns the result of an answer by the index of some archives, and what it writes into this much room. The archives
/// are others, of which this call fails, or none if it is 0.
pub fn reported_of(
    alloc: Global,
    (of_index, archives): (&[(&str, &str)], &[(&str, &str)]),
    search: (&str, bool, Format),
    fail_at: u64,
    room: Option<u64>,
) -> Option<Reported> {
    let file = indexed(alloc, of_index)?;
    let mut archives = FailAt::new(held(alloc, archives)?, fail_at);
    reported(alloc, &file, search, &mut archives, room)
}

/// Whether an answer is this whole text, with this many messages.
pub fn is_whole((reported, sent): &Reported, messages: u64, whole: &[u8]) -> bool {
    matches!(reported, Ok(count) if *count == messages) && sent.bytes() == whole
}

/// Whether both are the same fault.
pub fn is_same(one: AnswerFaultKind, other: AnswerFaultKind) -> bool {
    match (one, other) {
        (Stale(a), Stale(b)) => a == b,
        (Device, Device) | (OutOfMemory, OutOfMemory) | (OutFailed, OutFailed) => true,
        _ => false,
    }
}

/// Whether an answer failed with this fault, and has sent the first bytes of the text, as many as it reports.
pub fn is_front((reported, out): &Reported, kind: AnswerFaultKind, whole: &[u8]) -> bool {
    let sent = out.bytes();
    let length = sent.len() as u64;
    matches!(reported, Err(fault) if is_same(fault.kind, kind) && fault.sent == length)
        && whole.starts_with(sent)
}
