//! Index files that a job makes of archives, against results that were worked out by hand.
ghost use Rattle.std.specs.Prelude.{◌<◌};

use crate::rows::bytes_of;
use index_job::{IndexJob, JobFault};
use mail_index::{Digests, IndexView, Kind, Steps, WriteFault, is_path};
use mail_words::TextKind;
use mbox_cutter::{MemoryOut, MemorySource};
use std::alloc::Global;
use std::fmt::InlineText;

const HELLO: &str = "^Subject: Hello||hi||";

pub const PATH: &str = "m.mbox";

/// The index file of `HELLO`, with both digests computed by another program.
const FILE: &[u8] = b"MAIRIX\r\n\
    \0\0\0\x02\0\0\0\x01\0\0\0\x01\0\0\0\x02\0\0\0\0\0\0\0\x32\0\0\0\0\0\0\0\x07\0\0\0\0\0\0\0\x02\
    \0\0\0\0\0\0\0\x3a\0\0\0\x06m.mbox\
    \xb9\x19\x37\x94\x6f\x36\x32\xee\xda\x9c\x0b\x8f\xeb\xd4\xe6\xfa\
    \x75\x09\x78\xae\x0d\x2d\x98\x45\x9f\xe9\xa1\xc5\x35\x1c\xed\xe4\
    \0\0\0\0\0\0\0\0\0\0\0\0\0\0\0\0\0\0\0\0\0\0\0\x3a\0\0\0\0\0\0\0\x13\0\0\0\0\0\0\0\0\
    \x05\0\0\0\0\0\0\x05\0\0\0\0\0\0\0\0\0\0\0\0\0\0\0\0\
    \x06\0\0\0\0\0\0\x02\0\0\0\0\0\0\0\x05\0\0\0\0\0\0\0\x01\
    hellohi\
    \x01\x01\
    \x5f\xe7\xac\x60\x10\x5f\x15\x52\xa1\x0f\xe7\x04\x98\xf7\xc4\x44\
    \xed\xa9\x8a\x70\x3c\xd9\xa8\x95\x83\x4b\x2d\x17\xcf\x2b\xc7\x49";

/// Returns a job and what it returned for an archive under the path. The archive comes in pieces of this many bytes,
/// and may fail at a read. It is None if memory runs out.
fn begun(
    alloc: Global,
    text: &str,
    piece: usize,
    fail_at: Option<u64>,
) -> Option<(IndexJob, Result<u64, JobFault>)>
    requires { 0 < piece }
{
    if !is_path(PATH) {
        return None;
    }
    let archive = bytes_of(alloc, text)?;
    let mut source = MemorySource::new(alloc, &archive, piece, fail_at).ok()?;
    let mut job = IndexJob::new(alloc, Digests::Computed).ok()?;
    let answer = job.archive(PATH, &mut source);
    Some((job, answer))
}

/// The file of an index of this archive, of one message. It is None where the job answers anything else.
fn indexed(alloc: Global, text: &str, piece: usize) -> Option<Vec<u8>>
    requires { 0 < piece }
{
    let (job, answer) = begun(alloc, text, piece, None)?;
    let mut out = MemoryOut::new(alloc, None);
    let length = job.finish(&mut out).ok()?;
    if matches!(answer, Ok(1)) && length == out.bytes().len() as u64 {
        out.bytes().to_vec(alloc).ok()
    } else {
        None
    }
}

/// Whether a job writes the file of one message, of 227 bytes.
fn is_written(alloc: Global, piece: usize) -> Option<bool>
    requires { 0 < piece }
{
    let written = indexed(alloc, HELLO, piece)?;
    Some(written.as_slice() == FILE && written.len() == 227)
}

#[test]
fn the_file_of_one_message_is_written(rt: HostRuntime) {
    for piece in [1usize, 7, 65_536] {
        assert!(rt;
            is_written(rt.alloc(), piece) == Some(true),
            "in pieces of {piece}"
        );
    }
}

/// Whether message 0 alone has a word of a kind.
fn is_of_first(alloc: Global, view: &IndexView<'_>, kind: TextKind, word: &[u8]) -> bool {
    let mut steps = Steps::new(alloc, view);
    let mut postings = view.look_up(Kind::Text(kind), word, &mut steps);
    let first = postings.next(&mut steps);
    first == Some(0) && postings.next(&mut steps).is_none()
}

/// Whether in the index file of these bytes only message 0 has this word in its body.
pub fn has_body_word(alloc: Global, file: &[u8], word: &str) -> bool {
    match IndexView::open(file) {
        Ok(view) => is_of_first(alloc, &view, TextKind::Body, word.as_bytes()),
        Err(_) => false,
    }
}

/// Whether a subject is indexed by its folded text, in a file of 228 bytes.
fn has_folded_subject(alloc: Global) -> Option<bool> {
    let text = "^Subject: =?iso-8859-1?Q?Gr=FC=DFe?=||x||";
    let file = indexed(alloc, text, 7)?;
    let view = IndexView::open(&file).ok()?;
    let subject = b"\x67\x72\xc3\xbc\x73\x73\x65";
    let is_key = is_of_first(alloc, &view, TextKind::Subject, subject);
    Some(is_key && is_of_first(alloc, &view, TextKind::Body, b"x") && file.len() == 228)
}

#[test]
fn a_folded_subject_is_a_key(rt: HostRuntime) {
    assert!(rt; has_folded_subject(rt.alloc()) == Some(true));
}

/// Whether a job returns `Failed` from each call, and writes nothing. It is None if memory runs out.
pub fn has_failed(alloc: Global, mut job: IndexJob) -> Option<bool> {
    if !is_path(PATH) {
        return None;
    }
    let sound = bytes_of(alloc, HELLO)?;
    let mut source = MemorySource::new(alloc, &sound, 7, None).ok()?;
    let mut out = MemoryOut::new(alloc, None);
    let are_refused = matches!(job.archive(PATH, &mut source), Err(JobFault::Failed))
        && matches!(job.finish(&mut out), Err(WriteFault::Failed));
    Some(are_refused && out.bytes().is_empty())
}

/// Whether a job refuses an archive with this fault, and has failed then. It is None if memory runs out.
fn is_lost(alloc: Global, text: &str, fail_at: Option<u64>, fault: &str) -> Option<bool> {
    match begun(alloc, text, 7, fail_at)? {
        (job, Err(JobFault::Cut(reported))) => {
            let reported: InlineText<32> = InlineText::of(reported);
            Some(has_failed(alloc, job)? && reported.as_str() == fault)
        }
        _ => Some(false),
    }
}

#[test]
fn nothing_goes_on_after_a_fault(rt: HostRuntime) {
    for (text, fail_at, fault) in [
        (HELLO, Some(1), "read failed"),
        (HELLO, Some(10), "read failed"),
        ("hello|", None, "not an mbox"),
    ] {
        let as_wanted = is_lost(rt.alloc(), text, fail_at, fault);
        assert!(rt; as_wanted == Some(true), "{text}: {fail_at:?}");
    }
}

/// Whether an output with this much room takes exactly this much of the file. It is None if memory runs out.
fn is_front(alloc: Global, room: usize) -> Option<bool> {
    let (job, answer) = begun(alloc, HELLO, 7, None)?;
    let mut out = MemoryOut::new(alloc, Some(room as u64));
    let finished = job.finish(&mut out);
    let front = FILE.get(..room)?;
    let is_refused = matches!(answer, Ok(1)) && matches!(finished, Err(WriteFault::Out));
    Some(is_refused && out.bytes() == front)
}

/// An output with less room than the file takes as many bytes as it has room for.
#[test]
fn a_failed_output_leaves_a_front(rt: HostRuntime) {
    for room in 0..FILE.len() {
        assert!(rt; is_front(rt.alloc(), room) == Some(true), "{room} bytes");
    }
}
