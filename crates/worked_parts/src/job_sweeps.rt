//! Calls of which each allocation is refused in turn: the gate runs these tests with a library that refuses the first
//! allocation, then the second, and so on. Each call returns its whole result, or reports lack of memory and leaves
//! what it promises. If there is no memory for a fixture, the test succeeds.
use crate::index_jobs::{PATH, has_body_word, has_failed};
use crate::rows::bytes_of;
use index_job::{IndexJob, JobFault};
use mail_index::{Digests, WriteFault, is_path};
use mbox_cutter::{MemoryOut, MemorySource};
use std::alloc::Global;

/// Whether an archive with one message, which has this word in its body, is indexed into a file of this many bytes, or
/// lack of memory is reported. A job that has reported it has failed. It is None if there is no memory for a fixture.
fn is_indexed_or_wanting(alloc: Global, text: &str, word: &str, size: u64) -> Option<bool> {
    if !is_path(PATH) {
        return Some(false);
    }
    let archive = bytes_of(alloc, text)?;
    let mut source = MemorySource::new(alloc, &archive, 7, None).ok()?;
    let mut job = match IndexJob::new(alloc, Digests::Computed) {
        Ok(job) => job,
        Err(_) => return Some(true),
    };
    match job.archive(PATH, &mut source) {
        Ok(_) => Some(is_written_or_wanting(alloc, job, word, size)),
        Err(JobFault::OutOfMemory) => has_failed(alloc, job),
        Err(_) => Some(false),
    }
}

/// Whether a job writes this many bytes of an index with this word, or the output has no memory.
fn is_written_or_wanting(alloc: Global, job: IndexJob, word: &str, size: u64) -> bool {
    let mut out = MemoryOut::new(alloc, None);
    match job.finish(&mut out) {
        Ok(written) => written == size && has_body_word(alloc, out.bytes(), word),
        Err(fault) => matches!(fault, WriteFault::Out),
    }
}

#[test]
fn sweep_index_job_of_an_encoded_text(rt: HostRuntime) {
    let text =
        "^Content-Type: text/plain; charset=utf-8|Content-Transfer-Encoding: base64||ZsO|8cg==||";
    let as_wanted = is_indexed_or_wanting(rt.alloc(), text, "f\u{fc}r", 199);
    assert!(rt; as_wanted != Some(false));
}

#[test]
fn sweep_index_job_of_parts(rt: HostRuntime) {
    let text =
        "^Content-Type: multipart/mixed; boundary=o||--o|Content-Type: multipart/mixed; boundary=i||--i||inner|--o||outer|--o--||";
    let as_wanted = is_indexed_or_wanting(rt.alloc(), text, "outer", 230);
    assert!(rt; as_wanted != Some(false));
}
