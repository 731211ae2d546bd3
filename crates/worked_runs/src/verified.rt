//! Archives that are compared with the digests in their index.
ghost use Rattle.std.specs.Prelude.{◌≡◌};
ghost use Rattle.mail_index.specs.Builders.{empty_draft, IsBetweenArchives};
ghost use Rattle.mail_index.specs.Tables.{IsPath};

use crate::answered::is_same;
use crate::early_end::EarlyEnd;
use crate::verified::Change::{Bit, Longer};
use mail_answer::AnswerFaultKind::{Device, OutFailed, OutOfMemory, Stale};
use mail_answer::{AnswerFault, AnswerFaultKind, Archives, FailAt, MemoryArchives, verify};
use mail_index::{BuildFault, Builder, Digests, IndexView, is_path};
use mbox_cutter::MemoryOut;
use std::alloc::Global;

/// The digests of the archives `abc`, a million times `a`, and nothing, which FIPS 180-4 publishes.
const ABC: [u8; 32] = *b"\xba\x78\x16\xbf\x8f\x01\xcf\xea\x41\x41\x40\xde\x5d\xae\x22\x23\
    \xb0\x03\x61\xa3\x96\x17\x7a\x9c\xb4\x10\xff\x61\xf2\x00\x15\xad";

const MANY: [u8; 32] = *b"\xcd\xc7\x6e\x5c\x99\x14\xfb\x92\x81\xa1\xc7\xe2\x84\xd7\x3e\x67\
    \xf1\x80\x9a\x48\xa4\x97\x20\x0e\x04\x6d\x39\xcc\xc7\x11\x2c\xd0";

const NOTHING: [u8; 32] = *b"\xe3\xb0\xc4\x42\x98\xfc\x1c\x14\x9a\xfb\xf4\xc8\x99\x6f\xb9\x24\
    \x27\xae\x41\xe4\x64\x9b\x93\x4c\xa4\x95\x99\x1b\x78\x52\xb8\x55";

/// The number of calls of the archives: three lengths, and a read of the first archive and eight of the second.
const CALLS: u64 = 12;

/// How an archive changes after it was indexed.
#[derive(Clone, Copy)]
enum Change {
    /// The lowest bit of the byte at this offset is turned.
    Bit(usize),
    /// The archive has one more byte at its end.
    Longer,
}

/// Gives a builder these archives, without messages.
fn build(builder: &mut Builder, path: &str) -> Result<(), BuildFault>
    requires empty { builder.old ≡ empty_draft 3 }
    requires path { IsPath path.now }
    ensures phase { IsBetweenArchives builder.new }
{
    builder.begin_archive(path)?;
    builder.end_archive(3, ABC)?;
    builder.begin_archive(path)?;
    builder.end_archive(1_000_000, MANY)?;
    builder.begin_archive(path)?;
    builder.end_archive(0, NOTHING)
}

/// Returns the index file of the archives. It is None if memory runs out, and so are the results below.
fn index_file(alloc: Global) -> Option<MemoryOut> {
    let path = "m.mbox";
    if !is_path(path) {
        return None;
    }
    let mut builder = Builder::new(alloc, 3);
    match build(&mut builder, path) {
        Ok(()) => {
            let mut out = MemoryOut::new(alloc, None);
            builder
                .write(&mut out, Digests::Computed)
                .is_ok()
                .then_some(out)
        }
        Err(_) => None,
    }
}

/// Changes the bytes of an archive.
fn make(change: Change, bytes: &mut Vec<u8>) -> Option<()> {
    match change {
        Longer => bytes.push(b'a').ok(),
        Bit(at) => {
            *bytes.get_mut(at)? ^= 1;
            Some(())
        }
    }
}

/// Returns the bytes of the archive with this number as they were indexed, with the changes of this archive. After the
/// last archive there are no bytes.
fn changed_bytes(alloc: Global, n: usize, changes: &[(usize, Change)]) -> Option<Vec<u8>> {
    let indexed = match n {
        0 => b"abc".to_vec(alloc),
        1 => vec![in alloc; b'a'; 1_000_000],
        _ => Ok(Vec::new(alloc)),
    };
    let mut bytes = indexed.ok()?;
    let mut are_made = true;
    for (archive, change) in changes {
        if *archive == n {
            are_made = make(*change, &mut bytes).is_some() && are_made;
        }
    }
    are_made.then_some(bytes)
}

/// Adds the archive with this number after the others, of which there are few.
fn hold(
    alloc: Global,
    held: &mut MemoryArchives,
    n: usize,
    changes: &[(usize, Change)],
) -> Option<()> {
    if held.count() >= 10 {
        return None;
    }
    held.add(&changed_bytes(alloc, n, changes)?).ok()
}

/// Returns this many archives, with these changes.
fn held(alloc: Global, count: usize, changes: &[(usize, Change)]) -> Option<MemoryArchives> {
    let mut held = MemoryArchives::new(alloc);
    let mut are_held = true;
    for n in 0..count {
        are_held = hold(alloc, &mut held, n, changes).is_some() && are_held;
    }
    are_held.then_some(held)
}

/// An end after the end of each archive.
const NO_END: u64 = u64::MAX;

/// The result for a fault. [`verify`] sends nothing.
fn failed(kind: AnswerFaultKind) -> Result<(), AnswerFault> {
    Err(AnswerFault { kind, sent: 0 })
}

/// Whether this is the result.
fn is_reported(
    reported: &Option<Result<(), AnswerFault>>,
    wanted: Result<(), AnswerFault>,
) -> bool {
    match (reported, wanted) {
        (Some(Ok(())), Ok(())) => true,
        (Some(Err(a)), Err(b)) => is_same(a.kind, b.kind) && a.sent == b.sent,
        _ => false,
    }
}

/// Returns the result for this many archives with these changes, by the index of those that were indexed. This call
/// fails, or none if it is 0, and each archive is read as if it ended at this offset. If the index can't be read, the
/// result is one that no row has.
fn reported(
    alloc: Global,
    count: usize,
    changes: &[(usize, Change)],
    fail_at: u64,
    end: u64,
) -> Option<Result<(), AnswerFault>> {
    let file = index_file(alloc)?;
    let inner = held(alloc, count, changes)?;
    let first = 0;
    let mut archives = FailAt::new(EarlyEnd { inner, first, end }, fail_at);
    match IndexView::open(file.bytes()) {
        Ok(index) if index.version() == 2 => { Some(verify(alloc, &index, &mut archives)) }
        _ => Some(failed(OutFailed)),
    }
}

/// Returns the result if a call fails; otherwise that of this changed archive, or success if none has changed.
fn reported_of(is_failing: bool, stale: Option<u32>) -> Result<(), AnswerFault> {
    match stale {
        _ if is_failing => failed(Device),
        Some(n) => failed(Stale(n)),
        None => Ok(()),
    }
}

/// The number of archives there are now, their changes, the archive that is reported, and the number of calls of the
/// archives. The number of archives is compared first, then the lengths, then the digests. The first archive that
/// differs is reported, and none after it is read.
const CHANGED: &[(usize, &[(usize, Change)], Option<u32>, u64)] = &[
    (3, &[], None, CALLS),
    (3, &[(0, Bit(0))], Some(0), 4),
    (3, &[(0, Bit(2))], Some(0), 4),
    (3, &[(1, Bit(0))], Some(1), CALLS),
    (3, &[(1, Bit(131_071))], Some(1), CALLS),
    (3, &[(1, Bit(131_072))], Some(1), CALLS),
    (3, &[(1, Bit(999_999))], Some(1), CALLS),
    (3, &[(0, Bit(1)), (1, Bit(1))], Some(0), 4),
    (3, &[(0, Bit(1)), (1, Longer)], Some(1), 2),
    (3, &[(0, Bit(1)), (2, Longer)], Some(2), 3),
    (3, &[(0, Longer), (2, Longer)], Some(0), 1),
    (3, &[(2, Longer)], Some(2), 3),
    (2, &[(0, Longer)], Some(2), 0),
    (4, &[(0, Bit(1))], Some(3), 0),
    (0, &[], Some(0), 0),
];

/// A failure is reported if one of these calls fails; otherwise the change is, even if a call after the last one would
/// fail. If nothing has changed, each call fails in turn; otherwise only the last one does.
#[test]
fn changed_archives_are_reported(rt: HostRuntime) {
    for (count, changes, stale, calls) in CHANGED {
        let first = if changes.is_empty() { 0 } else { *calls };
        for fail_at in first..=calls.saturating_add(1) {
            let is_failing = 1 <= fail_at && fail_at <= *calls;
            let reported = reported(rt.alloc(), *count, changes, fail_at, NO_END);
            assert!(rt;
                is_reported(&reported, reported_of(is_failing, *stale)),
                "{count} archives, {stale:?}, call {fail_at}: {reported:?}"
            );
        }
    }
}

/// Where archives end, before the lengths that they report, and which archive is reported as changed.
const ENDS: &[(u64, Option<u32>)] = &[
    (0, Some(0)),
    (2, Some(0)),
    (3, Some(1)),
    (131_072, Some(1)),
    (999_999, Some(1)),
    (1_000_000, None),
];

#[test]
fn an_early_end_is_reported(rt: HostRuntime) {
    for (end, stale) in ENDS {
        let reported = reported(rt.alloc(), 3, &[], 0, *end);
        assert!(rt;
            is_reported(&reported, reported_of(false, *stale)),
            "to {end}: {reported:?}"
        );
    }
}

/// Changes, and the archive that is reported.
const SWEPT: &[(&[(usize, Change)], Option<u32>)] = &[
    (&[], None),
    (&[(0, Bit(0))], Some(0)),
    (&[(1, Longer)], Some(1)),
];

/// Each refused allocation is reported as lack of memory, but only if the number of archives and their lengths are
/// those that were indexed.
#[test]
fn sweep_verify(rt: HostRuntime) {
    for (changes, stale) in SWEPT {
        let reported = reported(rt.alloc(), 3, changes, 0, NO_END);
        let is_wanting = is_reported(&reported, failed(OutOfMemory)) && *stale != Some(1);
        let as_wanted = reported.is_none()
            || is_reported(&reported, reported_of(false, *stale))
            || is_wanting;
        assert!(rt; as_wanted, "{stale:?}: {reported:?}");
    }
}
