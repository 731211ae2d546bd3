//! The files that builders write, and a builder's limits, with enough memory.
ghost use Rattle.std.specs.Prelude.{◌≡◌, ◌<◌, ◌≤◌, true, length, IfOk, OnErr};
ghost use Rattle.mail_index.specs.Builders.{empty_draft, IsBetweenArchives};
ghost use Rattle.mail_index.specs.Tables.{IsPath};

use crate::compared::have_numbers;
use crate::counted::Counted;
use crate::index_files::{ARCHIVE_DIGEST, ONLY};
use mail_index::{
    BuildFault, Builder, Digests, IndexView, Kind, Prefetched, Steps, WriteFault, is_path,
};
use mail_words::TextKind;
use mbox_cutter::MemoryOut;
use std::alloc::Global;

pub const PATH: &str = "m.mbox";

/// Gives a builder an archive with one message, which has the subject "hello", and a key that comes twice.
///
/// # Errors
///
/// The first fault of the builder.
pub fn build(builder: &mut Builder, path: &str, kind: Kind, key: &[u8]) -> Result<(), BuildFault>
    requires empty { builder.old ≡ empty_draft 2 }
    requires path { IsPath path.now }
    requires some { 0 < length key.now }
    requires short { length key.now ≤ 262144 }
    ensures lost { OnErr result (builder.new.failed ≡ true) }
    ensures phase { IsBetweenArchives builder.new }
{
    builder.begin_archive(path)?;
    builder.begin_message()?;
    builder.add(kind, key)?;
    builder.add(Kind::Text(TextKind::Subject), b"hello")?;
    builder.add(kind, key)?;
    builder.end_message(ONLY)?;
    builder.end_archive(58, ARCHIVE_DIGEST)
}

/// Returns the file that a builder writes, if the length that it reports is right. It is None if memory runs out, and
/// so are the results below.
fn file_of(alloc: Global, builder: &Builder) -> Option<MemoryOut>
    requires phase { IsBetweenArchives builder.now }
{
    let mut out = MemoryOut::new(alloc, None);
    let count = builder.write(&mut out, Digests::Computed);
    let length = out.bytes().len() as u64;
    matches!(count, Ok(reported) if reported == length).then_some(out)
}

/// Returns the file of the archive with one message.
pub fn written(alloc: Global, kind: Kind, key: &[u8]) -> Option<MemoryOut>
    requires some { 0 < length key.now }
    requires short { length key.now ≤ 262144 }
{
    if !is_path(PATH) {
        return None;
    }
    let mut builder = Builder::new(alloc, 2);
    match build(&mut builder, PATH, kind, key) {
        Ok(()) => file_of(alloc, &builder),
        Err(_) => None,
    }
}

/// Returns the file of an empty table.
pub fn written_of_none(alloc: Global) -> Option<MemoryOut> {
    file_of(alloc, &Builder::new(alloc, 0))
}

/// Whether both faults are lack of memory, or both are that there are too many.
fn is_same(one: BuildFault, other: BuildFault) -> bool {
    match one {
        BuildFault::OutOfMemory => matches!(other, BuildFault::OutOfMemory),
        BuildFault::TooMany => matches!(other, BuildFault::TooMany),
        _ => false,
    }
}

/// Whether a call was refused with this fault, and the builder has lost all that it was given: each later call returns
/// `Failed`.
pub fn is_lost(builder: &mut Builder, answer: Result<(), BuildFault>, fault: BuildFault) -> bool
    requires { OnErr answer (builder.old.failed ≡ true) }
{
    if answer.is_ok() {
        return false;
    }
    let later = [
        builder.begin_archive(PATH),
        builder.begin_message(),
        builder.add(Kind::OwnId, b"hi"),
        builder.end_message(ONLY),
        builder.end_archive(58, ARCHIVE_DIGEST),
    ];
    let written = builder.write(&mut Counted { bytes: 0 }, Digests::Computed);
    let is_refused = match answer {
        Ok(()) => false,
        Err(refusal) => is_same(refusal, fault),
    };
    let has_failed = later
        .iter()
        .all(|answer| matches!(answer, Err(BuildFault::Failed)));
    is_refused && has_failed && matches!(written, Err(WriteFault::Failed))
}

/// The parts of which a builder may have one each.
#[derive(Clone, Copy, Debug)]
enum Part {
    Archive,
    Message,
    Key,
}

/// Returns what a builder with an archive, a message and a key returns when it is given a second one of these. All
/// before it was taken.
fn answer_to_second(
    builder: &mut Builder,
    path: &str,
    second: Part,
) -> Result<Result<(), BuildFault>, BuildFault>
    requires empty { builder.old ≡ empty_draft 1 }
    requires path { IsPath path.now }
    ensures lost { IfOk result (λ answer. OnErr answer (builder.new.failed ≡ true)) }
{
    builder.begin_archive(path)?;
    builder.begin_message()?;
    builder.add(Kind::OwnId, b"1@x")?;
    if let Part::Key = second {
        return Ok(builder.add(Kind::LinkId, b"1@x"));
    }
    builder.end_message(ONLY)?;
    if let Part::Message = second {
        return Ok(builder.begin_message());
    }
    builder.end_archive(58, ARCHIVE_DIGEST)?;
    Ok(builder.begin_archive(path))
}

/// Whether a builder for at most one archive, one message and one key refuses a second one of this part.
fn has_too_many(alloc: Global, second: Part) -> bool {
    if !is_path(PATH) {
        return false;
    }
    let mut builder = Builder::new(alloc, 1);
    match answer_to_second(&mut builder, PATH, second) {
        Ok(answer) => is_lost(&mut builder, answer, BuildFault::TooMany),
        Err(_) => false,
    }
}

#[test]
fn one_more_is_too_many(rt: HostRuntime) {
    for second in [Part::Archive, Part::Message, Part::Key] {
        assert!(rt; has_too_many(rt.alloc(), second), "{second:?}");
    }
}

/// Whether a builder reports that the open message has a key once it has it, and doesn't report that for another key,
/// or in the next message.
fn reports_key(builder: &mut Builder, path: &str) -> Result<bool, BuildFault>
    requires empty { builder.old ≡ empty_draft 2 }
    requires path { IsPath path.now }
{
    let place = Prefetched::of(Kind::OwnId, b"1@x");
    builder.begin_archive(path)?;
    builder.begin_message()?;
    let before = builder.has_recent(Kind::OwnId, b"1@x", place);
    builder.add(Kind::OwnId, b"1@x")?;
    let after = builder.has_recent(Kind::OwnId, b"1@x", place);
    let of_others = builder.has_recent(Kind::LinkId, b"1@x", place);
    builder.end_message(ONLY)?;
    builder.begin_message()?;
    let in_next = builder.has_recent(Kind::OwnId, b"1@x", place);
    Ok([before, after, of_others, in_next] == [false, true, false, false])
}

/// Whether a new builder does that.
fn reports_what_it_has(alloc: Global) -> bool {
    is_path(PATH) && matches!(reports_key(&mut Builder::new(alloc, 2), PATH), Ok(true))
}

#[test]
fn keys_that_came_are_reported(rt: HostRuntime) {
    assert!(rt; reports_what_it_has(rt.alloc()));
}

/// Whether in a file only the first message has an id.
fn has_id(alloc: Global, file: &[u8], id: &[u8]) -> bool {
    match IndexView::open(file) {
        Ok(view) => {
            let mut steps = Steps::new(alloc, &view);
            let looked_up = view.look_up(Kind::OwnId, id, &mut steps);
            have_numbers(looked_up, &[0], &mut steps)
        }
        Err(_) => false,
    }
}

/// Whether a key with this many bytes is written and found.
fn is_found(alloc: Global, length: usize) -> Option<bool>
    requires some { 0 < length }
    requires short { length ≤ 262144 }
{
    let id = vec![in alloc; b'x'; length].ok()?;
    let file = written(alloc, Kind::OwnId, &id)?;
    Some(has_id(alloc, file.bytes(), &id))
}

/// The entry of a key has room for 15 of its bytes, and the longest key is as long as a header.
#[test]
fn keys_of_each_length_are_found(rt: HostRuntime) {
    for length in [1usize, 15, 16, 2_048, 2_049, 65_537, 262_144] {
        assert!(rt;
            is_found(rt.alloc(), length) == Some(true),
            "{length} bytes"
        );
    }
}
