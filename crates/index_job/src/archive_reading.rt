//! Reads one archive, and adds its messages to a builder.
ghost use Rattle.std.specs.Prelude.{◌≡◌, ◌<◌, ◌+◌, ◌-◌, ◌^◌, true, false, ℕ, List, Option, Some, Err, IfOk, IfErr, OnOk, length, IsSome};
ghost use Rattle.std.specs.Io.KnownBytes.{IsAtEnd};
ghost use Rattle.std.specs.Option.{MatchOption};
ghost use Rattle.sha2.specs.Sha256.{sha256};
ghost use Rattle.contract_words.specs.Devices.{Counted};
ghost use Rattle.contract_words.specs.Knowledge.{still_known};
ghost use Rattle.mail_index.specs.Builders.{Draft, IsInMessage};
ghost use Rattle.mail_index.specs.Files.{digest_or_zeros};
ghost use Rattle.mail_index.specs.Tables.{IsPath};
ghost use Rattle.mbox_cutter.specs.Archives.{Message, messages as messages_of, text as text_of};
ghost use Rattle.mbox_cutter.specs.Sources.{ReadsSource, Stays};
ghost use Rattle.mbox_cutter.specs.declared.event.CutFault.{CutFault};
ghost use Rattle.mbox_cutter.specs.Events.{archive_refusal};
ghost use Rattle.mbox_cutter.specs.declared.scan.Phase.TheVariants as Phase;
ghost use Rattle.mail_index.specs.Limits.{most_in_archive};
ghost use Rattle.index_job.specs.Inside.ArchiveReading.{Awaited, AwaitsEnd, AddsMessages, coming_inside, coming_ahead, IsHeading, Heads, ReadsToEnd, AddsMessage, IsInsideMessage, GoesFurther, HasEnded, IsReading, HasReadAll, IsMessageFault};
ghost use Rattle.index_job.specs.Inside.Gathering.{HasGathered};
ghost use Rattle.index_job.specs.Inside.WaitingLines.{with_waiting};
ghost use Rattle.index_job.specs.ArchiveTables.{Mbox};
ghost use Rattle.index_job.specs.IndexJobs.{IsAdded, IsAddFault};
ghost use Rattle.index_job.specs.Indexing.{draft_of_archives, IsArchiveFault, IsIdle, IsJobFault, IsReadyForMessage};
ghost use Rattle.index_job.specs.JobFaults.{is_source_failure};

use crate::folding_room::FoldingRoom;
use crate::gathering::feed_line;
use crate::job_fault::JobFault;
use crate::message_end::{Span, finish_message};
use mail_index::{Builder, Digests, NO_DIGEST};
use mbox_cutter::{Buffer, Cutter, Digested, Event, Source};
use mime_text::MessageText;
use std::alloc::Global;

/// The most bytes of an archive: 2^40.
const MOST_IN_ARCHIVE: u64 = 1_099_511_627_776;

/// The end of a message: the lengths of its span and of its text.
#[derive(Clone, Copy)]
struct Ended {
    length: u64,
    size: u64,
}

/// What comes between two messages: the next message begins at this offset in the archive, or the archive has ended
/// with this many bytes.
#[derive(Clone, Copy)]
enum Heading {
    Message(u64),
    End(u64),
}

/// An archive whose messages are indexed, before its end is added to the builder: its number of messages and of bytes.
#[derive(Clone, Copy)]
struct ReadArchive {
    messages: u64,
    length: u64,
}

/// Reads on to the next message, or to the archive's end, while no message is open. Fails if the cutter does.
fn next_heading<'a, S: Source>(cutter: &mut Cutter<'a, S>) -> Result<Heading, JobFault>
    requires between { cutter.old.place.phase ≡ Phase.Between }
    requires count { S.failures cutter.old.source.now < 2 ^ 64 - 1 }
    ensures reads { ReadsSource S.Source (is_source_failure result) cutter.old.source
        cutter.new.source }
    ensures most { OnOk result (cutter.new.place.most ≡ cutter.old.place.most) }
    ensures place { IfOk result (λ heading. IsHeading heading cutter.old.place cutter.new.place) }
    ensures end { IfOk result (λ heading. ReadsToEnd heading (S.rest cutter.new.source.now)) }
    ensures known { IfOk result (λ heading. (all : ℕ) (ms : Option (List Message))
        (refusal : Option CutFault) → still_known cutter.old.coming (S.rest cutter.new.source.now)
        ≡ Some (coming_ahead all ms refusal) → Heads heading all ms refusal cutter.new.coming) }
    ensures fault { IfErr result (λ fault. (all : ℕ) (ms : Option (List Message))
        (refusal : Option CutFault)
        → still_known cutter.old.coming (S.rest cutter.new.source.now)
        ≡ Some (coming_ahead all ms refusal) → IsJobFault refusal ⊥ fault) }
    ensures own { IfErr result IsArchiveFault }
{
    match cutter.next_event()? {
        Event::Start { offset } => Ok(Heading::Message(offset)),
        Event::Done { length } => Ok(Heading::End(length)),
        // Neither comes between two messages.
        Event::Line => unreachable!(),
        Event::End { .. } => unreachable!(),
    }
}

/// Gathers the next line of the open message, and returns None; or returns the message's end.
fn next_line<'a, S: Source>(
    cutter: &mut Cutter<'a, S>,
    text: &mut MessageText,
    room: &mut FoldingRoom,
    builder: &mut Builder,
    start: u64,
) -> Result<Option<Ended>, JobFault>
    requires inside { IsInsideMessage start cutter.old.place }
    requires phase { IsInMessage builder.old }
    requires count { S.failures cutter.old.source.now < 2 ^ 64 - 1 }
    ensures reads { ReadsSource S.Source (is_source_failure result) cutter.old.source
        cutter.new.source }
    ensures further { OnOk result (GoesFurther cutter.old.place cutter.new.place) }
    ensures place { IfOk result (λ end. MatchOption end (IsInsideMessage start cutter.new.place)
        (λ e. HasEnded start e cutter.new.place)) }
    ensures gathers { OnOk result ((d : Draft) (ls : List (List ℕ))
        → HasGathered text.old (with_waiting room.old.waiting builder.old) d ls
        → (ms : List (List ℕ))
        × HasGathered text.new (with_waiting room.new.waiting builder.new) d ms) }
    ensures known { IfOk result (λ end. (d : Draft) (w : Awaited) (ls rest : List (List ℕ))
        → IsReading d w ls rest text.old (with_waiting room.old.waiting builder.old)
        (still_known cutter.old.coming (S.rest cutter.new.source.now))
        → MatchOption end ((more left : List (List ℕ)) × IsReading d w more left text.new
        (with_waiting room.new.waiting builder.new) cutter.new.coming)
        (λ e. HasReadAll d w e text.new (with_waiting room.new.waiting builder.new)
        cutter.new.coming)) }
    ensures fault { IfErr result (λ fault. (d : Draft) (w : Awaited) (ls rest : List (List ℕ))
        → IsReading d w ls rest text.old (with_waiting room.old.waiting builder.old)
        (still_known cutter.old.coming (S.rest cutter.new.source.now))
        → IsMessageFault d w fault) }
    ensures own { IfErr result (λ fault. (d : Draft) (ls : List (List ℕ))
        → HasGathered text.old (with_waiting room.old.waiting builder.old) d ls
        → IsArchiveFault fault) }
{
    match cutter.next_event()? {
        Event::Line => {
            feed_line(text, cutter.line(), room, builder)?;
            Ok(None)
        }
        Event::End { length, size } => Ok(Some(Ended { length, size })),
        // Neither comes inside a message.
        Event::Start { .. } => unreachable!(),
        Event::Done { .. } => unreachable!(),
    }
}

/// Adds the message that has just begun, with all its lines.
fn add_message<'a, S: Source>(
    text: &mut MessageText,
    cutter: &mut Cutter<'a, S>,
    room: &mut FoldingRoom,
    builder: &mut Builder,
    archive: u32,
    offset: u64,
) -> Result<(), JobFault>
    requires inside { IsInsideMessage offset cutter.old.place }
    requires most { cutter.old.place.most ≡ most_in_archive }
    requires count { S.failures cutter.old.source.now < 2 ^ 64 - 1 }
    requires ready { IsReadyForMessage archive offset builder.old }
    ensures reads { ReadsSource S.Source (is_source_failure result) cutter.old.source
        cutter.new.source }
    ensures further { OnOk result (GoesFurther cutter.old.place cutter.new.place) }
    ensures between { OnOk result (cutter.new.place.phase ≡ Phase.Between) }
    ensures ready { OnOk result (IsReadyForMessage archive cutter.new.place.offset builder.new) }
    ensures known { (w : Awaited) → w.message.offset ≡ offset
        → still_known cutter.old.coming (S.rest cutter.new.source.now)
        ≡ Some (coming_inside w (text_of w.message))
        → AddsMessage archive builder.old w result builder.new cutter.new.coming }
    ensures own { IfErr result IsArchiveFault }
{
    builder.begin_message()?;
    text.begin_again();
    // Only after a fault are there lines of another message.
    room.waiting.clear();
    'lines: loop {
        if let Some(Ended { length, size }) = next_line(cutter, text, room, builder, offset)? {
            let span = Span {
                archive,
                offset,
                length,
                size,
            };
            return finish_message(text, room, builder, span);
        }
    }
}

/// Adds the archive's messages, one after another. The caller has to end the archive in the builder.
fn add_messages<'a, S: Source>(
    text: &mut MessageText,
    cutter: &mut Cutter<'a, S>,
    room: &mut FoldingRoom,
    builder: &mut Builder,
    archive: u32,
) -> Result<ReadArchive, JobFault>
    requires between { cutter.old.place.phase ≡ Phase.Between }
    requires most { cutter.old.place.most ≡ most_in_archive }
    requires count { S.failures cutter.old.source.now < 2 ^ 64 - 1 }
    requires ready { IsReadyForMessage archive cutter.old.place.offset builder.old }
    ensures reads { ReadsSource S.Source (is_source_failure result) cutter.old.source
        cutter.new.source }
    ensures ended { IfOk result (λ read. AwaitsEnd archive (S.rest cutter.new.source.now)
        read.length builder.new) }
    ensures known { (all : ℕ) (ms : Option (List Message)) (refusal : Option CutFault)
        → still_known cutter.old.coming (S.rest cutter.new.source.now)
        ≡ Some (coming_ahead all ms refusal)
        → AddsMessages archive builder.old all ms refusal result builder.new }
    ensures own { IfErr result IsArchiveFault }
{
    let mut messages: u64 = 0;
    'messages: loop {
        match next_heading(cutter)? {
            Heading::Message(offset) => {
                add_message(text, cutter, room, builder, archive, offset)?;
                messages += 1;
            }
            Heading::End(length) => {
                return Ok(ReadArchive { messages, length });
            }
        }
    }
}

/// Reads an archive to its end, and adds its messages; one reader of texts serves all of them. The caller has to end
/// the archive in the builder, because only the caller has the digest.
fn read_archive<S: Source>(
    alloc: Global,
    source: &mut S,
    kept: &mut Option<Buffer>,
    room: &mut FoldingRoom,
    builder: &mut Builder,
    archive: u32,
) -> Result<ReadArchive, JobFault>
    requires count { S.failures source.old < 2 ^ 64 - 1 }
    requires ready { IsReadyForMessage archive 0 builder.old }
    ensures stays { Stays S.Source source.old source.new }
    ensures count { Counted (is_source_failure result) (S.failures source.old)
        (S.failures source.new) }
    ensures ended { IfOk result (λ read. AwaitsEnd archive (S.rest source.new) read.length
        builder.new) }
    ensures known { (bytes : List ℕ)
        → still_known (S.rest source.old) (S.rest source.new) ≡ Some bytes
        → AddsMessages archive builder.old (length bytes) (messages_of bytes)
        (archive_refusal most_in_archive bytes) result builder.new }
    ensures own { IfErr result IsArchiveFault }
{
    let buffer = match kept.take() {
        Some(buffer) => buffer,
        None => Buffer::new(alloc)?,
    };
    let mut text = MessageText::new(alloc)?;
    let mut cutter = Cutter::over(buffer, source, MOST_IN_ARCHIVE);
    let read = add_messages(&mut text, &mut cutter, room, builder, archive);
    let _source = source_of(cutter, kept);
    read
}

/// Gives back the source of a cutter, and keeps its buffer for the next one.
fn source_of<'a, S: Source>(cutter: Cutter<'a, S>, kept: &mut Option<Buffer>) -> &'a mut S
    ensures name { result.ghost_name ≡ cutter.entry.source.ghost_name }
    ensures same { result.now ≡ cutter.entry.source.now }
    ensures kept { IsSome kept.new }
{
    let (source, buffer) = cutter.into_parts();
    *kept = Some(buffer);
    source
}

/// Does what `read_archive` does, and returns the digest of all bytes that the one read of the source gives.
fn read_digested<S: Source>(
    alloc: Global,
    source: &mut S,
    kept: &mut Option<Buffer>,
    room: &mut FoldingRoom,
    builder: &mut Builder,
    archive: u32,
) -> (Result<ReadArchive, JobFault>, [u8; 32])
    requires count { S.failures source.old < 2 ^ 64 - 1 }
    requires ready { IsReadyForMessage archive 0 builder.old }
    ensures stays { Stays S.Source source.old source.new }
    ensures count { Counted (is_source_failure result.0) (S.failures source.old)
        (S.failures source.new) }
    ensures ended { IfOk result.0 (λ read. AwaitsEnd archive (S.rest source.new) read.length
        builder.new) }
    ensures known { (bytes : List ℕ)
        → still_known (S.rest source.old) (S.rest source.new) ≡ Some bytes
        → AddsMessages archive builder.old (length bytes) (messages_of bytes)
        (archive_refusal most_in_archive bytes) result.0 builder.new }
    ensures digest { OnOk result.0 ((bytes : List ℕ)
        → still_known (S.rest source.old) (S.rest source.new) ≡ Some bytes
        → result.1 ≡ sha256 bytes) }
    ensures own { IfErr result.0 IsArchiveFault }
{
    let mut digested = Digested::new(source);
    let read = read_archive(alloc, &mut digested, kept, room, builder, archive);
    (read, digested.finish())
}

/// An archive that is added: its path, its number, and whether its digest is computed.
#[derive(Clone, Copy)]
pub(crate) struct NewArchive<'a> {
    pub(crate) path: &'a str,
    pub(crate) number: u32,
    pub(crate) digests: Digests,
}

/// Does what `read_archive` does, and returns what the archive's entry has for a digest.
fn read_for_entry<S: Source>(
    alloc: Global,
    source: &mut S,
    kept: &mut Option<Buffer>,
    room: &mut FoldingRoom,
    builder: &mut Builder,
    archive: NewArchive<'_>,
) -> (Result<ReadArchive, JobFault>, [u8; 32])
    requires count { S.failures source.old < 2 ^ 64 - 1 }
    requires ready { IsReadyForMessage archive.number 0 builder.old }
    ensures stays { Stays S.Source source.old source.new }
    ensures count { Counted (is_source_failure result.0) (S.failures source.old)
        (S.failures source.new) }
    ensures ended { IfOk result.0 (λ read. AwaitsEnd archive.entry.number (S.rest source.new)
        read.length builder.new) }
    ensures known { (bytes : List ℕ)
        → still_known (S.rest source.old) (S.rest source.new) ≡ Some bytes
        → AddsMessages archive.entry.number builder.old (length bytes) (messages_of bytes)
        (archive_refusal most_in_archive bytes) result.0 builder.new }
    ensures digest { OnOk result.0 ((bytes : List ℕ)
        → still_known (S.rest source.old) (S.rest source.new) ≡ Some bytes
        → result.1 ≡ digest_or_zeros archive.entry.digests bytes) }
    ensures own { IfErr result.0 IsArchiveFault }
{
    let number = archive.number;
    match archive.digests {
        Digests::Computed => read_digested(alloc, source, kept, room, builder, number),
        Digests::LeftOut => {
            let read = read_archive(alloc, source, kept, room, builder, number);
            (read, NO_DIGEST)
        }
    }
}

/// Adds an archive by one read of its source, and returns the number of its messages. After a fault the builder may
/// have a part of the archive.
pub(crate) fn add_archive<S: Source>(
    alloc: Global,
    source: &mut S,
    kept: &mut Option<Buffer>,
    room: &mut FoldingRoom,
    builder: &mut Builder,
    archive: NewArchive<'_>,
) -> Result<u64, JobFault>
    requires count { S.failures source.old < 2 ^ 64 - 1 }
    requires idle { builder.old.failed ≡ false → IsIdle archive.number builder.old }
    requires path { IsPath archive.path.now }
    ensures ok { IfOk result (λ n. (before : List Mbox) (bytes : List ℕ)
        → builder.old ≡ draft_of_archives archive.entry.digests before
        → still_known (S.rest source.old) (S.rest source.new) ≡ Some bytes
        → IsAdded before (record { path = archive.entry.path.now; bytes = bytes }) n
        (record { digests = archive.entry.digests; draft = builder.new })) }
    ensures err { IfErr result (λ fault. (before : List Mbox) (bytes : List ℕ)
        → builder.old ≡ draft_of_archives archive.entry.digests before
        → still_known (S.rest source.old) (S.rest source.new) ≡ Some bytes
        → IsAddFault before (record { path = archive.entry.path.now; bytes = bytes }) fault) }
    ensures idle { OnOk result (IsIdle (archive.entry.number + 1) builder.new) }
    ensures end { OnOk result (IsAtEnd (S.rest source.new)) }
    ensures stays { Stays S.Source source.old source.new }
    ensures count { Counted (is_source_failure result) (S.failures source.old)
        (S.failures source.new) }
    ensures own { builder.old.failed ≡ false → IfErr result IsArchiveFault }
    ensures failed { builder.old.failed ≡ true → (result ≡ Err JobFault.Failed)
        × (source.new ≡ source.old) }
{
    builder.begin_archive(archive.path)?;
    let (read, digest) = read_for_entry(alloc, source, kept, room, builder, archive);
    let ReadArchive { messages, length } = read?;
    builder.end_archive(length, digest)?;
    Ok(messages)
}
