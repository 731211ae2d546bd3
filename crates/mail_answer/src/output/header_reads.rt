//! Reads the header of a message from its archive.
ghost use Rattle.std.specs.Prelude.{◌≡◌, ◌<◌, ◌≤◌, ◌-◌, ◌^◌, List, [], false, length, drop, IfOk, IfErr, OnOk, IfSome, IsSome};
ghost use Rattle.header_text.specs.HeldLines.{HasLines};
ghost use Rattle.header_text.specs.Headers.{HeaderField, fields_of};
ghost use Rattle.mbox_cutter.specs.LineReaders.{known_bytes};
ghost use Rattle.mbox_cutter.specs.Lines.{lines};
ghost use Rattle.mbox_cutter.specs.Sources.{ReadsSource, Stays};
ghost use Rattle.contract_words.specs.Devices.{Counted};
ghost use Rattle.contract_words.specs.Knowledge.{still_known};
ghost use Rattle.mail_answer.specs.Faults.{has_fault, is_of_archives, is_of_output, is_stale, IfStale};
ghost use Rattle.mail_answer.specs.Inside.Calls.{ReadsArchives};
ghost use Rattle.mail_answer.specs.Inside.HeaderReads.{HasFields, WillHaveFields, HasFieldsAfter, IsShorter};
ghost use Rattle.mail_answer.specs.Inside.Readings.{span_reading, IsInsideArchive, ReadsOrEnds};
ghost use Rattle.mail_answer.specs.Shapes.{span};
ghost use Rattle.mail_answer.specs.declared.format.Format.TheVariants.{Excerpt};

use crate::archives::Archives;
use crate::fault::AnswerFaultKind;
use crate::output::archive_part::ArchivePart;
use header_text::{Header, Taken};
use mail_index::Record;
use mbox_cutter::{Buffer, LineReader, Source};
use std::alloc::Global;

/// Reads the next line into a header. Returns Ended if the header has ended, or if no line is left.
fn read_line<S: Source>(
    reader: &mut LineReader<'_, S>,
    header: &mut Header,
) -> Result<Taken, AnswerFaultKind>
    requires { S.failures reader.old.source.now < 2 ^ 64 - 1 }
    ensures reads { ReadsSource S.Source (has_fault is_of_archives result)
        reader.old.source reader.new.source }
    ensures fields { IfOk result (λ taken. (fields : List HeaderField)
        → WillHaveFields (known_bytes S.rest reader.old) header.old fields
        → HasFieldsAfter taken (known_bytes S.rest reader.new) header.new fields) }
    ensures less { IfOk result (λ taken. taken ≡ Taken.More
        → IsShorter (known_bytes S.rest reader.old) (known_bytes S.rest reader.new)) }
    ensures own { has_fault is_of_output result ≡ false }
    ensures fresh { has_fault is_stale result ≡ false }
{
    let Ok(n) = reader.next_line() else {
        return Err(AnswerFaultKind::Device);
    };
    if n == 0 {
        return Ok(Taken::Ended);
    }
    let taken = header.push_line(reader.line())?;
    Ok(taken)
}

/// Reads lines into a header, from the second one up to the first that is empty. Each line has at least one byte, so
/// there are no more than `most` lines if there are no more bytes.
fn read_lines<S: Source>(
    reader: &mut LineReader<'_, S>,
    most: u64,
    header: &mut Header,
) -> Result<(), AnswerFaultKind>
    requires few { IfSome (known_bytes S.rest reader.old) (λ bytes. length bytes ≤ most) }
    requires none { HasLines header.old [] }
    requires count { S.failures reader.old.source.now < 2 ^ 64 - 1 }
    ensures reads { ReadsSource S.Source (has_fault is_of_archives result)
        reader.old.source reader.new.source }
    ensures fields { OnOk result (IfSome (still_known (known_bytes S.rest reader.old)
        (S.rest reader.new.source.now))
        (λ bytes. HasFields header.new (fields_of (drop 1 (lines bytes))))) }
    ensures own { has_fault is_of_output result ≡ false }
    ensures fresh { has_fault is_stale result ≡ false }
{
    let Ok(_first) = reader.next_line() else {
        return Err(AnswerFaultKind::Device);
    };
    let mut more = most;
    'lines: while more > 0 {
        if let Taken::Ended = read_line(reader, header)? {
            return Ok(());
        }
        more -= 1;
    }
    Ok(())
}

/// Reads the lines of a source, which has at most `most` bytes, into a header. The buffer is kept for the next source.
fn read_source<S: Source>(
    alloc: Global,
    source: &mut S,
    most: u64,
    kept: &mut Option<Buffer>,
    header: &mut Header,
) -> Result<(), AnswerFaultKind>
    requires few { IfSome (S.rest source.old) (λ bytes. length bytes ≤ most) }
    requires none { HasLines header.old [] }
    requires count { S.failures source.old < 2 ^ 64 - 1 }
    ensures stays { Stays S.Source source.old source.new }
    ensures count { Counted (has_fault is_of_archives result)
        (S.failures source.old) (S.failures source.new) }
    ensures fields { OnOk result (IfSome (still_known (S.rest source.old) (S.rest source.new))
        (λ bytes. HasFields header.new (fields_of (drop 1 (lines bytes))))) }
    ensures kept { OnOk result (IsSome kept.new) }
    ensures own { has_fault is_of_output result ≡ false }
    ensures fresh { has_fault is_stale result ≡ false }
{
    let buffer = match kept.take() {
        Some(buffer) => buffer,
        None => Buffer::new(alloc)?,
    };
    let mut reader = LineReader::over(buffer, source);
    let read = read_lines(&mut reader, most, header);
    let _source = source_of(reader, kept);
    read
}

/// Gives back the source of a reader, and keeps its buffer for the next one.
fn source_of<'a, S: Source>(reader: LineReader<'a, S>, kept: &mut Option<Buffer>) -> &'a mut S
    ensures name { result.ghost_name ≡ reader.entry.source.ghost_name }
    ensures same { result.now ≡ reader.entry.source.now }
    ensures kept { IsSome kept.new }
{
    let (source, buffer) = reader.into_parts();
    *kept = Some(buffer);
    source
}

/// Reads the header of a message: the lines after its first one, up to the first that is empty. Fails if the archive
/// ends early or can't be read, or if memory runs out.
pub(crate) fn read_header<A: Archives>(
    alloc: Global,
    message: Record,
    kept: &mut Option<Buffer>,
    archives: &mut A,
) -> Result<Header, AnswerFaultKind>
    requires inside { IsInsideArchive (A.number archives.old) (A.held archives.old)
        (span_reading message) }
    requires count { A.failures archives.old < 2 ^ 64 - 1 }
    ensures archives { ReadsArchives A.Archives archives.old archives.new result }
    ensures fields { IfOk result (λ header. IfSome (A.held archives.new)
        (λ bytes. HasFields header (fields_of (drop 1 (lines (span bytes message)))))) }
    ensures kept { OnOk result (IsSome kept.new) }
    ensures own { has_fault is_of_output result ≡ false }
    ensures stale { IfErr result (λ kind. IfStale kind (λ n. n ≡ message.archive)) }
    ensures read { ReadsOrEnds A.Archives Excerpt message archives.old archives.new result }
{
    let mut part = ArchivePart {
        archives,
        archive: message.archive,
        next: message.offset,
        left: message.length,
        early_ends: 0,
    };
    let mut header = Header::new(alloc);
    let read = read_source(alloc, &mut part, message.length, kept, &mut header);
    if part.early_ends > 0 {
        return Err(AnswerFaultKind::Stale(message.archive));
    }
    read?;
    Ok(header)
}
