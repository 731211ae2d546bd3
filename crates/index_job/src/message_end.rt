//! Ends a message whose terms are gathered.
ghost use Rattle.std.specs.Prelude.{◌≡◌, ◌<◌, ◌≤◌, ◌+◌, false, ℕ, List, IfErr, OnOk};
ghost use Rattle.header_text.specs.Headers.{fields_of};
ghost use Rattle.mail_index.specs.Builders.{Draft};
ghost use Rattle.mime_text.specs.MessageFacts.{HasSizedIds, facts_of};
ghost use Rattle.mime_text.specs.Texts.{texts_of_message};
ghost use Rattle.mail_index.specs.Limits.{most_in_archive};
ghost use Rattle.index_job.specs.ArchiveTables.{date_in_field};
ghost use Rattle.index_job.specs.Inside.Gathering.{HasGathered, IsGatheringMessage, IsGatherFault, with_texts};
ghost use Rattle.index_job.specs.Indexing.{draft_with_terms, IsOpenAt};
ghost use Rattle.index_job.specs.JobFaults.{is_source_failure};
ghost use Rattle.index_job.specs.Inside.MessageEnds.{ended_with};
ghost use Rattle.index_job.specs.Inside.WaitingLines.{with_waiting};
ghost use Rattle.index_job.specs.MessageTerms.{id_terms, message_terms};

use crate::folding_room::FoldingRoom;
use crate::gathering::end_text;
use crate::job_fault::JobFault;
use crate::term_sink::add_ids;
use mail_dates::read_date;
use mail_index::{Builder, Record};
use mime_text::{Facts, MessageText};

/// Returns the second that the Date field names. None if there is no such field, or if it can't be read.
fn date_of(facts: &Facts) -> Option<i64>
    ensures { result ≡ date_in_field facts.now.date_text }
{
    match &facts.date_text {
        Some(text) => read_date(text.as_str()),
        None => None,
    }
}

/// The place of a message: the number of its archive, and its offset there; and the lengths of its span and of its
/// text.
#[derive(Clone, Copy)]
pub(crate) struct Span {
    pub(crate) archive: u32,
    pub(crate) offset: u64,
    pub(crate) length: u64,
    pub(crate) size: u64,
}

/// Adds the message's ids, and ends the message. All its other terms must have been gathered.
fn end_message(builder: &mut Builder, facts: &Facts, span: Span) -> Result<(), JobFault>
    requires sizes { HasSizedIds facts.now }
    requires opened { IsOpenAt span.archive span.offset builder.old }
    requires size { span.size < span.length }
    requires within { span.offset + span.length ≤ most_in_archive }
    ensures source { is_source_failure result ≡ false }
    ensures ok { OnOk result (builder.new ≡ ended_with facts.now span builder.old) }
    ensures err { IfErr result
        (IsGatherFault (draft_with_terms (id_terms facts.now) builder.old)) }
{
    add_ids(builder, facts)?;
    builder.end_message(Record {
        archive: span.archive,
        offset: span.offset,
        length: span.length,
        size: span.size,
        date: date_of(facts),
        flags: facts.flags,
    })?;
    Ok(())
}

/// Ends the text of a message, and then the message.
pub(crate) fn finish_message(
    text: &mut MessageText,
    room: &mut FoldingRoom,
    builder: &mut Builder,
    span: Span,
) -> Result<(), JobFault>
    requires opened { IsGatheringMessage span.archive span.offset text.old
        (with_waiting room.old.waiting builder.old) }
    requires size { span.size < span.length }
    requires within { span.offset + span.length ≤ most_in_archive }
    ensures source { is_source_failure result ≡ false }
    ensures ok { OnOk result ((ls : List (List ℕ)) (d : Draft)
        → HasGathered text.old (with_waiting room.old.waiting builder.old) d ls
        → builder.new ≡ ended_with (facts_of (fields_of ls)) span
        (with_texts (texts_of_message ls) d)) }
    ensures err { IfErr result (λ fault. (ls : List (List ℕ)) (d : Draft)
        → HasGathered text.old (with_waiting room.old.waiting builder.old) d ls
        → IsGatherFault (draft_with_terms (message_terms ls) d) fault) }
{
    let facts = end_text(text, room, builder)?;
    room.waiting.add(builder)?;
    end_message(builder, &facts, span)
}
