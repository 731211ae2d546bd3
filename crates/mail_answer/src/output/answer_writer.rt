//! Writes an answer, message by message.
ghost use Rattle.std.specs.Prelude.{◌≡◌, ◌<◌, [], length, IfOk, IfErr};
ghost use Rattle.std.specs.Bool.{OnTrue};
ghost use Rattle.contract_words.specs.Devices.{Counted};
ghost use Rattle.mail_index.specs.Tables.{IsWellFormed};
ghost use Rattle.mail_answer.specs.Answers.{fails_by, kind_of};
ghost use Rattle.mail_answer.specs.Asked.{IsArchiveOfSome};
ghost use Rattle.mail_answer.specs.Faults.{is_of_output, IfStale};
ghost use Rattle.mail_answer.specs.Inside.Calls.{ReadsArchives, WritesOut};
ghost use Rattle.mail_answer.specs.Inside.CursorLists.{AreNumbers};
ghost use Rattle.mail_answer.specs.Inside.Readings.{ReadsOrEnds};
ghost use Rattle.mail_answer.specs.MessageReads.{ReadsMessages};
ghost use Rattle.mail_answer.specs.TableAnswers.{is_unwritten};
ghost use Rattle.mail_answer.specs.TableFacts.{record_at};

use crate::archives::Archives;
use crate::fault::{AnswerFault, AnswerFaultKind};
use crate::format::Format;
use crate::numbers::Numbers;
use crate::output::excerpt::push_excerpt;
use crate::output::held_bytes::HeldBytes;
use crate::output::mbox::push_mbox;
use crate::output::places::Places;
use crate::output::raw_answer::push_raw;
use crate::output::sheet::Sheet;
use mail_index::IndexView;
use mbox_cutter::{Buffer, Out};
use std::alloc::Global;

/// What writing an answer needs, besides the archives and the output.
#[derive(Drop)]
pub(crate) struct AnswerWriter<'a> {
    alloc: Global,
    format: Format,
    places: Places<'a>,
    sheet: Sheet,
    // Through it headers are read. It is made when the first one is.
    buffer: Option<Buffer>,
}

impl<'a> AnswerWriter<'a> {
    ghost use Rattle.mail_answer.specs.Inside.Writing.{IsReadyToWrite, IsSameAnswer, IsBegun, WritesMessage, WritesMessages, SendsMessages, LeavesArchives, AnswersOver};

    /// Returns an answer from this index, of which nothing is written. Takes no memory.
    pub(crate) fn new(alloc: Global, index: &IndexView<'a>, format: Format) -> Self
        ensures table { result.places.table ≡ index.now }
        ensures formed { IsWellFormed index.now }
        ensures format { result.format ≡ format }
        ensures begun { IsBegun result }
    {
        AnswerWriter {
            alloc,
            format,
            places: Places::of(index),
            sheet: Sheet {
                text: HeldBytes::new(alloc),
                sent: 0,
            },
            buffer: None,
        }
    }

    /// Adds the message with this number. Fails if its archive ends early or can't be read, if memory runs out, or if
    /// the output fails.
    fn push<A: Archives, O: Out>(
        &mut self,
        n: u32,
        archives: &mut A,
        out: &mut O,
    ) -> Result<(), AnswerFaultKind>
        requires ready { IsReadyToWrite A.Archives O.Out self.old archives.old out.old }
        requires below { n < length self.old.places.table.messages }
        ensures same { IsSameAnswer self.old self.new }
        ensures message { WritesMessage (O.taken out.old) (O.taken out.new) (A.held archives.new) n
            self.old self.new result }
        ensures archives { ReadsArchives A.Archives archives.old archives.new result }
        ensures raw { LeavesArchives self.old.format archives.old archives.new result }
        ensures out { WritesOut O.Out self.new.sheet.sent out.old out.new result }
        ensures stale { IfErr result (λ kind. IfStale kind
            (λ a. a ≡ (record_at self.old.places.table.messages n).archive)) }
        ensures read { ReadsOrEnds A.Archives self.old.format
            (record_at self.old.places.table.messages n) archives.old archives.new result }
    {
        match self.format {
            Format::Raw => push_raw(self.alloc, &mut self.places, n, &mut self.sheet, out),
            Format::Excerpt => push_excerpt(
                self.alloc,
                &mut self.places,
                n,
                &mut self.buffer,
                archives,
                &mut self.sheet,
                out,
            ),
            Format::Mbox => push_mbox(self.places.index(), n, archives, &mut self.sheet, out),
        }
    }

    /// Adds the messages with these numbers, each as its number comes. Sends all of them, and returns how many they
    /// are.
    fn push_all<A: Archives, O: Out>(
        &mut self,
        numbers: &mut Numbers<'_>,
        archives: &mut A,
        out: &mut O,
    ) -> Result<u64, AnswerFaultKind>
        requires ready { IsReadyToWrite A.Archives O.Out self.old archives.old out.old }
        requires numbers { AreNumbers (length self.old.places.table.messages) numbers.old }
        ensures messages { WritesMessages (O.taken out.old) (O.taken out.new) (A.held archives.new)
            numbers.old self.old self.new result }
        ensures count { IfOk result
            (λ count. (count ≡ length numbers.old) × (self.new.sheet.text ≡ [])) }
        ensures archives { ReadsArchives A.Archives archives.old archives.new result }
        ensures raw { LeavesArchives self.old.format archives.old archives.new result }
        ensures out { WritesOut O.Out self.new.sheet.sent out.old out.new result }
        ensures below { IfErr result (λ kind. IfStale kind
            (λ a. a < length self.old.places.table.archives)) }
        ensures stale { IfErr result (λ kind. IfStale kind
            (IsArchiveOfSome self.old.places.table numbers.old)) }
        ensures read { ReadsMessages A.Archives self.old.format self.old.places.table.messages
            numbers.old archives.old archives.new result }
    {
        let mut count: u64 = 0;
        while let Some(n) = numbers.next() {
            self.push(n, archives, out)?;
            count += 1;
        }
        self.sheet.send(out)?;
        Ok(count)
    }

    /// Writes the whole answer, which has the messages with these numbers, and returns how many they are. The archives
    /// must have been found to have the lengths that were indexed. A fault says how many bytes were sent.
    pub(crate) fn write<A: Archives, O: Out>(
        &mut self,
        numbers: &mut Numbers<'_>,
        archives: &mut A,
        out: &mut O,
    ) -> Result<u64, AnswerFault>
        requires ready { IsReadyToWrite A.Archives O.Out self.old archives.old out.old }
        requires begun { IsBegun self.old }
        requires numbers { AreNumbers (length self.old.places.table.messages) numbers.old }
        ensures messages { SendsMessages (O.taken out.old) (O.taken out.new) (A.held archives.new)
            numbers.old self.old result }
        ensures archives { AnswersOver A.Archives self.old.format
            archives.old archives.new result }
        ensures out_count { Counted (fails_by is_of_output result)
            (O.failures out.old) (O.failures out.new) }
        ensures unwritten { OnTrue (is_unwritten result) (out.new ≡ out.old) }
        ensures below { IfErr result (λ fault. IfStale fault.kind
            (λ a. a < length self.old.places.table.archives)) }
        ensures stale { IfErr result (λ fault. IfStale fault.kind
            (IsArchiveOfSome self.old.places.table numbers.old)) }
        ensures read { ReadsMessages A.Archives self.old.format self.old.places.table.messages
            numbers.old archives.old archives.new (kind_of result) }
    {
        match self.push_all(numbers, archives, out) {
            Ok(count) => Ok(count),
            Err(kind) => Err(AnswerFault {
                kind,
                sent: self.sheet.sent,
            }),
        }
    }
}
