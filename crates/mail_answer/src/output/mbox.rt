//! Writes a message in the form of mbox archives.
ghost use Rattle.std.specs.Prelude.{◌≡◌, ◌<◌, ◌-◌, ◌^◌, length, IfErr, OnOk};
ghost use Rattle.mail_index.specs.Tables.{IsWellFormed};
ghost use Rattle.mail_answer.specs.Faults.{IfStale};
ghost use Rattle.mail_answer.specs.Inside.Calls.{AreAsIndexed, ReadsArchives, WritesOut};
ghost use Rattle.mail_answer.specs.Inside.Copies.{Copies};
ghost use Rattle.mail_answer.specs.Inside.Readings.{bytes_left, span_reading, IsInsideArchive, ReadsOrEnds, ReadsPiece};
ghost use Rattle.mail_answer.specs.Inside.Spans.{WritesSpan};
ghost use Rattle.mail_answer.specs.Shapes.{known_message};
ghost use Rattle.mail_answer.specs.Sheets.{WritesText};
ghost use Rattle.mail_answer.specs.TableFacts.{record_at};
ghost use Rattle.mail_answer.specs.declared.format.Format.TheVariants.{Mbox};

use crate::archives::Archives;
use crate::fault::AnswerFaultKind;
use crate::output::ending::Ending;
use crate::output::sheet::Sheet;
use mail_index::{IndexView, Record};
use mbox_cutter::Out;
use std::marker::Model;

/// The most bytes of a read.
const PIECE: u64 = 65_536;

/// A part of an archive that is still to be copied.
#[derive(Drop)]
struct Part {
    archive: u32,
    next: u64,
    left: u64,
}

impl Model for Part {
    ghost use Rattle.mail_answer.specs.Inside.Readings.{Reading, reading};

    ghost Value = { Reading };

    ghost view = { λ s. reading s.archive s.next s.left };
}

impl Part {
    /// Returns the bytes of a message.
    fn of(message: Record) -> Self
        ensures { result ≡ span_reading message }
    {
        Part {
            archive: message.archive,
            next: message.offset,
            left: message.length,
        }
    }

    /// Reads the next piece and appends it to what the answer has gathered, which is sent if it is enough. Returns what
    /// the last line is then.
    fn copy_piece<A: Archives, O: Out>(
        &mut self,
        before: Ending,
        archives: &mut A,
        sheet: &mut Sheet,
        out: &mut O,
    ) -> Result<Ending, AnswerFaultKind>
        requires inside { IsInsideArchive (A.number archives.old) (A.held archives.old) self.old }
        requires some { 0 < self.old.left }
        requires archives { A.failures archives.old < 2 ^ 64 - 1 }
        requires out { O.failures out.old < 2 ^ 64 - 1 }
        ensures archives { ReadsArchives A.Archives archives.old archives.new result }
        ensures inside { OnOk result (IsInsideArchive (A.number archives.new) (A.held archives.new)
            self.new) }
        ensures archive { OnOk result (self.new.archive ≡ self.old.archive) }
        ensures copies { Copies (O.taken out.old) (O.taken out.new) sheet.old sheet.new
            (bytes_left (A.held archives.new) self.old) (bytes_left
            (A.held archives.new) self.new)
            self.old.left self.new.left before result }
        ensures less { OnOk result (self.new.left < self.old.left) }
        ensures out { WritesOut O.Out sheet.new.sent out.old out.new result }
        ensures stale { IfErr result (λ kind. IfStale kind (λ n. n ≡ self.old.archive)) }
        ensures read { ReadsPiece A.Archives archives.old archives.new self.old self.new result }
    {
        let gathered = sheet.text.len();
        let most = self.left.min(PIECE) as usize;
        let n = sheet.text.read(archives, self.archive, self.next, most)?;
        self.next += n as u64;
        self.left -= n as u64;
        let ending = before.with_bytes(&sheet.text.as_slice()[gathered..]);
        sheet.send_full(out)?;
        Ok(ending)
    }
}

/// Adds the bytes of the message with this number to an answer, and closes them. The bytes are read piece by piece onto
/// the sheet, which is sent whenever it is full, so the memory doesn't grow with the message. Fails if the archive ends
/// early or can't be read, if memory runs out, or if the output fails.
pub(crate) fn push_mbox<A: Archives, O: Out>(
    index: &IndexView<'_>,
    n: u32,
    archives: &mut A,
    sheet: &mut Sheet,
    out: &mut O,
) -> Result<(), AnswerFaultKind>
    requires table { IsWellFormed index.now }
    requires below { n < length index.now.messages }
    requires indexed { AreAsIndexed A.Archives index.now.archives archives.old }
    requires archives { A.failures archives.old < 2 ^ 64 - 1 }
    requires out { O.failures out.old < 2 ^ 64 - 1 }
    ensures archives { ReadsArchives A.Archives archives.old archives.new result }
    ensures writes { WritesText (O.taken out.old) (O.taken out.new) sheet.old sheet.new
        (known_message Mbox index.now (A.held archives.new) n) result }
    ensures span { WritesSpan (O.taken out.old) (O.taken out.new) sheet.old sheet.new
        (record_at index.now.messages n).length result }
    ensures out { WritesOut O.Out sheet.new.sent out.old out.new result }
    ensures stale { IfErr result (λ kind. IfStale kind
        (λ archive. archive ≡ (record_at index.now.messages n).archive)) }
    ensures read { ReadsOrEnds A.Archives Mbox (record_at index.now.messages n)
        archives.old archives.new result }
{
    let mut part = Part::of(index.message(n));
    let mut ending = Ending::new();
    'pieces: while part.left > 0 {
        ending = part.copy_piece(ending, archives, sheet, out)?;
    }
    sheet.push(out, ending.feeds())
}
