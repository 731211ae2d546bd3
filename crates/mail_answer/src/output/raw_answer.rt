//! Writes a message in the raw form.
ghost use Rattle.std.specs.Prelude.{◌≡◌, ◌<◌, ◌-◌, ◌^◌, [], false, length, Some};
ghost use Rattle.mail_index.specs.Tables.{IsWellFormed};
ghost use Rattle.mail_answer.specs.Faults.{has_fault, is_of_archives, is_stale};
ghost use Rattle.mail_answer.specs.Inside.Calls.{WritesOut};
ghost use Rattle.mail_answer.specs.Shapes.{message_text};
ghost use Rattle.mail_answer.specs.Sheets.{WritesText};
ghost use Rattle.mail_answer.specs.TableFacts.{record_at};
ghost use Rattle.mail_answer.specs.declared.format.Format.TheVariants.{Raw};

use crate::fault::AnswerFaultKind;
use crate::output::places::Places;
use crate::output::sheet::Sheet;
use mbox_cutter::Out;
use std::alloc::Global;

/// Adds the line of the message with this number to an answer. Reads no archive. Fails if memory runs out or if the
/// output fails.
pub(crate) fn push_raw<O: Out>(
    alloc: Global,
    places: &mut Places<'_>,
    n: u32,
    sheet: &mut Sheet,
    out: &mut O,
) -> Result<(), AnswerFaultKind>
    requires table { IsWellFormed places.old.table }
    requires below { n < length places.old.table.messages }
    requires out { O.failures out.old < 2 ^ 64 - 1 }
    ensures same { places.new.table ≡ places.old.table }
    ensures writes { WritesText (O.taken out.old) (O.taken out.new) sheet.old sheet.new
        (Some (message_text Raw places.old.table.archives []
        (record_at places.old.table.messages n))) result }
    ensures out { WritesOut O.Out sheet.new.sent out.old out.new result }
    ensures own { (has_fault is_of_archives result ≡ false) × (has_fault is_stale result ≡ false) }
{
    let message = places.index().message(n);
    let path = places.path_of(message.archive);
    let line = format!(in alloc; "{} {} {path}\n", message.offset, message.length)?;
    sheet.push(out, line.as_bytes())
}
