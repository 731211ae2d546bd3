//! Writes the excerpt of a message.
ghost use Rattle.std.specs.Prelude.{◌≡◌, ◌<◌, ◌-◌, ◌^◌, ℕ, List, [], ◌∷◌, ◌++◌, length, IfErr, OnOk};
ghost use Rattle.header_text.specs.HeldLines.{HasLines};
ghost use Rattle.header_text.specs.Headers.{fields_of};
ghost use Rattle.mail_answer.specs.Excerpts.{without_controls, text_after_space, field_line, excerpt_lines};
ghost use Rattle.mail_answer.specs.Faults.{IfStale};
ghost use Rattle.mail_answer.specs.Inside.Calls.{AreAsIndexed, ReadsArchives, WritesOut};
ghost use Rattle.mail_answer.specs.Inside.Readings.{ReadsOrEnds};
ghost use Rattle.mail_answer.specs.Shapes.{known_message};
ghost use Rattle.mail_answer.specs.Sheets.{WritesText};
ghost use Rattle.mail_answer.specs.TableFacts.{record_at};
ghost use Rattle.mail_answer.specs.declared.format.Format.TheVariants.{Excerpt};
ghost use Rattle.mail_index.specs.Tables.{IsWellFormed};

use crate::archives::Archives;
use crate::fault::AnswerFaultKind;
use crate::output::header_reads::read_header;
use crate::output::places::Places;
use crate::output::sheet::Sheet;
use header_text::{Header, decode_words, unfold};
use mbox_cutter::{Buffer, Out};
use std::alloc::{AllocError, Global};

/// The names of the fields in an excerpt.
const NAMES: [&str; 5] = ["To", "Cc", "From", "Subject", "Date"];

/// Replaces each character below U+0020, and U+007F, with a space.
fn hide_controls(text: &mut [u8])
    ensures { text.new ≡ without_controls text.old }
{
    for b in text.iter_mut() {
        if b.is_ascii_control() {
            *b = b' ';
        }
    }
}

/// Adds a line: a name, a colon, a space and a value if the value isn't empty, and LF.
fn push_line(name: &str, value: &[u8], text: &mut Vec<u8>) -> Result<(), AllocError>
    ensures { OnOk result (text.new.items
        ≡ text.old.items ++ name.now ++ 58 ∷ text_after_space value.now ++ 10 ∷ []) }
{
    let colon: &[u8] = if value.is_empty() { b":" } else { b": " };
    text.extend_from_slice(name.as_bytes())?;
    text.extend_from_slice(colon)?;
    text.extend_from_slice(value)?;
    text.extend_from_slice(b"\n")
}

/// Adds the line of the field with this name. Its value is on one line, without control characters.
fn push_field(
    alloc: Global,
    header: &Header,
    name: &str,
    text: &mut Vec<u8>,
) -> Result<(), AllocError>
    ensures { OnOk result ((ls : List (List ℕ)) → HasLines header.now ls
        → text.new.items ≡ text.old.items ++ field_line (fields_of ls) name.now) }
{
    let body = header.fields().first_body(name.as_bytes()).unwrap_or(b"");
    let unfolded = unfold(alloc, body)?;
    let decoded = decode_words(alloc, unfolded.as_slice())?;
    let mut value = decoded.into_bytes();
    hide_controls(value.as_mut_slice());
    push_line(name, value.as_slice(), text)
}

/// Adds the excerpt of a message with this header: the path of its archive, and five fields.
fn push_lines(
    alloc: Global,
    path: &str,
    header: &Header,
    text: &mut Vec<u8>,
) -> Result<(), AllocError>
    ensures { OnOk result ((ls : List (List ℕ)) → HasLines header.now ls
        → text.new.items ≡ text.old.items ++ path.now ++ 10 ∷ excerpt_lines (fields_of ls)) }
{
    text.extend_from_slice(path.as_bytes())?;
    text.extend_from_slice(b"\n")?;
    for name in &NAMES {
        push_field(alloc, header, name, text)?;
    }
    Ok(())
}

/// Adds the excerpt of the message with this number to an answer. Fails if the archive ends early or can't be read, if
/// memory runs out, or if the output fails. The buffer is kept for the next message.
pub(crate) fn push_excerpt<A: Archives, O: Out>(
    alloc: Global,
    places: &mut Places<'_>,
    n: u32,
    kept: &mut Option<Buffer>,
    archives: &mut A,
    sheet: &mut Sheet,
    out: &mut O,
) -> Result<(), AnswerFaultKind>
    requires table { IsWellFormed places.old.table }
    requires below { n < length places.old.table.messages }
    requires indexed { AreAsIndexed A.Archives places.old.table.archives archives.old }
    requires archives { A.failures archives.old < 2 ^ 64 - 1 }
    requires out { O.failures out.old < 2 ^ 64 - 1 }
    ensures archives { ReadsArchives A.Archives archives.old archives.new result }
    ensures same { places.new.table ≡ places.old.table }
    ensures writes { WritesText (O.taken out.old) (O.taken out.new) sheet.old sheet.new
        (known_message Excerpt places.old.table (A.held archives.new) n) result }
    ensures out { WritesOut O.Out sheet.new.sent out.old out.new result }
    ensures stale { IfErr result (λ kind. IfStale kind
        (λ archive. archive ≡ (record_at places.old.table.messages n).archive)) }
    ensures read { ReadsOrEnds A.Archives Excerpt (record_at places.old.table.messages n)
        archives.old archives.new result }
{
    let message = places.index().message(n);
    let header = read_header(alloc, message, kept, archives)?;
    let path = places.path_of(message.archive);
    let mut text = Vec::new(alloc);
    push_lines(alloc, path, &header, &mut text)?;
    sheet.push(out, text.as_slice())
}
