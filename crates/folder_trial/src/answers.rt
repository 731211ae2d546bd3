//! What the calls of a script answer.
//!
//! - `look NAME`, and `apart NAME OTHER`: the method of that name;
//! - `open NAME`, `open_plain NAME`: opens the file, and reads it to its end;
//! - `length NAME`, `part NAME OFFSET`, `state NAME`: opens a plain file, and asks for its length, for some bytes from an
//!   offset on, or whether it stays in one state while it is read;
//! - `make NAME TEMPORARY BYTES`, `replace NAME TEMPORARY BYTES`: makes a file under the temporary name and gives it its
//!   name, by `create`, `send` and `take_name`, or by `replace_file`;
//! - `over NAME TEMPORARY BYTES`: opens a plain file, replaces it, and reads what was opened;
//! - `discard NAME TEMPORARY BYTES`: makes a file under the temporary name, looks at the other name, and removes the file;
//! - `clear NAME`, `sync NAME`: `clear_leftover` and `sync_name`.
ghost use Rattle.std.specs.Prelude.{◌≡◌, None};

use crate::line::Line;
use crate::reading::{length, opened, opened_plain, part, state};
use crate::writing::{Names, discarded, made, read_over, replaced};
use named_files::{Folder, Look, Refusal, clear_leftover};
use std::alloc::{AllocError, Global};

/// Makes each call on a folder, and returns a line with each answer.
pub(crate) fn answers<F: Folder>(
    folder: &mut F,
    alloc: Global,
    names: &mut F::Names,
    calls: &str,
) -> Result<String, AllocError>
    requires { F.making folder.old ≡ None }
{
    let mut answers = String::new(alloc);
    for call in calls.lines() {
        let answer = answer(folder, alloc, names, Line::of(call))?;
        answers.push_str(answer.as_str())?;
        answers.push('\n')?;
    }
    Ok(answers)
}

/// Makes a call, and returns its answer.
fn answer<F: Folder>(
    folder: &mut F,
    alloc: Global,
    names: &mut F::Names,
    line: Line<'_>,
) -> Result<String, AllocError>
    requires { F.making folder.old ≡ None }
    ensures { F.making folder.new ≡ None }
{
    let mut reports = folder.no_reports();
    let name = folder.name(alloc, names, &reports, line.name)?;
    let (other, bytes) = line.other();
    let temporary = folder.name(alloc, names, &reports, other)?;
    let pair = Names { name, temporary };
    match line.verb {
        "make" => made(folder, alloc, &mut reports, &pair, bytes),
        "replace" => replaced(folder, alloc, &mut reports, &pair, bytes),
        "discard" => discarded(folder, alloc, &mut reports, &pair, bytes),
        "over" => read_over(folder, alloc, &mut reports, &pair, bytes),
        "apart" => apart(folder, alloc, &mut reports, &pair),
        "clear" => cleared(folder, alloc, &mut reports, &pair.name),
        "sync" => synced(folder, alloc, &pair.name),
        _ => read_only(folder, alloc, &mut reports, &pair.name, line),
    }
}

/// Makes a call that only looks at files, or reads one.
fn read_only<F: Folder>(
    folder: &F,
    alloc: Global,
    reports: &mut F::Reports,
    name: &F::Name,
    line: Line<'_>,
) -> Result<String, AllocError> {
    match line.verb {
        "look" => looked(folder, alloc, reports, name),
        "open" => opened(folder, alloc, reports, name),
        "open_plain" => opened_plain(folder, alloc, reports, name),
        "length" => length(folder, alloc, reports, name),
        "state" => state(folder, alloc, reports, name),
        "part" => part(folder, alloc, reports, name, line.rest),
        _ => String::from_str(alloc, "no such call"),
    }
}

/// Looks at what a name leads to.
pub(crate) fn looked<F: Folder>(
    folder: &F,
    alloc: Global,
    reports: &mut F::Reports,
    name: &F::Name,
) -> Result<String, AllocError> {
    match folder.look(alloc, reports, name) {
        Ok(Look::Nothing) => String::from_str(alloc, "nothing"),
        Ok(Look::File(length)) => format!(in alloc; "file {length}"),
        Ok(Look::Folder) => String::from_str(alloc, "folder"),
        Ok(Look::Other) => String::from_str(alloc, "other"),
        Err(why) => refused(alloc, why),
    }
}

/// Says why a call was refused.
pub(crate) fn refused(alloc: Global, why: Refusal) -> Result<String, AllocError> {
    match why {
        Refusal::Memory => Err(AllocError),
        Refusal::Refused => String::from_str(alloc, "refused"),
    }
}

fn apart<F: Folder>(
    folder: &F,
    alloc: Global,
    reports: &mut F::Reports,
    pair: &Names<F::Name>,
) -> Result<String, AllocError> {
    let is_apart = folder.is_apart(alloc, reports, &pair.name, &pair.temporary)?;
    String::from_str(alloc, if is_apart { "apart" } else { "one" })
}

/// Removes what a killed run left.
fn cleared<F: Folder>(
    folder: &mut F,
    alloc: Global,
    reports: &mut F::Reports,
    name: &F::Name,
) -> Result<String, AllocError>
    ensures { F.making folder.new ≡ F.making folder.old }
{
    match clear_leftover(folder, alloc, reports, name) {
        Ok(()) => String::from_str(alloc, "free"),
        Err(why) => refused(alloc, why),
    }
}

/// Brings a name to the disk.
fn synced<F: Folder>(folder: &mut F, alloc: Global, name: &F::Name) -> Result<String, AllocError>
    ensures { F.making folder.new ≡ F.making folder.old }
{
    match folder.sync_name(alloc, name) {
        Ok(()) => String::from_str(alloc, "synced"),
        Err(why) => refused(alloc, why),
    }
}
