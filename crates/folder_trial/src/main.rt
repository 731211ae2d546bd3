//! The program `folder_trial`: makes the calls of a script on a folder, and prints a line with each answer. Of a folder in
//! memory it is proved what calls do. So the same script says whether the system's files do that too.
//!
//! The script is the standard input. Its first lines, up to an empty one, say which files there are: `file NAME BYTES`,
//! `folder NAME`, `other NAME`, or `left NAME BYTES` for what a killed run left. Each line after that is a call, as
//! `answers` says. With the word `memory` the calls are made on a folder in memory, which has these files. With the word
//! `system` they are made on the system's files, and whoever runs the program has made the same ones before.
#![tactic(auto)]

ghost use Rattle.std.specs.Prelude.{◌≡◌};

mod answers;
mod line;
mod reading;
mod writing;

use crate::answers::answers;
use crate::line::Line;
use mairix_files::{KitFolder, SupposedNames};
use named_files::{Folder, Item, MadeNames, MemoryFolder};
use std::alloc::{AllocError, Global};
use std::{env, io};

/// Puts a file into a folder in memory.
fn put(folder: &mut MemoryFolder, alloc: Global, line: Line<'_>) -> Result<(), AllocError>
    ensures { ⟦<MemoryFolder as Folder>⟧.making folder.new
        ≡ ⟦<MemoryFolder as Folder>⟧.making folder.old }
{
    let bytes = line.rest.as_bytes().to_vec(alloc)?;
    match line.verb {
        "file" => folder.put(alloc, line.name, Item::File(bytes)),
        "folder" => folder.put(alloc, line.name, Item::Folder),
        "left" => folder.leave(alloc, line.name, bytes),
        _ => folder.put(alloc, line.name, Item::Other),
    }
}

/// Returns what calls answer on a folder in memory.
fn answers_in_memory(
    alloc: Global,
    names: &mut MadeNames,
    files: &str,
    calls: &str,
) -> Result<String, AllocError> {
    let mut folder = MemoryFolder::new(alloc);
    for line in files.lines() {
        put(&mut folder, alloc, Line::of(line))?;
    }
    answers(&mut folder, alloc, names, calls)
}

/// Returns what calls answer on the system's files.
fn answers_of_system(
    rt: &HostRuntime,
    names: &mut MadeNames,
    calls: &str,
) -> Result<String, AllocError> {
    let mut folder = KitFolder::new(rt, SupposedNames::new());
    answers(&mut folder, rt.alloc(), names, calls)
}

/// Whether the calls are to be made on the system's files.
fn is_of_system(rt: &HostRuntime) -> io::Result<bool> {
    for word in env::args(rt)? {
        if word.as_str() == "system" {
            return Ok(true);
        }
    }
    Ok(false)
}

fn main(rt: HostRuntime) -> io::Result<()> {
    let is_of_system = is_of_system(&rt)?;
    let script = io::read_to_string(rt.alloc(), rt.reader())?;
    let (files, calls) = script.as_str().split_once("\n\n").unwrap_or(("", ""));
    let mut names = MadeNames::new();
    let answers = if is_of_system {
        answers_of_system(&rt, &mut names, calls)
    } else {
        answers_in_memory(rt.alloc(), &mut names, files, calls)
    };
    names.close();
    rt.print(answers?)
}
