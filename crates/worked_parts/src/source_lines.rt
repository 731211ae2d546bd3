//! The lines of a source, whatever pieces it gives.
ghost use Rattle.std.specs.Prelude.{◌<◌};

use mbox_cutter::{Buffer, LineReader, MemorySource};
use std::alloc::Global;

/// Whether a reader takes the lines of `a|`, `|` and `bc` one after another, and then none, from reads of at most this
/// many bytes. None if memory runs out.
fn takes_each_line(alloc: Global, piece: usize) -> Option<bool>
    requires { 0 < piece }
{
    let mut source = MemorySource::new(alloc, b"a\n\nbc", piece, None).ok()?;
    let buffer = Buffer::new(alloc).ok()?;
    let mut reader = LineReader::over(buffer, &mut source);
    let first = reader.next_line().ok()? == 2 && matches!(reader.line(), b"a\n");
    let second = reader.next_line().ok()? == 1 && matches!(reader.line(), b"\n");
    let third = reader.next_line().ok()? == 2 && matches!(reader.line(), b"bc");
    let is_ended = reader.next_line().ok()? == 0;
    Some(first && second && third && is_ended)
}

/// The pieces don't matter: each line is taken once, and the last one needs no LF.
#[test]
fn each_line_of_a_source_is_taken(rt: HostRuntime) {
    let alloc = rt.alloc();
    let by_bytes = takes_each_line(alloc, 1).unwrap_or(false);
    let by_pieces = takes_each_line(alloc, 3).unwrap_or(false);
    let at_once = takes_each_line(alloc, 100).unwrap_or(false);
    assert!(rt;
        by_bytes && by_pieces && at_once,
        "{by_bytes} {by_pieces} {at_once}"
    );
}
