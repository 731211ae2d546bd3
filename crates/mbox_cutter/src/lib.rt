//! Cuts mbox archives (RFC 4155) into their messages, one line at a time, over any device.
#![tactic(auto)]

mod buffer;
mod cutter;
mod device;
mod digested;
mod event;
mod line;
mod line_reader;
mod memory;
mod scan;
mod separator;
mod std_io;

pub use buffer::Buffer;
pub use cutter::Cutter;
pub use device::{DeviceFault, Out, Source, send};
pub use digested::Digested;
pub use event::{CutFault, Event};
pub use line::{MOST_IN_LINE, is_empty_line, line_end, line_end_after, lines_law};
pub use line_reader::LineReader;
pub use memory::{MemoryOut, MemorySource};
pub use separator::{is_separator, without_break};
pub use std_io::{FromRead, ToWrite};
