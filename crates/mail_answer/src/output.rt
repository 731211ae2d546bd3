//! Writes answers: lines, excerpts and an mbox, and the sheet on which their bytes are gathered.

pub mod answer_writer;
pub mod archive_part;
pub mod ending;
pub mod excerpt;
pub mod header_reads;
pub mod held_bytes;
pub mod mbox;
pub mod places;
pub mod raw_answer;
pub mod sheet;
