//! A record of the calls of a run with their results. It takes no memory.
#![tactic(auto)]

mod laws;
mod noted;
mod numbered_files;
mod record;

pub use laws::{agreeing_bytes_were_given, honest_reads_agree, one_list_agrees};
pub use noted::{length_noted, read_at_noted, read_noted, write_noted};
pub use numbered_files::NumberedFiles;
pub use record::Record;
