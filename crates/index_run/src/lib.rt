//! Indexes the archives of a run, into memory or into an output.
#![tactic(auto)]

mod archives_job;
mod memory_file;
mod sent_file;

pub use memory_file::file_of_archives;
pub use sent_file::send_index;
