//! Indexes archives in one pass over each, and makes their index file.
#![tactic(auto)]

mod archive_reading;
mod batch;
mod folding_room;
mod gathering;
mod index_job;
mod job_fault;
mod laws;
mod message_end;
mod term_sink;
mod waiting_lines;

pub use index_job::IndexJob;
pub use job_fault::JobFault;
pub use laws::{one_table_of_archives, the_table_of_sound_archives_is_well_formed};
