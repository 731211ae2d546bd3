//! What a run of mairix does with files and streams: what it reads, which file it makes, what it prints and its status.
#![tactic(auto)]

mod asked;
mod clock;
mod command;
mod content;
mod ending_report;
mod file_front;
mod file_names;
mod last_flush;
mod laws;
mod memory_stream;
mod named_file;
mod names_answer;
mod names_index;
mod new_file;
mod new_index;
mod old_index;
mod program;
mod read_names;
mod replacement;
mod run_files;
mod search;
mod std_writer;
mod stopped;
mod stream;
mod streams;
mod texts;
mod unread;
mod whole_file;
mod worked_reports;
mod worked_tasks;
mod writer_stream;

pub use clock::moment_of;
pub use command::{Command, Given, run_command};
pub use ending_report::{
    report_ending, report_fault, report_stopped, report_unread_words, report_usage,
};
pub use file_names::NewNames;
pub use last_flush::flushed;
pub use laws::{
    what_is_read_of_an_index_is_answered_as_all, what_is_read_of_an_index_serves_for_all,
};
pub use memory_stream::MemoryStream;
pub use named_file::{Reading, read_named};
pub use names_answer::{Search, answer_names};
pub use names_index::index_names;
pub use new_file::{create_file, settle_file, temporary_name};
pub use new_index::NewIndex;
pub use old_index::check_old_index;
pub use program::run_program;
pub use read_names::{ReadNames, are_all_apart};
pub use run_files::RunFiles;
pub use std_writer::{Flush, StdWriter};
pub use stopped::Stopped;
pub use stream::Stream;
pub use streams::Streams;
pub use texts::{ProgramTexts, Texts};
pub use worked_reports::lines_and_statuses_are_as_worked_by_hand;
pub use worked_tasks::{refused_names_are_as_worked_by_hand, tasks_are_as_worked_by_hand};
pub use writer_stream::WriterStream;
