//! Answers queries from an index: which of its messages satisfy a query, which threads they are in, and how they are
//! written.
#![tactic(auto)]

mod answers;
mod archives;
mod cursor;
mod fault;
mod format;
mod laws;
mod numbers;
mod output;
mod threads;

pub use answers::answer;
pub use archives::Archives;
pub use archives::fail_at::FailAt;
pub use archives::memory_archives::MemoryArchives;
pub use archives::verified::verify;
pub use cursor::{Cursor, matches};
pub use fault::{AnswerFault, AnswerFaultKind};
pub use format::Format;
pub use laws::{
    chosen_numbers_are_those_of_messages, closed_messages_are_cut_again, every_table_answers,
    one_answer_of_a_table, one_list_of_threads, verified_archives_are_those_indexed,
};
pub use threads::with_threads;
