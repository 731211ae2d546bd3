//! Runs of mairix: does what the words of a command line and an rcfile ask for.
#![tactic(auto)]

mod laws;
mod once;
mod reply;
mod reply_laws;
mod stored;
mod view_answer;
mod wanted;
mod worked_replies;

pub use index_job::{
    IndexJob, JobFault, one_table_of_archives, the_table_of_sound_archives_is_well_formed,
};
pub use laws::{
    a_table_replies_as_its_archives, an_answer_is_cut_into_its_messages,
    archives_in_memory_stay_known, every_once_run_has_a_reply, every_stored_run_has_a_reply,
    other_tables_of_sound_archives_are_well_formed, sources_in_memory_stay_known,
    the_table_chooses_as_the_messages, the_table_has_the_terms_of_the_messages,
    the_table_links_as_the_messages, the_table_shows_the_messages,
    unaltered_archives_are_those_indexed,
};
pub use mail_index::WriteFault;
pub use mairix_options::{
    MailFormat, Name, Plan, Rc, RcFault, Text, Texts, UsageFault, answer_file, answer_format,
    plan_of, read_rc, usage_text,
};
pub use once::once_run;
pub use or_memory::OrMemory;
pub use reply::Reply;
pub use reply_laws::{once_runs_have_one_reply, stored_runs_have_one_reply};
pub use run_faults::{Fault, fault_text};
pub use stored::search_run;
pub use worked_replies::replies_are_as_worked_by_hand;
