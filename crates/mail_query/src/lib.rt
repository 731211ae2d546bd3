//! Reads queries, written as mairix patterns or in a boolean language, and says when a message satisfies one.
#![tactic(auto)]

mod boolean;
mod fault;
mod fault_text;
mod flags;
mod kinds;
mod laws;
mod mairix;
mod node;
mod pieces;
mod query;
mod query_text;
mod size;

pub use boolean::read_boolean;
pub use fault::{QueryFault, QueryFaultKind};
pub use kinds::Kinds;
pub use laws::{
    a_pattern_is_read_as_the_grammar_says, names_count_only_where_they_are_asked,
    patterns_are_read_as_the_grammar_says, patterns_are_refused_with_their_first_fault,
    patterns_of_mail_are_read_as_the_grammar_says, patterns_show_one_first_fault_at_most,
    the_answer_is_what_is_read, the_refusal_is_the_first_fault, what_is_no_pattern_is_refused,
    what_is_no_pattern_shows_a_fault, what_is_read_shows_no_fault, what_shows_no_fault_is_read,
    words_of_mail_have_no_signs,
};
pub use mairix::read_mairix;
pub use node::Node;
pub use query::Query;
pub use query_text::QueryText;
