//! The faults of a run of mairix, each with its exit status and its text.
#![tactic(auto)]

mod explanation;
mod fault;

pub use explanation::{OUT_OF_MEMORY, fault_text};
pub use fault::{DONE, FAILED, Fault, NO_MESSAGE, NO_ROOM, REFUSED, WRONG_INDEX};
