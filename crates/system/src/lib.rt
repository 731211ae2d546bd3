//! The system's calls on files as a trait, each of which is added to a record with its answer.
#![tactic(auto)]

mod call_error;
mod file_kind;
mod found;
mod system;

pub use call_error::CallError;
pub use file_kind::FileKind;
pub use found::{FileTime, Found};
pub use system::System;
