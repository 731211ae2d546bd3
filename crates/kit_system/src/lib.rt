//! The system's calls on files as the kit makes them.
#![tactic(auto)]

mod answers;
mod call_notes;
mod kit_system;

pub use answers::found_of;
pub use kit_system::{KitLog, KitOpened, KitSystem};
