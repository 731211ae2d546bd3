//! The system's files by their names: files that are read, files that get their names once they are whole, and where
//! names lead.
#![tactic(auto)]

mod answers;
mod file_state;
mod kit_calls;
mod kit_file;
mod kit_folder;
mod kit_new;
mod kit_reports;
mod laws;
mod leftover;
mod links;
mod looks;
mod names;
mod new_file;
mod opening;
mod recorded_calls;
mod retried;
mod retried_reader;
mod supposed_names;

pub use file_state::FileState;
pub use kit_file::KitFile;
pub use kit_folder::{KitFolder, KitLeft};
pub use kit_new::KitNew;
pub use kit_reports::KitReports;
pub use laws::one_place_holds_one_thing;
pub use retried::Retried;
pub use supposed_names::SupposedNames;
