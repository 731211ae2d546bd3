//! Files by their names, in a folder of the system or in memory, and a new file that takes its name once it is whole.
#![tactic(auto)]

mod file_name;
mod folder;
mod kept_file;
mod leftover;
mod look;
mod made_names;
mod memory_folder;
mod name_fault;
mod new_file;
mod plain_name;
mod refusal;
mod taking_names;

pub use file_name::FileName;
pub use folder::Folder;
pub use kept_file::KeptFile;
pub use leftover::clear_leftover;
pub use look::Look;
pub use made_names::MadeNames;
pub use memory_folder::item::Item;
pub use memory_folder::memory_file::MemoryFile;
pub use memory_folder::memory_new::MemoryNew;
pub use memory_folder::memory_reports::MemoryReports;
pub use memory_folder::{MemoryFolder, MemoryLeft};
pub use name_fault::NameFault;
pub use new_file::NewFile;
pub use plain_name::PlainName;
pub use refusal::Refusal;
pub use taking_names::{replace_file, take_name};
