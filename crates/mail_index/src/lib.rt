//! An index of archives: a table of archives, messages and keys, the file that it is written to, and a reader that
//! reads such a file in place.
#![tactic(auto)]

mod build;
mod digests;
mod fields;
mod kind;
mod laws;
mod path;
mod places;
mod record;
mod version;
mod view;

pub use build::build_fault::{BuildFault, WriteFault};
pub use build::builder::Builder;
pub use build::prefetched::Prefetched;
pub use digests::{Digests, NO_DIGEST};
pub use kind::Kind;
pub use laws::{
    comparisons_law, one_table_for_a_file, pairs_law, the_file_of_a_table_has_no_fault,
};
pub use path::is_path;
pub use record::Record;
pub use view::archive::Archive;
pub use view::archive_list::ArchiveList;
pub use view::counted_index::CountedIndex;
pub use view::directory::keys::{Key, Keys};
pub use view::fault::{IndexFault, Section};
pub use view::index_view::IndexView;
pub use view::postings::Postings;
pub use view::records::Records;
pub use view::steps::Steps;
