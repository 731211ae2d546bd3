//! Reads an index file in place.

pub mod archive;
pub mod archive_list;
pub mod counted_index;
pub mod directory;
pub mod directory_walk;
pub mod fault;
pub mod index_view;
pub mod layout;
pub mod leb128;
pub mod look_up;
pub mod posting_walk;
pub mod postings;
pub mod record_walk;
pub mod records;
pub mod short_differences;
pub mod steps;
