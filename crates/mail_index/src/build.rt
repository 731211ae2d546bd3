//! Builds an index: keeps the keys as they come, puts them in order, and writes the file of a table.

pub mod build_fault;
pub mod builder;
pub mod file_out;
pub mod key_entry;
pub mod key_front;
pub mod key_hash;
pub mod key_map;
pub mod key_order;
pub mod key_search;
pub mod key_sections;
pub mod key_table;
pub mod keys_in_order;
pub mod leb128_out;
pub mod pending;
pub mod prefetched;
pub mod seal;
pub mod sections;
pub mod short_bytes;
