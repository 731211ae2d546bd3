//! The entities of a message: what each is, and which are open.

pub mod boundary;
pub mod content_type;
pub mod delimiter;
pub mod frame;
pub mod nesting;
pub mod parameter;
pub mod part_reader;
pub mod shape;
