//! The texts of an entity that has no parts.

pub mod decoder;
pub mod held_line;
pub mod leaf_reader;
pub mod line_texts;
pub mod own_text;
pub mod tags;
pub mod text_buffers;
pub mod transfer;
