//! What the headers of entities say: texts, names and facts.

pub mod facts;
pub mod field_text;
pub mod giving;
pub mod name;
pub mod owned;
