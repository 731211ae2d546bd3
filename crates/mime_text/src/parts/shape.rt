//! What an entity is.

use crate::parts::boundary::Boundary;

/// The type of an entity that doesn't name its own.
#[derive(Clone, Copy)]
pub enum DefaultType {
    /// text/plain.
    TextPlain,
    /// message/rfc822, as in multipart/digest (RFC 2046, 5.1.5).
    MessageRfc822,
}

/// What an entity is, by how its texts are read.
#[derive(Drop)]
pub enum Shape {
    /// A multipart: entities between delimiters.
    Multipart {
        /// The boundary of its delimiters.
        boundary: Boundary,
        /// The type of its entities that don't name theirs.
        default: DefaultType,
    },
    /// A message.
    Message,
    /// A text.
    Text {
        /// Whether it is HTML, which has tags.
        is_html: bool,
    },
    /// An entity without texts.
    Other,
}
