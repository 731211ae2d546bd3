//! The kinds of text of a message, which can be searched separately.

/// The kind of text that a word is in: one of five header fields (RFC 5322 3.6), the body, or the name of an attachment
/// (RFC 2183 2.3).
///
/// The kinds have no order.
#[derive(Clone, Copy)]
pub enum TextKind {
    /// The field To.
    To,
    /// The field Cc.
    Cc,
    /// The field Bcc.
    Bcc,
    /// The field From.
    From,
    /// The field Subject.
    Subject,
    /// The lines of the parts that are text.
    Body,
    /// The name under which an attachment is to be kept as a file.
    Name,
}
