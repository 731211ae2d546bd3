//! The forms of an answer.

/// How an answer presents a message.
#[derive(Clone, Copy)]
pub enum Format {
    /// A line: the message's offset and length in bytes, and the path of its archive.
    Raw,
    /// The path of the message's archive, and five fields of its header.
    Excerpt,
    /// The message's bytes, closed by an empty line.
    Mbox,
}
