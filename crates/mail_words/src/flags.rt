//! The marks that a mail program sets on a message.

/// A mark that a message may have, as the letters of its Status and X-Status fields say.
#[derive(Clone, Copy)]
pub enum Flag {
    /// It was read: the letter `R`.
    Seen,
    /// It was replied to: the letter `A`.
    Replied,
    /// It was marked: the letter `F`.
    Flagged,
}

/// Which of the three marks a message has.
#[derive(Clone, Copy)]
pub struct Flags {
    /// It was read.
    pub seen: bool,
    /// It was replied to.
    pub replied: bool,
    /// It was marked.
    pub flagged: bool,
}
