//! The streams of a run.

/// Where a run writes to.
#[derive(Drop)]
pub struct Streams<O, E> {
    /// Standard output.
    pub out: O,
    /// Standard error.
    pub err: E,
}
