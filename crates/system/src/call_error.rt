//! Why the system refused a call.

/// Why the system refused a call. A caller needs to know only these causes.
#[derive(Clone, Copy, Debug, PartialEq, Eq, Drop)]
pub enum CallError {
    /// Nothing has that name.
    NotFound,
    /// There is no memory for it.
    OutOfMemory,
    /// A signal interrupted the call. It may be made again.
    Interrupted,
    /// Anything else, for instance lack of rights.
    Other,
}
