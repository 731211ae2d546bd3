//! Why a call on names failed.

use thiserror::Error;

/// Why a call of a folder failed.
#[derive(Clone, Copy, Debug, Error)]
pub enum Refusal {
    /// Memory ran out.
    #[error("out of memory")]
    Memory,
    /// The system refused it.
    #[error("refused")]
    Refused,
}
