//! Why a file didn't take its name for good.

use crate::refusal::Refusal;
use thiserror::Error;

/// Why a file didn't take its name for good.
#[derive(Clone, Copy, Debug, Error)]
pub enum NameFault {
    /// The file doesn't have the name, and was removed. A name that is apart from the temporary name leads to what it led to
    /// before.
    #[error("the file was not made: {0}")]
    NotNamed(Refusal),
    /// The file has the name, but the name isn't on the disk. A crash may still leave what had the name before.
    #[error("the name is not on the disk: {0}")]
    NotSynced(Refusal),
}
