//! Why an index can't be built or written.
ghost use Rattle.std.specs.Prelude.{◌≡◌};

use std::alloc::{AllocError, AllocFailed};
use thiserror::Error;

/// Why a call that builds failed.
#[derive(Clone, Copy, Debug, Error)]
pub enum BuildFault {
    /// Memory ran out.
    #[error("out of memory")]
    OutOfMemory,
    /// There would be more archives, messages or keys than are allowed.
    #[error("too many messages or keys")]
    TooMany,
    /// An earlier call ran out of memory, or had too many.
    #[error("failed before")]
    Failed,
}

/// Why an index couldn't be written.
#[derive(Clone, Copy, Debug, Error)]
pub enum WriteFault {
    /// The output failed.
    #[error("output failed")]
    Out,
    /// An earlier call ran out of memory, or had too many.
    #[error("failed before")]
    Failed,
}

impl From<AllocError> for BuildFault {
    ghost use Rattle.mail_index.specs.declared.build.build_fault.BuildFault.TheVariants.{OutOfMemory};

    ghost from_gives = { λ _ fault. fault ≡ OutOfMemory };

    fn from(_: AllocError) -> Self {
        BuildFault::OutOfMemory
    }
}

impl<T: Drop> From<AllocFailed<T>> for BuildFault {
    ghost use Rattle.mail_index.specs.declared.build.build_fault.BuildFault.TheVariants.{OutOfMemory};

    ghost from_gives = { λ _ fault. fault ≡ OutOfMemory };

    fn from(_: AllocFailed<T>) -> Self {
        BuildFault::OutOfMemory
    }
}
