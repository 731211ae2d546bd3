//! Why an archive can't be indexed.
use mail_index::BuildFault;
use mbox_cutter::CutFault;
use mime_text::{SinkFault, TextFault};
use std::alloc::AllocError;
use thiserror::Error;

/// Why a job couldn't add an archive.
#[derive(Clone, Copy, Debug, Error)]
pub enum JobFault {
    /// The archive couldn't be read, or is refused.
    #[error(transparent)]
    Cut(CutFault),
    /// Memory ran out.
    #[error("out of memory")]
    OutOfMemory,
    /// There are more archives, messages or keys than an index has room for.
    #[error("too many messages or keys")]
    TooMany,
    /// An earlier call has failed.
    #[error("failed before")]
    Failed,
}

impl From<CutFault> for JobFault {
    ghost use Rattle.std.specs.Prelude.{◌≡◌};
    ghost use Rattle.index_job.specs.declared.job_fault.JobFault.TheVariants.{Cut};

    ghost from_gives = { λ fault e. e ≡ Cut fault };

    fn from(fault: CutFault) -> Self {
        JobFault::Cut(fault)
    }
}

impl From<AllocError> for JobFault {
    ghost use Rattle.std.specs.Prelude.{◌≡◌};
    ghost use Rattle.index_job.specs.declared.job_fault.JobFault.TheVariants.{OutOfMemory};

    ghost from_gives = { λ _ e. e ≡ OutOfMemory };

    fn from(_: AllocError) -> Self {
        JobFault::OutOfMemory
    }
}

impl From<BuildFault> for JobFault {
    ghost use Rattle.std.specs.Prelude.{◌≡◌};
    ghost use Rattle.index_job.specs.JobFaults.{of_build};

    ghost from_gives = { λ fault e. e ≡ of_build fault };

    fn from(fault: BuildFault) -> Self {
        match fault {
            BuildFault::OutOfMemory => JobFault::OutOfMemory,
            BuildFault::TooMany => JobFault::TooMany,
            BuildFault::Failed => JobFault::Failed,
        }
    }
}

/// The sink of a message's texts refuses a text only if there would be too many keys.
impl From<TextFault> for JobFault {
    ghost use Rattle.std.specs.Prelude.{◌≡◌};
    ghost use Rattle.index_job.specs.JobFaults.{of_text};

    ghost from_gives = { λ fault e. e ≡ of_text fault };

    fn from(fault: TextFault) -> Self {
        match fault {
            TextFault::OutOfMemory => JobFault::OutOfMemory,
            TextFault::Sink(SinkFault::OutOfMemory) => JobFault::OutOfMemory,
            TextFault::Sink(SinkFault::Refused) => JobFault::TooMany,
            TextFault::Failed => JobFault::Failed,
        }
    }
}
