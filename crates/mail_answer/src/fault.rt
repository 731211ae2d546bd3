//! Why an answer isn't complete.
ghost use Rattle.std.specs.Prelude.{◌≡◌};

use std::alloc::AllocError;
use thiserror::Error;

/// Why an answer failed.
#[derive(Clone, Copy, Debug, Error)]
pub enum AnswerFaultKind {
    /// The archive with this number, counted from 0, isn't the one that was indexed. If there are more or fewer
    /// archives than were indexed, this is the smaller of both numbers.
    #[error("archive {}: changed since it was indexed", u64::from(*.0) + 1)]
    Stale(u32),
    /// An archive couldn't be read.
    #[error("archive read failed")]
    Device,
    /// Memory ran out.
    #[error("out of memory")]
    OutOfMemory,
    /// The output failed.
    #[error("output failed")]
    OutFailed,
}

impl From<AllocError> for AnswerFaultKind {
    ghost use Rattle.mail_answer.specs.declared.fault.AnswerFaultKind.TheVariants.{OutOfMemory};

    ghost from_gives = { λ _ kind. kind ≡ OutOfMemory };

    fn from(_: AllocError) -> Self {
        AnswerFaultKind::OutOfMemory
    }
}

/// Why an answer isn't complete, and how much of it was sent.
#[derive(Clone, Copy, Debug, Error)]
#[error("{kind} after {sent} bytes")]
pub struct AnswerFault {
    pub kind: AnswerFaultKind,
    /// The number of bytes sent, but never more than the greatest number of its type.
    pub sent: u64,
}

impl AnswerFault {
    /// Returns a fault of which no byte was sent.
    pub(crate) fn unsent(kind: AnswerFaultKind) -> AnswerFault
        ensures { result ≡ record { kind = kind; sent = 0 } }
    {
        AnswerFault { kind, sent: 0 }
    }
}
