//! Why the texts of a message weren't all given.
use std::alloc::AllocError;
use thiserror::Error;

/// Why a sink refused a text.
#[derive(Clone, Copy, Debug, Error)]
pub enum SinkFault {
    /// Memory ran out.
    #[error("out of memory")]
    OutOfMemory,
    /// The sink doesn't take the text.
    #[error("refused")]
    Refused,
}

impl From<AllocError> for SinkFault {
    ghost use Rattle.std.specs.Prelude.{◌≡◌};
    ghost use Rattle.mime_text.specs.declared.fault.SinkFault.TheVariants.{OutOfMemory};

    ghost from_gives = { λ _ fault. fault ≡ OutOfMemory };

    fn from(_: AllocError) -> Self {
        SinkFault::OutOfMemory
    }
}

/// Why the texts of a message weren't all given.
#[derive(Clone, Copy, Debug, Error)]
pub enum TextFault {
    /// Memory ran out.
    #[error("out of memory")]
    OutOfMemory,
    /// The sink refused a text.
    #[error("text refused: {0}")]
    Sink(SinkFault),
    /// An earlier call has failed, or the message has ended.
    #[error("failed before")]
    Failed,
}

impl From<AllocError> for TextFault {
    ghost use Rattle.std.specs.Prelude.{◌≡◌};
    ghost use Rattle.mime_text.specs.declared.fault.TextFault.TheVariants.{OutOfMemory};

    ghost from_gives = { λ _ fault. fault ≡ OutOfMemory };

    fn from(_: AllocError) -> Self {
        TextFault::OutOfMemory
    }
}

impl From<SinkFault> for TextFault {
    ghost use Rattle.std.specs.Prelude.{◌≡◌};
    ghost use Rattle.mime_text.specs.declared.fault.TextFault.TheVariants.{Sink};

    ghost from_gives = { λ f fault. fault ≡ Sink f };

    fn from(fault: SinkFault) -> Self {
        TextFault::Sink(fault)
    }
}
