//! Why a run has no whole answer. A fault has its exit status here, and its text in `explanation` (decision 90 in
//! docs/DECISIONS.md).

use mail_index::IndexFault;
use mail_query::QueryFault;
use mairix_options::{RcFault, UsageFault};
use mbox_cutter::CutFault;
use or_memory::OrMemory;
use std::alloc::{AllocError, AllocFailed};

/// The exit status of a run that found messages or made an index, and of help and version.
pub const DONE: u8 = 0;

/// The exit status of a search that found no message.
pub const NO_MESSAGE: u8 = 1;

/// The exit status if the command line, the rcfile or the query is refused.
pub const REFUSED: u8 = 2;

/// The exit status if the index is refused, or isn't the one of the archives.
pub const WRONG_INDEX: u8 = 3;

/// The exit status if a file can't be opened, read, made or renamed, if the output failed, or if an archive isn't an
/// mbox.
pub const FAILED: u8 = 4;

/// The exit status for lack of memory, for too many archives, messages or keys, and for an archive that is too long.
pub const NO_ROOM: u8 = 5;

/// Why a run has no whole answer. Lack of memory in any layer is `Memory`.
#[derive(Clone, Copy, Debug)]
pub enum Fault {
    /// The command line is refused, or asks for help or the version.
    Usage(UsageFault),
    /// The rcfile is refused.
    Rc(RcFault),
    /// The query is refused.
    Query(QueryFault),
    /// The archive with this number, counted from 0, couldn't be read for an index, or is refused.
    Archive { number: u64, fault: CutFault },
    /// The index is refused.
    Index(IndexFault),
    /// The index has version 1, and so has no names of attachments and no digests. But the query searches names, or the
    /// archives have to be verified.
    OldIndex,
    /// The archive with this number, counted from 0, isn't the one that was indexed. If more or fewer archives than now
    /// were indexed, the number is the smaller of both counts.
    Stale(u64),
    /// An archive couldn't be read for the answer.
    Device,
    /// The output failed.
    Out,
    /// Memory ran out.
    Memory,
    /// The archives have more messages or keys than an index can hold, or there are too many archives.
    TooMany,
}

impl Fault {
    ghost use Rattle.std.specs.Prelude.{◌≡◌};
    ghost use Rattle.run_faults.specs.Faults.{status_of_fault};

    /// Returns the exit status of a run with this fault.
    pub fn status(self) -> u8
        ensures { result ≡ status_of_fault self }
    {
        match self {
            Fault::Usage(UsageFault::Help | UsageFault::Version) => DONE,
            Fault::Usage(_) | Fault::Rc(_) | Fault::Query(_) => REFUSED,
            Fault::Archive {
                fault: CutFault::ArchiveTooLong,
                ..
            } => NO_ROOM,
            Fault::Archive { .. } | Fault::Device | Fault::Out => FAILED,
            Fault::Index(_) | Fault::OldIndex | Fault::Stale(_) => WRONG_INDEX,
            Fault::Memory | Fault::TooMany => NO_ROOM,
        }
    }
}

impl From<AllocError> for Fault {
    ghost use Rattle.std.specs.Prelude.{◌≡◌};
    ghost use Rattle.run_faults.specs.declared.fault.Fault.TheVariants.{Memory};

    ghost from_gives = { λ _ e. e ≡ Memory };

    fn from(_: AllocError) -> Self {
        Fault::Memory
    }
}

impl<T: Drop> From<AllocFailed<T>> for Fault {
    ghost use Rattle.std.specs.Prelude.{◌≡◌};
    ghost use Rattle.run_faults.specs.declared.fault.Fault.TheVariants.{Memory};

    ghost from_gives = { λ _ e. e ≡ Memory };

    fn from(_: AllocFailed<T>) -> Self {
        Fault::Memory
    }
}

impl From<UsageFault> for Fault {
    ghost use Rattle.std.specs.Prelude.{◌≡◌};
    ghost use Rattle.run_faults.specs.declared.fault.Fault.TheVariants.{Usage};

    ghost from_gives = { λ fault e. e ≡ Usage fault };

    fn from(fault: UsageFault) -> Self {
        Fault::Usage(fault)
    }
}

impl From<RcFault> for Fault {
    ghost use Rattle.std.specs.Prelude.{◌≡◌};
    ghost use Rattle.run_faults.specs.declared.fault.Fault.TheVariants.{Rc};

    ghost from_gives = { λ fault e. e ≡ Rc fault };

    fn from(fault: RcFault) -> Self {
        Fault::Rc(fault)
    }
}

impl From<QueryFault> for Fault {
    ghost use Rattle.std.specs.Prelude.{◌≡◌};
    ghost use Rattle.run_faults.specs.declared.fault.Fault.TheVariants.{Query};

    ghost from_gives = { λ fault e. e ≡ Query fault };

    fn from(fault: QueryFault) -> Self {
        Fault::Query(fault)
    }
}

impl<E> From<OrMemory<E>> for Fault
where
    Fault: From<E>,
{
    ghost use Rattle.run_faults.specs.Faults.{IsOrMemory};

    ghost from_gives = { λ given e. IsOrMemory ⟦<Fault as From<E>>⟧.from_gives given e };

    fn from(given: OrMemory<E>) -> Self {
        match given {
            OrMemory::Refused(refusal) => Fault::from(refusal),
            OrMemory::Memory => Fault::Memory,
        }
    }
}
