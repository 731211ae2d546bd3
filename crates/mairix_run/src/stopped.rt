//! Why a run over files ended early.
ghost use Rattle.std.specs.Prelude.{◌≡◌, ℕ, List};
ghost use Rattle.mairix_run.specs.Stops.{IsStoppedAt, IsGivenUnlessRefused, IsStoppedBy, ending_by, ending_of_result};

use named_files::Refusal;
use or_memory::OrMemory;
use run_faults::Fault;
use std::alloc::{AllocError, Global};

/// Why a run over files ended early.
#[derive(Drop)]
pub enum Stopped {
    /// The file with this path can't be opened, read or made.
    CannotOpen(String),
    /// Any other fault.
    Fault(Fault),
}

impl Stopped {
    /// Returns that the file with this path can't be opened, read or made; or lack of memory if there is none for the
    /// path.
    pub fn cannot_open(alloc: Global, path: &str) -> Stopped
        ensures path { IsStoppedAt path.now result }
    {
        match String::from_str(alloc, path) {
            Ok(path) => Stopped::CannotOpen(path),
            Err(_) => Stopped::Fault(Fault::Memory),
        }
    }

    /// Returns what a folder gave for the file with this path. If it refused, the run is stopped, for this path or for
    /// lack of memory.
    pub fn or_stopped<T>(alloc: Global, path: &str, given: Result<T, Refusal>) -> Result<T, Stopped>
        ensures given { IsGivenUnlessRefused path.now given result }
    {
        match given {
            Ok(value) => Ok(value),
            Err(Refusal::Memory) => Err(Stopped::Fault(Fault::Memory)),
            Err(Refusal::Refused) => Err(Stopped::cannot_open(alloc, path)),
        }
    }
}

/// Returns the status of what was written, or that its fault stopped the run.
pub(crate) fn status_or_stopped(written: Result<u8, Fault>) -> Result<u8, Stopped>
    ensures { ending_of_result result ≡ ending_by written }
{
    match written {
        Ok(status) => Ok(status),
        Err(fault) => Err(Stopped::Fault(fault)),
    }
}

impl From<Fault> for Stopped {
    ghost use Rattle.mairix_run.specs.declared.stopped.Stopped.TheVariants as by;

    ghost from_gives = { λ fault stopped. stopped ≡ by.Fault fault };

    fn from(fault: Fault) -> Self {
        Stopped::Fault(fault)
    }
}

impl From<AllocError> for Stopped {
    ghost use Rattle.mairix_run.specs.declared.stopped.Stopped.TheVariants as by;
    ghost use Rattle.run_faults.specs.declared.fault.Fault.TheVariants.{Memory};

    ghost from_gives = { λ _ stopped. stopped ≡ by.Fault Memory };

    fn from(_: AllocError) -> Self {
        Stopped::Fault(Fault::Memory)
    }
}

impl<E> From<OrMemory<E>> for Stopped
where
    Fault: From<E>,
{
    ghost from_gives = { λ given stopped.
        IsStoppedBy ⟦<Fault as From<E>>⟧.from_gives given stopped };

    fn from(fault: OrMemory<E>) -> Self {
        Stopped::Fault(fault.into())
    }
}
