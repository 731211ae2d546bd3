//! A refusal, or lack of memory.
ghost use Rattle.std.specs.Prelude.{◌≡◌};
ghost use Rattle.or_memory.specs.declared.or_memory.OrMemory.TheVariants.{Memory};

use std::alloc::{AllocError, AllocFailed};

/// Why a reader returns nothing: it refuses what it reads, or memory ran out. Only a refusal depends on what is read.
#[derive(Debug, Drop)]
pub enum OrMemory<E> {
    /// The reader refuses what it reads.
    Refused(E),
    /// Memory ran out.
    Memory,
}

impl<E> From<AllocError> for OrMemory<E> {
    ghost from_gives = { λ _ fault. fault ≡ Memory };

    fn from(_: AllocError) -> Self {
        OrMemory::Memory
    }
}

impl<E, T: Drop> From<AllocFailed<T>> for OrMemory<E> {
    ghost from_gives = { λ _ fault. fault ≡ Memory };

    fn from(_: AllocFailed<T>) -> Self {
        OrMemory::Memory
    }
}
