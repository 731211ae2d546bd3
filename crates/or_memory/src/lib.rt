//! Why a reader returns nothing: it refuses what it reads, or memory ran out.
#![tactic(auto)]

mod or_memory;

pub use or_memory::OrMemory;
