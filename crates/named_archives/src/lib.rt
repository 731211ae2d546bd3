//! Archives by their names: the files to which they lead, as sources and as archives that are read at any place.
#![tactic(auto)]

mod first_look;
mod named_archives;
mod named_source;
mod read_ahead;

pub use first_look::{Unopened, first_states};
pub use named_archives::NamedArchives;
pub use named_source::{NamedSource, lack_memory, report_all, sources_of};
pub use read_ahead::ReadAhead;
