//! What was done to a folder in memory.
ghost use Rattle.std.specs.Prelude.{◌≡◌};
ghost use Rattle.std.specs.Option.{option_map};
ghost use Rattle.named_files.specs.Logs.{named_by};
ghost use Rattle.named_files.specs.MemoryFolders.{change_of, held_of};

use crate::memory_folder::item::Item;

/// What a name leads to.
#[derive(Drop)]
pub(crate) struct Found {
    pub(crate) item: Item,
    /// Whether all bytes of a file are on the disk.
    pub(crate) is_on_disk: bool,
    /// Whether it is a file that a killed run left.
    pub(crate) is_left: bool,
}

/// A change of a folder.
#[derive(Drop)]
pub(crate) enum Step {
    /// The name leads to this from now on.
    Named(String, Found),
    /// The name was brought to the disk.
    Synced(String),
}

impl Step {
    /// Returns what the name leads to after this step, if the step gave it that.
    pub(crate) fn found(&self, name: &str) -> Option<&Found>
        ensures { option_map (λ found. held_of found.now) result
            ≡ named_by (change_of self.now) name.now }
    {
        match self {
            Step::Named(named, found) if name == named.as_str() => Some(found),
            _ => None,
        }
    }
}
