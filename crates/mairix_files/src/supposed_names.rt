//! What is supposed of names, which only clauses read.
ghost use Rattle.std.specs.Prelude.{◌≡◌, ℕ, List};
ghost use Rattle.std.specs.Borrow.{ftrue};
ghost use Rattle.std.specs.Coded.{coded×, coded_ℕ, coded_list};
ghost use Rattle.named_files.specs.Entries.{Entry};
ghost use Rattle.mairix_files.specs.EntryCodes.{entry_code};

use std::marker::{Model, PhantomData};

/// What names are supposed to lead to, and which names are supposed to lead to the same place. It isn't in memory: a
/// value has no size, and a program does the same, whatever is supposed.
#[derive(Drop)]
pub struct SupposedNames {
    marker: PhantomData<u8>,
    pub ghost entries: { List (List ℕ × Entry) } by { coded_list
        (coded× (coded_list coded_ℕ) entry_code) },
    pub ghost links: { List (List ℕ × List ℕ) } by { coded_list
        (coded× (coded_list coded_ℕ) (coded_list coded_ℕ)) },
}

impl Model for SupposedNames {
    ghost also_owns = { λ _. ftrue };
}

impl SupposedNames {
    /// Supposes what the names in a list lead to, and that no other name leads to anything. The first name of each link
    /// leads where the second one does.
    pub fn new() -> SupposedNames
        ghost supposed: { List (List ℕ × Entry) × List (List ℕ × List ℕ) }
        ensures { (result.entries ≡ supposed.0) × (result.links ≡ supposed.1) }
    {
        SupposedNames {
            marker: PhantomData,
        }
    }
}
