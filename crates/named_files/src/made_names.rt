//! The names that were made, which only clauses read.
ghost use Rattle.std.specs.Prelude.{◌≡◌, ◌∷◌, [], ℕ, Bool, List};
ghost use Rattle.std.specs.Borrow.{ftrue};
ghost use Rattle.std.specs.Coded.{coded×, coded_ℕ, coded_bool, coded_list};

use std::marker::{Model, PhantomData};

/// The names that a folder made, the newest first; each with whether all that had been reported by then agreed with what
/// is supposed. They aren't in memory: a value has no size, and a program does the same without them.
///
/// It can't be dropped, so who was passed one can't leave out a name.
pub struct MadeNames {
    notes: NameNotes,
}

/// Notes of names.
#[derive(Drop)]
struct NameNotes {
    marker: PhantomData<u8>,
    pub ghost made: { List (List ℕ × Bool) } by { coded_list
        (coded× (coded_list coded_ℕ) coded_bool) },
}

impl Model for NameNotes {
    ghost also_owns = { λ _. ftrue };
}

impl MadeNames {
    /// Returns no names.
    pub fn new() -> MadeNames
        ensures { result.notes.made ≡ [] }
    {
        MadeNames {
            notes: NameNotes::new(),
        }
    }

    /// Adds a name. A proof says whether all that was reported agrees, by the reports that are passed here.
    pub fn note<T>(&mut self, text: &[u8], _reports: &T)
        ghost agree: { Bool }
        ensures { self.new.notes.made ≡ (text.now, agree) ∷ self.old.notes.made }
    {
        self.notes = self.notes.next(text);
    }

    /// Ends the list.
    pub fn close(self) {
        let MadeNames { notes: _ } = self;
    }
}

impl NameNotes {
    /// Returns notes of no name.
    fn new() -> NameNotes
        ensures { result.made ≡ [] }
    {
        NameNotes::of()
    }

    /// Returns the notes that come after these. A proof says which ones these are, by what is passed here.
    fn next(&self, _text: &[u8]) -> NameNotes
        ghost said: { List (List ℕ × Bool) }
        ensures { result.made ≡ said }
    {
        NameNotes::of()
    }

    /// Returns any notes.
    fn of() -> NameNotes
        ghost said: { List (List ℕ × Bool) }
        ensures { result.made ≡ said }
    {
        NameNotes {
            marker: PhantomData,
        }
    }
}
