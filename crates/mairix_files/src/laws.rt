//! What follows from what is supposed of names.
ghost use Rattle.std.specs.Prelude.{◌≡◌, ℕ, List, false};
ghost use Rattle.mairix_files.specs.declared.supposed_names.SupposedNames.{SupposedNames};
ghost use Rattle.mairix_files.specs.NameCalls.{are_apart, supposed_first};

/// Two names that lead to one place are supposed to lead to the same, before any call.
pub fn one_place_holds_one_thing()
    ensures { (supposed : SupposedNames) (a b : List ℕ) → are_apart supposed.links a b ≡ false
        → supposed_first supposed a ≡ supposed_first supposed b }
{}
