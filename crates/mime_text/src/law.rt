//! What holds of the definitions in the contracts.
ghost use Rattle.std.specs.Prelude.{◌≡◌, ℕ, suc, List, [], ◌++◌, Bool, flat_map};
ghost use Rattle.header_text.specs.Headers.{HeaderField};
ghost use Rattle.mime_text.specs.declared.parts.shape.DefaultType.{DefaultType};
ghost use Rattle.mime_text.specs.declared.parts.shape.Shape.{Shape};
ghost use Rattle.mime_text.specs.Parameters.{Parameter, AreParameters, after_semicolon, parameters};
ghost use Rattle.mime_text.specs.Parts.{Part, parts};
ghost use Rattle.mime_text.specs.Stream.{values_given, InHeader, counted_part};

/// Reading one line at a time with a stack of boundaries gives the parts of the split that takes the outermost
/// boundaries first. The function has no code: its contract is the law.
pub fn one_line_at_a_time()
    ensures { (shape_of : DefaultType → List HeaderField → Shape) (gives : Part → List ℕ)
        (counted : Bool) (left : ℕ) (default : DefaultType) (lines : List (List ℕ))
        → values_given shape_of gives [] (InHeader counted left default []) lines
        ≡ flat_map gives (counted_part counted lines ++ parts shape_of (suc left) default lines) }
{}

/// The parameters of a value are those of its pieces, the first of which begins after the value's first semicolon, and
/// no other list is. The function has no code: its contract is the law.
pub fn parameters_are_of_pieces()
    ensures some { (value : List ℕ) → AreParameters (after_semicolon value) (parameters value) }
    ensures only { (value : List ℕ) (ps : List Parameter)
        → AreParameters (after_semicolon value) ps → ps ≡ parameters value }
{}
