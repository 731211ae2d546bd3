//! What follows if bytes agree with what a source gave.
ghost use Rattle.std.specs.Prelude.{◌≡◌, ◌<◌, ◌++◌, ◌⊎◌, ◌∷◌, [], ℕ, List, Some, length, take, drop};
ghost use Rattle.call_record.specs.Calls.{Call, given_after, left_after, read_next};

/// Bytes that agree with all results are the bytes that the calls gave, and then those that are left.
pub fn agreeing_bytes_were_given()
    ensures { (bytes left : List ℕ) (calls : List Call) → left_after bytes calls ≡ Some left
        → bytes ≡ given_after calls ++ left }
{}

/// Only one list of bytes agrees with a source that was read to its end.
pub fn one_list_agrees()
    ensures { (a b : List ℕ) (calls : List Call) → left_after a calls ≡ Some []
        → left_after b calls ≡ Some [] → a ≡ b }
{}

/// Bytes still agree after a read that gives the first bytes that are left, or reports the end if none are left.
pub fn honest_reads_agree()
    ensures { (bytes left got : List ℕ) (calls : List Call) → left_after bytes calls ≡ Some left
        → take (length got) left ≡ got → (0 < length got) ⊎ (left ≡ [])
        → left_after bytes (read_next (Some got) ∷ calls) ≡ Some (drop (length got) left) }
{}
