//! A file that is made.
ghost use Rattle.std.specs.Prelude.{◌≡◌, ℕ, Bool, true, List, IfSome};

use mbox_cutter::Out;

/// A file that is being made. What is put into it goes after what it has.
pub trait NewFile: Out {
    /// Whether all that it took is on the disk.
    ghost is_kept: { Self → Bool };

    /// What a crash may leave of its bytes.
    ghost may_hold: { Self → List ℕ → Type 0 };

    /// A crash leaves all that it took, if that is on the disk.
    ghost kept_whole: { (new : Self) (c : List ℕ) → is_kept new ≡ true → may_hold new c
        → IfSome (Self.taken new) (λ bytes. c ≡ bytes) };
}
