//! The name of a file.
ghost use Rattle.std.specs.Prelude.{◌≡◌, ℕ, List};

/// A name by which files are looked at, opened, made, renamed and removed. Only a folder makes one, by
/// [`Folder::name`](crate::Folder::name), so what isn't named there isn't used.
pub trait FileName: Drop {
    /// The bytes of its text.
    ghost text: { Self → List ℕ };

    /// Returns its text.
    fn as_str(&self) -> &str
        ensures { result.now ≡ text self.now };
}
