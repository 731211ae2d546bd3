//! A name that is its text.
ghost use Rattle.std.specs.Prelude.{◌≡◌, IfOk};
ghost use Rattle.std.specs.String.{string_bytes};

use crate::file_name::FileName;
use std::alloc::{AllocError, Global};

/// A name that is its text.
#[derive(Drop)]
pub struct PlainName {
    text: String,
}

impl PlainName {
    /// Returns the name with this text.
    pub fn new(alloc: Global, text: &str) -> Result<PlainName, AllocError>
        ensures { IfOk result (λ name. ⟦<PlainName as FileName>⟧.text name ≡ text.now) }
    {
        let text = String::from_str(alloc, text)?;
        Ok(PlainName { text })
    }
}

impl FileName for PlainName {
    ghost text = { λ name. string_bytes name.text };

    fn as_str(&self) -> &str {
        self.text.as_str()
    }
}
