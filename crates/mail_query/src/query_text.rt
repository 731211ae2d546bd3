//! The texts that a query looks for.
ghost use Rattle.std.specs.Prelude.{◌≡◌, ℕ, List, string_bytes, IfOk};
ghost use Rattle.mail_words.specs.Folding.{folding};

use mail_words::fold;
use std::alloc::{AllocError, Global};
use std::marker::Model;

/// A text that a query looks for. In contracts it is the list of its bytes.
#[derive(Drop)]
pub struct QueryText {
    text: String,
}

impl Model for QueryText {
    ghost Value = { List ℕ };

    ghost view = { λ t. string_bytes t.text };
}

impl QueryText {
    pub(crate) fn copy_of(alloc: Global, text: &str) -> Result<Self, AllocError>
        ensures { IfOk result (λ t. t ≡ text.now) }
    {
        let text = String::from_str(alloc, text)?;
        Ok(QueryText { text })
    }

    pub(crate) fn folded(alloc: Global, text: &str) -> Result<Self, AllocError>
        ensures { IfOk result (λ t. t ≡ folding text.now) }
    {
        let text = fold(alloc, text)?;
        Ok(QueryText { text })
    }

    pub fn as_str(&self) -> &str
        ensures { result.now ≡ self.now }
    {
        self.text.as_str()
    }

    pub fn as_bytes(&self) -> &[u8]
        ensures { result.now ≡ self.now }
    {
        self.text.as_bytes()
    }
}
