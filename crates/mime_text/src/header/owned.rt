//! What is kept of a header. Each type has its own bound on what it keeps.
ghost use Rattle.std.specs.Prelude.{◌≡◌, ◌+◌, ◌≤◌, ℕ, List, [], ◌++◌, All, length, map, IfOk, OnOk, OnErr, string_bytes};
ghost use Rattle.header_text.specs.Headers.{most_in_header};
ghost use Rattle.header_text.specs.Ids.{ids_of, ids_size};
ghost use Rattle.mime_text.specs.MessageFacts.{IsSizedId};
ghost use Rattle.mime_text.specs.Limits.{most_in_header_text};

use header_text::push_ids;
use std::alloc::{AllocError, Global};
use std::marker::Model;

/// The text of a Date field, of at most 786,432 bytes. Contracts see it as its bytes.
#[derive(Drop)]
pub struct DateText {
    text: String,
}

impl Model for DateText {
    ghost use Rattle.std.specs.Prelude.{ℕ, List};

    ghost Value = { List ℕ };

    ghost use Rattle.mime_text.specs.Limits.{most_in_header_text};
    ghost use Rattle.std.specs.Prelude.{◌≤◌, length, string_bytes};

    ghost view = { λ t. string_bytes t.text };

    ghost invariant = { λ t. length (string_bytes t.text) ≤ most_in_header_text };
}

impl DateText {
    pub(crate) fn of(text: String) -> Self
        requires { length (string_bytes text) ≤ most_in_header_text }
        ensures { result ≡ string_bytes text }
    {
        DateText { text }
    }

    /// Returns the text.
    pub fn as_str(&self) -> &str
        ensures { result.now ≡ self.now }
    {
        self.text.as_str()
    }
}

/// A message id, of 1 to 262,144 bytes. Contracts see it as its bytes.
#[derive(Drop)]
pub struct MessageId {
    bytes: Vec<u8>,
}

impl Model for MessageId {
    ghost use Rattle.std.specs.Prelude.{ℕ, List};

    ghost Value = { List ℕ };

    ghost use Rattle.mime_text.specs.MessageFacts.{IsSizedId};

    ghost view = { λ id. id.bytes.items };

    ghost invariant = { λ id. IsSizedId id.bytes.items };
}

impl MessageId {
    pub(crate) fn of(bytes: Vec<u8>) -> Self
        requires { IsSizedId bytes.items }
        ensures { result ≡ bytes.items }
    {
        MessageId { bytes }
    }

    /// Returns the bytes of the id.
    pub fn as_bytes(&self) -> &[u8]
        ensures bytes { result.now ≡ self.now }
        ensures size { IsSizedId result.now }
    {
        self.bytes.as_slice()
    }
}

/// Message ids. Contracts see them as the list of their bytes. Each has 1 to 262,144 bytes, and all together have at
/// most 262,144 with the `<` and the `>` around each, because no more bytes are kept of the header in which they are.
#[derive(Drop)]
pub struct MessageIds {
    ids: Vec<Vec<u8>>,
}

impl Model for MessageIds {
    ghost use Rattle.std.specs.Prelude.{ℕ, List};

    ghost Value = { List (List ℕ) };

    ghost use Rattle.std.specs.Prelude.{◌≤◌, All, map};
    ghost use Rattle.header_text.specs.Headers.{most_in_header};
    ghost use Rattle.header_text.specs.Ids.{ids_size};
    ghost use Rattle.mime_text.specs.MessageFacts.{IsSizedId};

    ghost view = { λ ids. map (λ id. id.items) ids.ids.items };

    ghost invariant = { λ ids. All (λ id. IsSizedId id.items) ids.ids.items
        × (ids_size (map (λ id. id.items) ids.ids.items) ≤ most_in_header) };
}

impl MessageIds {
    pub(crate) fn new(alloc: Global) -> Self
        ensures { result ≡ [] }
    {
        MessageIds {
            ids: Vec::new(alloc),
        }
    }

    /// Adds the ids in the body of a field. If memory runs out, none is added.
    pub(crate) fn push_ids_of(&mut self, alloc: Global, body: &[u8]) -> Result<(), AllocError>
        requires room { ids_size self.old + length body.now ≤ most_in_header }
        ensures ids { OnOk result (self.new ≡ self.old ++ ids_of body.now) }
        ensures size { OnOk result (ids_size (ids_of body.now) ≤ length body.now) }
        ensures sizes { OnOk result (All IsSizedId self.new) }
        ensures refused { OnErr result (self.new ≡ self.old) }
    {
        push_ids(alloc, body, &mut self.ids)
    }

    /// Returns the ids, in order.
    pub fn as_slice(&self) -> &[Vec<u8>]
        ensures ids { map (λ id. id.items) result.now ≡ self.now }
        ensures sizes { All (λ id. IsSizedId id.items) result.now }
        ensures size { ids_size (map (λ id. id.items) result.now) ≤ most_in_header }
    {
        self.ids.as_slice()
    }
}
