//! The boundary between the parts of a multipart entity.
ghost use Rattle.std.specs.Prelude.{◌≡◌, ◌<◌, ◌≤◌, length};
ghost use Rattle.mime_text.specs.Limits.{most_in_boundary};
ghost use Rattle.mime_text.specs.Types.{usable};

use std::marker::Model;

/// The most bytes of a boundary (RFC 2046, 5.1.1; decision 29 in docs/DECISIONS.md).
const MOST_IN_BOUNDARY: usize = 70;

/// A boundary, of 1 to 70 bytes.
#[derive(Drop)]
pub struct Boundary {
    bytes: [u8; MOST_IN_BOUNDARY],
    count: usize,
}

impl Model for Boundary {
    ghost use Rattle.std.specs.Prelude.{ℕ, List, take, ◌<◌, ◌≤◌};
    ghost use Rattle.mime_text.specs.Limits.{most_in_boundary};

    ghost Value = { List ℕ };

    ghost view = { λ b. take b.count b.bytes };

    ghost invariant = { λ b. (0 < b.count) × (b.count ≤ most_in_boundary) };
}

impl Boundary {
    /// Returns the boundary with these bytes; None if there are no bytes or more than 70.
    pub fn new(bytes: &[u8]) -> Option<Self>
        ensures { result ≡ usable bytes.now }
    {
        let count = bytes.len();
        if count == 0 || count > MOST_IN_BOUNDARY {
            return None;
        }
        let mut copy = [0; MOST_IN_BOUNDARY];
        copy[..count].copy_from_slice(bytes);
        Some(Boundary { bytes: copy, count })
    }

    /// Returns the bytes of the boundary.
    pub fn as_bytes(&self) -> &[u8]
        ensures bytes { result.now ≡ self.now }
        ensures some { 0 < length self.now }
        ensures short { length self.now ≤ most_in_boundary }
    {
        &self.bytes[..self.count]
    }
}
