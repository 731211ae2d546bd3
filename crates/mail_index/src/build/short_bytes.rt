//! A few bytes that take no memory of their own.
ghost use Rattle.std.specs.Prelude.{◌≡◌, ◌+◌, ◌<◌, ◌≤◌, [], ◌∷◌, ◌++◌, length};

use std::marker::Model;

/// At most fifteen bytes.
#[derive(Drop)]
pub(crate) struct ShortBytes {
    bytes: [u8; 15],
    length: u8,
}

impl Model for ShortBytes {
    ghost use Rattle.std.specs.Prelude.{◌≤◌, ℕ, List, take};

    ghost Value = { List ℕ };

    ghost view = { λ s. take s.length s.bytes };

    ghost invariant = { λ s. s.length ≤ 15 };
}

impl ShortBytes {
    /// The most bytes.
    pub(crate) const MOST: usize = 15;

    /// Returns no bytes.
    pub(crate) fn new() -> Self
        ensures { result ≡ [] }
    {
        ShortBytes {
            bytes: [0; 15],
            length: 0,
        }
    }

    /// The bytes.
    pub(crate) fn as_slice(&self) -> &[u8]
        ensures bytes { result.now ≡ self.now }
        ensures short { length result.now ≤ 15 }
    {
        self.bytes.split_at(self.length as usize).0
    }

    /// Appends some bytes.
    pub(crate) fn append(&mut self, more: &[u8])
        requires { length self.old + length more.now ≤ 15 }
        ensures { self.new ≡ self.old ++ more.now }
    {
        let length = self.length as usize;
        self.bytes[length..length + more.len()].copy_from_slice(more);
        self.length += more.len() as u8;
    }

    /// Appends a byte.
    pub(crate) fn push(&mut self, byte: u8)
        requires { length self.old < 15 }
        ensures { self.new ≡ self.old ++ byte ∷ [] }
    {
        self.bytes[self.length as usize] = byte;
        self.length += 1;
    }

    /// Drops all bytes.
    pub(crate) fn clear(&mut self)
        ensures { self.new ≡ [] }
    {
        self.length = 0;
    }
}
