//! Bytes that are still to be written.
ghost use Rattle.std.specs.Prelude.{◌≡◌, ◌+◌, ◌-◌, ◌≤◌, [], ◌++◌, length};
ghost use Rattle.mail_index.specs.declared.build.pending.TheConstants.{ROOM};

use std::marker::Model;

/// The most bytes. It limits how much of its stack a call uses that writes a file.
pub(crate) const ROOM: usize = 4096;

/// At most 4,096 bytes.
#[derive(Drop)]
pub(crate) struct Pending {
    bytes: [u8; ROOM],
    length: usize,
}

impl Model for Pending {
    ghost use Rattle.std.specs.Prelude.{◌≤◌, ℕ, List, take};
    ghost use Rattle.mail_index.specs.declared.build.pending.TheConstants.{ROOM};

    ghost Value = { List ℕ };

    ghost view = { λ s. take s.length s.bytes };

    ghost invariant = { λ s. s.length ≤ ROOM };
}

impl Pending {
    /// Returns no bytes.
    pub(crate) fn new() -> Self
        ensures { result ≡ [] }
    {
        Pending {
            bytes: [0; ROOM],
            length: 0,
        }
    }

    /// The bytes.
    pub(crate) fn as_slice(&self) -> &[u8]
        ensures { result.now ≡ self.now }
    {
        self.bytes.split_at(self.length).0
    }

    /// How many more bytes there is room for.
    pub(crate) fn room(&self) -> usize
        ensures { length self.now + result ≡ ROOM }
    {
        ROOM - self.length
    }

    /// Appends some bytes.
    pub(crate) fn append(&mut self, more: &[u8])
        requires { length self.old + length more.now ≤ ROOM }
        ensures { self.new ≡ self.old ++ more.now }
    {
        let length = self.length;
        self.bytes[length..length + more.len()].copy_from_slice(more);
        self.length += more.len();
    }

    /// Drops all bytes.
    pub(crate) fn clear(&mut self)
        ensures { self.new ≡ [] }
    {
        self.length = 0;
    }
}
