//! The memory of a cutter, which is taken once. A cutter over it takes none (decision 16 in docs/DECISIONS.md).
ghost use Rattle.std.specs.Prelude.{◌≡◌, vec_len};
ghost use Rattle.mbox_cutter.specs.declared.buffer.TheConstants.{ROOM};

use std::alloc::{AllocError, Global};

/// The number of bytes of a buffer. An empty line and a longest line after it fit into it.
pub(crate) const ROOM: usize = 131_072;

/// All the memory that a cutter needs, 128 KiB. Any number of cutters can use it, one after another.
#[derive(Drop)]
pub struct Buffer {
    pub(crate) bytes: Vec<u8>,
    ghost whole: { vec_len bytes ≡ ROOM },
}

impl Buffer {
    pub fn new(alloc: Global) -> Result<Self, AllocError> {
        let bytes = vec![in alloc; 0u8; ROOM]?;
        Ok(Buffer { bytes })
    }
}
