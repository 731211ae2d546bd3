//! An output that takes no memory.
ghost use Rattle.std.specs.Prelude.{None};

use mbox_cutter::{DeviceFault, Out};

/// An output that counts the bytes that it takes, and keeps none.
#[derive(Drop)]
pub struct Counted {
    pub bytes: u64,
}

impl Out for Counted {
    ghost taken = { λ _. None };

    ghost failures = { λ _. 0 };

    fn put(&mut self, bytes: &[u8]) -> Result<usize, DeviceFault> {
        self.bytes = self.bytes.saturating_add(bytes.len() as u64);
        Ok(bytes.len())
    }
}
