//! The first bytes of a file.
ghost use Rattle.std.specs.Prelude.{◌≡◌, ◌<◌, ◌≤◌, ◌+◌, ◌-◌, ◌^◌, length, IfErr, OnOk};
ghost use Rattle.named_files.specs.Refusals.{HasCause};
ghost use Rattle.mairix_run.specs.FileFronts.{GivesFront};

use mbox_cutter::{DeviceFault, Source};
use named_files::Refusal;

/// Reads the first bytes that a source still gives, at most this many, and appends them. It reads a piece at a time, and
/// no byte after them.
pub(crate) fn read_front<S: Source>(
    source: &mut S,
    most: usize,
    piece: &mut [u8],
    bytes: &mut Vec<u8>,
) -> Result<(), Refusal>
    requires room { 0 < length piece.old }
    requires count { S.failures source.old < 2 ^ 64 - 1 }
    ensures front { OnOk result (GivesFront most (S.rest source.old) (S.rest source.new)
        bytes.old.items bytes.new.items) }
    ensures few { OnOk result (length bytes.new.items ≤ length bytes.old.items + most) }
    ensures stays { OnOk result (S.failures source.new ≡ S.failures source.old) }
    ensures failed { IfErr result (λ why. HasCause why (0 < S.failures source.new)) }
{
    let mut left = most;
    while left > 0 {
        let room = left.min(piece.len());
        let into = &mut piece[..room];
        let n = match source.read_next(into) {
            Ok(n) => n,
            Err(DeviceFault) => return Err(Refusal::Refused),
        };
        if n == 0 {
            return Ok(());
        }
        if bytes.extend_from_slice(&into[..n]).is_err() {
            return Err(Refusal::Memory);
        }
        left -= n;
    }
    Ok(())
}
