//! Writes bytes, and digests them on the way if that is wanted.
ghost use Rattle.std.specs.Prelude.{◌≡◌, ◌-◌, ◌^◌, ◌<◌, ℕ, List, [], ◌++◌, IfOk, OnOk, OnErr, map};
ghost use Rattle.std.specs.Io.KnownBytes.{Appends};
ghost use Rattle.std.specs.List.{concat};
ghost use Rattle.contract_words.specs.Devices.{Counts, Sends};
ghost use Rattle.mail_index.specs.Files.{digest_or_zeros};
ghost use Rattle.mail_index.specs.Inside.Signing.{Absorbs, Seals, WritesSigned};
ghost use Rattle.mail_index.specs.declared.digests.Digests.{Digests};

use crate::build::pending::{Pending, ROOM};
use crate::build::seal::Seal;
use crate::digests::Digests;
use mbox_cutter::{DeviceFault, Out, send};

/// The seal of what was written, and the bytes that are gathered to be written next.
///
/// A file consists of fields of few bytes. Gathered, some hundred of them cost an output and a digest one call.
#[derive(Drop)]
pub(crate) struct Signer {
    seal: Seal,
    pending: Pending,
}

impl Signer {
    /// Returns a signer that has written nothing.
    pub(crate) fn new(digests: Digests) -> Self
        ensures seal { Seals digests result.seal [] }
        ensures pending { result.pending ≡ [] }
    {
        Signer {
            seal: Seal::new(digests),
            pending: Pending::new(),
        }
    }

    /// Writes the gathered bytes, and adds them to the seal.
    fn flush<O: Out>(&mut self, out: &mut O) -> Result<(), DeviceFault>
        requires { O.failures out.old < 2 ^ 64 - 1 }
        ensures ok { OnOk result (Appends (O.taken out.old) (O.taken out.new) self.old.pending) }
        ensures seal { OnOk result (Absorbs self.old.seal self.new.seal self.old.pending) }
        ensures all { OnOk result (self.new.pending ≡ []) }
        ensures err { OnErr result (Sends (O.taken out.old) (O.taken out.new) self.old.pending) }
        ensures count { Counts result (O.failures out.old) (O.failures out.new) }
    {
        let gathered = self.pending.as_slice();
        let sent = send(out, gathered);
        self.seal.update(gathered);
        self.pending.clear();
        sent
    }

    /// Writes the gathered bytes, and returns the digest of all that was written, or zeros.
    pub(crate) fn finish<O: Out>(mut self, out: &mut O) -> Result<[u8; 32], DeviceFault>
        requires { O.failures out.old < 2 ^ 64 - 1 }
        ensures ok { OnOk result (Appends (O.taken out.old) (O.taken out.new) self.pending) }
        ensures digest { IfOk result (λ digest. (digests : Digests) (m : List ℕ)
            → Seals digests self.seal m → digest ≡ digest_or_zeros digests (m ++ self.pending)) }
        ensures err { OnErr result (Sends (O.taken out.old) (O.taken out.new) self.pending) }
        ensures count { Counts result (O.failures out.old) (O.failures out.new) }
    {
        self.flush(out).and(Ok(self.seal.finish()))
    }

    /// Writes the gathered bytes. Then gathers the new ones if there is room for them, and writes them if not.
    fn send_past<O: Out>(&mut self, out: &mut O, bytes: &[u8]) -> Result<(), DeviceFault>
        requires { O.failures out.old < 2 ^ 64 - 1 }
        ensures written { WritesSigned result (O.taken out.old) (O.taken out.new) self.old self.new
            bytes.now }
        ensures count { Counts result (O.failures out.old) (O.failures out.new) }
    {
        self.flush(out)?;
        if bytes.len() <= ROOM {
            self.pending.append(bytes);
            return Ok(());
        }
        send(out, bytes)?;
        self.seal.update(bytes);
        Ok(())
    }
}

/// Gathers these bytes to be written, or writes them, and adds all that is written to the seal.
#[inline(always)]
pub(crate) fn send_signed<O: Out>(
    out: &mut O,
    signer: &mut Signer,
    bytes: &[u8],
) -> Result<(), DeviceFault>
    requires { O.failures out.old < 2 ^ 64 - 1 }
    ensures written { WritesSigned result (O.taken out.old) (O.taken out.new) signer.old signer.new
        bytes.now }
    ensures count { Counts result (O.failures out.old) (O.failures out.new) }
{
    if bytes.len() > signer.pending.room() {
        return signer.send_past(out, bytes);
    }
    signer.pending.append(bytes);
    Ok(())
}

/// Does what `send_signed` does for each part, one after another.
pub(crate) fn send_parts<O: Out>(
    out: &mut O,
    signer: &mut Signer,
    parts: &[&[u8]],
) -> Result<(), DeviceFault>
    requires { O.failures out.old < 2 ^ 64 - 1 }
    ensures written { WritesSigned result (O.taken out.old) (O.taken out.new) signer.old signer.new
        (concat (map (λ part. part.now) parts.now)) }
    ensures count { Counts result (O.failures out.old) (O.failures out.new) }
{
    for part in parts {
        send_signed(out, signer, part)?;
    }
    Ok(())
}
