//! Decoding the lines of a body (RFC 2045, 6).
ghost use Rattle.std.specs.Prelude.{◌≡◌, ℕ, ◌++◌, ◌∷◌, [], List, OnOk, OnErr};
ghost use Rattle.mime_text.specs.Transfer.{printable_bytes, decoded_bytes};
ghost use Rattle.mime_text.specs.Decoders.{still_decoded};

use crate::leaf::transfer::TransferEncoding;
use header_text::{Base64, before_blanks, unescape_into};
use mbox_cutter::without_break;
use std::alloc::AllocError;

/// Decodes a transfer encoding, one line of the body at a time.
#[derive(Clone, Copy)]
pub(crate) enum Decoder {
    Identity,
    QuotedPrintable,
    Base64(Base64),
}

/// Adds the bytes of a line of quoted-printable, without its line break and the spaces and tabs before it. A final `=`
/// is dropped; without it, LF is added if the line has a line break (RFC 2045, 6.7, rules 3 and 5). If memory runs out,
/// nothing is added.
#[tactic(auto, unfolding(crate::specs::Transfer::printable_bytes))]
fn push_printable(line: &[u8], into: &mut Vec<u8>) -> Result<(), AllocError>
    ensures bytes { OnOk result (into.new.items ≡ into.old.items ++ printable_bytes line.now) }
    ensures refused { OnErr result (into.new.items ≡ into.old.items) }
{
    let text = before_blanks(without_break(line));
    if let Some(soft) = text.strip_suffix(b"=") {
        return unescape_into(soft, into);
    }
    let start = into.len();
    unescape_into(text, into)?;
    if line.strip_suffix(b"\n").is_some() && into.push(b'\n').is_err() {
        into.truncate(start);
        return Err(AllocError);
    }
    Ok(())
}

impl Decoder {
    /// Returns the decoder for the beginning of a body.
    pub(crate) fn new(transfer: TransferEncoding) -> Self
        ensures { (ls : List (List ℕ)) → still_decoded result ls ≡ decoded_bytes transfer ls }
    {
        match transfer {
            TransferEncoding::Identity => Decoder::Identity,
            TransferEncoding::QuotedPrintable => Decoder::QuotedPrintable,
            TransferEncoding::Base64 => Decoder::Base64(Base64::new()),
        }
    }

    /// Adds the bytes that the next line gives. If memory runs out, the decoder and the buffer are as before.
    pub(crate) fn push(&mut self, line: &[u8], into: &mut Vec<u8>) -> Result<(), AllocError>
        ensures bytes { OnOk result ((later : List (List ℕ))
            → into.new.items ++ still_decoded self.new later
            ≡ into.old.items ++ still_decoded self.old (line.now ∷ later)) }
        ensures refused { OnErr result ((self.new ≡ self.old)
            × (into.new.items ≡ into.old.items)) }
    {
        match self {
            Decoder::Identity => into.extend_from_slice(line),
            Decoder::QuotedPrintable => push_printable(line, into),
            Decoder::Base64(reader) => reader.push(line, into),
        }
    }

    /// Adds the bytes that are left at the end of the body. If memory runs out, nothing is added.
    pub(crate) fn finish(self, into: &mut Vec<u8>) -> Result<(), AllocError>
        ensures bytes { OnOk result (into.new.items ≡ into.old.items ++ still_decoded self []) }
        ensures refused { OnErr result (into.new.items ≡ into.old.items) }
    {
        match self {
            Decoder::Identity | Decoder::QuotedPrintable => Ok(()),
            Decoder::Base64(reader) => reader.finish(into),
        }
    }
}
