//! Transfer encodings.
ghost use Rattle.std.specs.Prelude.{◌≡◌};
ghost use Rattle.mime_text.specs.Types.{transfer_named};

use header_text::is_named;

/// How the lines of a body encode its bytes (RFC 2045, 6).
#[derive(Clone, Copy)]
pub enum TransferEncoding {
    /// The lines are the bytes.
    Identity,
    /// Quoted-printable (RFC 2045, 6.7).
    QuotedPrintable,
    /// Base64 (RFC 2045, 6.8).
    Base64,
}

impl TransferEncoding {
    /// Returns the encoding with this name, in any ASCII case; `Identity` for an unknown name.
    #[tactic(auto, unfolding(crate::specs::Types::transfer_named))]
    pub fn named(name: &[u8]) -> Self
        ensures { result ≡ transfer_named name.now }
    {
        if is_named(name, b"quoted-printable") {
            return TransferEncoding::QuotedPrintable;
        }
        if is_named(name, b"base64") {
            return TransferEncoding::Base64;
        }
        TransferEncoding::Identity
    }
}
