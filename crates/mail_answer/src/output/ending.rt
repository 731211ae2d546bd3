//! The last line of some bytes, and what closes it.
ghost use Rattle.std.specs.Prelude.{◌≡◌, ℕ, List, [], ◌++◌};
ghost use Rattle.mail_answer.specs.Inside.Endings.{ending_of_bytes, with_byte as with_byte_of, feeds_of};

use memchr::memrchr;

/// The most bytes of a line without LF.
const LONGEST: u32 = 65_536;

/// What the last line of some bytes is.
#[derive(Clone, Copy)]
pub(crate) enum Ending {
    /// The line is LF, or CR LF.
    Empty,
    /// The line is longer, and ends in LF.
    Ended,
    /// The line is CR.
    Return,
    /// The line has this many other bytes and no LF; 0 if there is no line.
    Open(u32),
}

/// Returns the ending after one more byte.
fn with_byte(ending: Ending, b: u8) -> Ending
    ensures { result ≡ with_byte_of ending b }
{
    match ending {
        Ending::Return if b != b'\n' => Ending::Open(2),
        Ending::Open(n) if n > 0 && b == b'\n' => Ending::Ended,
        Ending::Open(n) if n > 0 && n < LONGEST => Ending::Open(n + 1),
        _ => match b {
            b'\n' => Ending::Empty,
            b'\r' => Ending::Return,
            _ => Ending::Open(1),
        },
    }
}

/// Returns the ending after these bytes, each of which is read.
fn with_each(before: Ending, more: &[u8]) -> Ending
    ensures { (bytes : List ℕ) → before ≡ ending_of_bytes bytes → result
        ≡ ending_of_bytes (bytes ++ more.now) }
{
    let mut ending = before;
    for b in more {
        ending = with_byte(ending, *b);
    }
    ending
}

impl Ending {
    /// Returns the ending of no bytes.
    pub(crate) fn new() -> Self
        ensures { result ≡ ending_of_bytes [] }
    {
        Ending::Open(0)
    }

    /// Returns the ending after these bytes. Reads only the last line.
    pub(crate) fn with_bytes(self, more: &[u8]) -> Self
        ensures { (bytes : List ℕ) → self ≡ ending_of_bytes bytes
            → result ≡ ending_of_bytes (bytes ++ more.now) }
    {
        // The last line begins after the last LF that isn't the last byte.
        let most = more.len().saturating_sub(1);
        match memrchr(b'\n', &more[..most]) {
            Some(at) => with_each(Ending::new(), &more[at + 1..]),
            None => with_each(self, more),
        }
    }

    /// Returns the LFs after which the last line is empty.
    pub(crate) fn feeds(self) -> &'static [u8]
        ensures { result.now ≡ feeds_of self }
    {
        match self {
            Ending::Empty => b"",
            Ending::Ended | Ending::Return => b"\n",
            Ending::Open(_) => b"\n\n",
        }
    }
}
