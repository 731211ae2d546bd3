//! Where lines end in an archive.
ghost use Rattle.std.specs.Prelude.{◌≡◌, ◌≤◌, ℕ, List};
ghost use Rattle.mbox_cutter.specs.Lines.{AreLines, is_empty, length_before_feed, line_end_of, lines};

use memchr::memchr;

/// The most bytes that a line has, without its LF.
pub const MOST_IN_LINE: usize = 65_536;

/// Returns whether the line is LF or CR LF alone.
#[tactic(auto, unfolding(crate::specs::Lines::is_empty))]
pub fn is_empty_line(line: &[u8]) -> bool
    ensures { result ≡ is_empty line.now }
{
    matches!(line, b"\n" | b"\r\n")
}

/// Returns the length of the first line, if bytes that follow can't change it. The line ends after its LF. If there are
/// 65,537 bytes without LF, it ends after 65,536. For fewer bytes without LF the result is None.
pub fn line_end(bytes: &[u8]) -> Option<usize>
    ensures { result ≡ line_end_of bytes.now }
{
    line_end_after(0, bytes)
}

/// Returns what `line_end` does. The first `searched` bytes have no LF, and aren't searched again.
pub fn line_end_after(searched: usize, bytes: &[u8]) -> Option<usize>
    requires free { searched ≤ length_before_feed bytes.now }
    requires few { searched ≤ 65536 }
    ensures { result ≡ line_end_of bytes.now }
{
    let head = &bytes[..bytes.len().min(MOST_IN_LINE + 1)];
    let (_, rest) = head.split_at(searched);
    match memchr(b'\n', rest) {
        Some(at) => Some(searched + at + 1),
        None if head.len() > MOST_IN_LINE => Some(MOST_IN_LINE),
        None => None,
    }
}

/// The law of lines: any bytes have exactly one list of lines that joins to them.
///
/// In such a list LF is only ever the last byte of a line, and no line has more than 65,536 bytes before its LF. A line
/// without LF that isn't the last has exactly 65,536 bytes, and isn't followed by LF. The function has no code, because
/// its contract is the law.
pub fn lines_law()
    ensures some { (bytes : List ℕ) → AreLines bytes (lines bytes) }
    ensures only { (bytes : List ℕ) (ls : List (List ℕ)) → AreLines bytes ls → ls ≡ lines bytes }
{}
