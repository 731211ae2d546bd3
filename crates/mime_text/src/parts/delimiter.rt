//! Delimiter lines (RFC 2046, 5.1.1).
ghost use Rattle.std.specs.Prelude.{◌≡◌, false, Some, None, option_map};
ghost use Rattle.std.specs.List.{list_all};
ghost use Rattle.contract_words.specs.Blanks.{is_blank as is_blank_of};
ghost use Rattle.header_text.specs.EncodedWords.{after as after_of};
ghost use Rattle.mime_text.specs.Parts.{are_blanks as are_blanks_of};
ghost use Rattle.mime_text.specs.Frames.{dash_dash, dashes, delimiter_of, kind_after, goes_on_apart as goes_on_apart_of, are_boundaries_apart};

use header_text::after_blanks;
use mbox_cutter::without_break;

/// What a delimiter line does to its multipart.
#[derive(Clone, Copy)]
pub(crate) enum Delimiter {
    /// The next piece begins.
    Next,
    /// The multipart ends.
    Closing,
}

/// Returns what follows `front` at the beginning of some bytes; None if they don't begin with it.
fn after<'a>(front: &[u8], bytes: &'a [u8]) -> Option<&'a [u8]>
    ensures { option_map (λ rest. rest.now) result ≡ after_of front.now bytes.now }
{
    bytes.strip_prefix(front)
}

/// Whether all bytes are spaces and tabs.
#[tactic(auto, using(crate::proofs::FrameLemmas::blanks_alone))]
fn are_blanks(bytes: &[u8]) -> bool
    ensures { result ≡ list_all is_blank_of bytes.now }
{
    after_blanks(bytes).is_empty()
}

/// Returns what follows the two dashes that begin a delimiter line, without the line break; None if the line doesn't
/// begin with them.
#[tactic(auto, unfolding(crate::specs::Frames::dashes))]
pub(crate) fn after_dashes(line: &[u8]) -> Option<&[u8]>
    ensures { option_map (λ rest. rest.now) result ≡ dashes line.now }
{
    after(b"--", without_break(line))
}

/// Whether a boundary's last byte is where the boundary would end. It is tried first because boundaries of one message
/// mostly begin with the same bytes. To return true for all texts would only cost time.
fn has_last_of(boundary: &[u8], text: &[u8]) -> bool
    ensures { result ≡ false → after_of boundary.now text.now ≡ None }
{
    let length = boundary.len();
    length == 0 || length <= text.len() && text[length - 1] == boundary[length - 1]
}

/// Returns what a line is to the multipart of a boundary, by what follows the line's two dashes.
#[tactic(auto, using(crate::proofs::FrameLemmas::not_blank), unfolding(crate::specs::Frames::delimiter_of))]
pub(crate) fn delimiter_after(boundary: &[u8], text: &[u8]) -> Option<Delimiter>
    ensures { result ≡ delimiter_of boundary.now text.now }
{
    if !has_last_of(boundary, text) {
        return None;
    }
    let rest = after(boundary, text)?;
    match after(b"--", rest) {
        Some(end) => are_blanks(end).then_some(Delimiter::Closing),
        None => are_blanks(rest).then_some(Delimiter::Next),
    }
}

/// Whether what follows `front` in a boundary begins with a byte that can't follow `front` in a delimiter line; true if
/// the boundary doesn't begin with it.
fn goes_on_apart(front: &[u8], boundary: &[u8]) -> bool
    ensures { result ≡ goes_on_apart_of (after_of front.now boundary.now) }
{
    match after(front, boundary) {
        Some([first, ..]) => !matches!(*first, b' ' | b'\t' | b'-'),
        Some([]) => false,
        None => true,
    }
}

/// Whether no line delimits the multiparts of both boundaries, by a look at the boundaries alone.
pub(crate) fn are_apart(one: &[u8], other: &[u8]) -> bool
    ensures { result ≡ are_boundaries_apart one.now other.now }
{
    goes_on_apart(one, other) && goes_on_apart(other, one)
}
