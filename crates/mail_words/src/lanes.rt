//! Searches for word characters of ASCII, and for characters that folding keeps, sixteen bytes at a time.
ghost use Rattle.std.specs.Prelude.{◌≡◌, ◌+◌, ◌<◌, ◌≤◌, ◌==◌, ◌||◌, ℕ, true, false, nat_lt, length, map, slice_index, if◌then◌else◌, IfSome};
ghost use Rattle.std.specs.Int.{w64, trailing_zeros};
ghost use Rattle.std.specs.List.{prefix_len};
ghost use Rattle.std.specs.Simd.Lanes.{chunk, mask_l, zip2};
ghost use Rattle.mail_words.specs.Inside.Folds.{is_stop, is_stop_at};
ghost use Rattle.mail_words.specs.Inside.Runs.{is_ascii_word, is_beyond_ascii, is_no_ascii_word, HasGapAndWord};

use std::simd::prelude::*;

/// The number of bytes that one load takes.
const LANES: usize = 16;

/// Returns how many bytes at the front are word characters of ASCII, counted in loads of sixteen bytes. If fewer than
/// sixteen bytes are left, these aren't looked at. A smaller result is never wrong, only slower.
pub(crate) fn len_by_lanes(bytes: &[u8]) -> usize
    ensures within { result ≤ length bytes.now }
    ensures passed { (k : ℕ) → k < result → is_ascii_word (slice_index bytes.now k) ≡ true }
{
    let mut len = 0;
    while bytes.len() - len >= LANES {
        let run = run_at(bytes, len);
        len += run;
        if run < LANES {
            return len;
        }
    }
    len
}

/// Returns how many word characters of ASCII come first in the sixteen bytes from a place on.
#[inline(always)]
fn run_at(bytes: &[u8], at: usize) -> usize
    requires { at + 16 ≤ length bytes.now }
    ensures { result ≡ prefix_len is_ascii_word (chunk at 16 bytes.now) }
{
    first_set(others_in(u8x16::from_slice(&bytes[at..])))
}

/// Returns the bits of the lanes that aren't word characters of ASCII.
#[inline(always)]
fn others_in(lanes: u8x16) -> u64
    ensures { result ≡ mask_l (map is_no_ascii_word lanes) }
{
    // Without its case, a letter is less than 26 after `a`, and a digit is less than 10 after `0`.
    let from_a = (lanes | u8x16::splat(0x20)) - u8x16::splat(b'a');
    let from_0 = lanes - u8x16::splat(b'0');
    let others = from_a.simd_ge(u8x16::splat(26)) & from_0.simd_ge(u8x16::splat(10));
    others.to_bitmask()
}

/// Returns how many bytes at the front come before one that `stops_in` finds, counted in loads of sixteen bytes. The last
/// byte isn't looked at, nor is any of fewer than seventeen. A smaller result is never wrong, only slower.
pub(crate) fn kept_by_lanes(bytes: &[u8]) -> usize
    ensures within { result ≤ length bytes.now }
    ensures passed { (k : ℕ) → k < result → is_stop_at bytes.now k ≡ false }
{
    let mut len = 0;
    while bytes.len() - len > LANES {
        let run = kept_at(bytes, len);
        len += run;
        if run < LANES {
            return len;
        }
    }
    if bytes.len() <= LANES {
        return len;
    }
    // The last load has bytes again that were passed.
    let last = bytes.len() - LANES - 1;
    let end = last + kept_at(bytes, last);
    if end < len { len } else { end }
}

/// Returns how many bytes come before one that `stops_in` finds, in the sixteen bytes from a place on.
#[inline(always)]
fn kept_at(bytes: &[u8], at: usize) -> usize
    requires { at + 17 ≤ length bytes.now }
    ensures within { result ≤ 16 }
    ensures passed { (k : ℕ) → k < result → is_stop_at bytes.now (at + k) ≡ false }
{
    let lanes = u8x16::from_slice(&bytes[at..]);
    let next = u8x16::from_slice(&bytes[at + 1..]);
    first_set(stops_in(lanes, next))
}

/// Returns the bits of the lanes that are capital letters of ASCII, or the first byte of a character beyond ASCII, unless
/// its first two bytes show that folding keeps it. `next` has the byte after each lane.
#[inline(always)]
fn stops_in(lanes: u8x16, next: u8x16) -> u64
    ensures { result ≡ mask_l (zip2 is_stop lanes next) }
{
    let capital = lanes.simd_ge(u8x16::splat(b'A')) & lanes.simd_le(u8x16::splat(b'Z'));
    let first = lanes.simd_ge(u8x16::splat(0xC0));
    if first.to_bitmask() == 0 {
        return capital.to_bitmask();
    }
    // à to ÿ
    let latin = lanes.simd_eq(u8x16::splat(0xC3)) & next.simd_ge(u8x16::splat(0xA0));
    // ά to ο, but for ΰ, and π to ώ, but for ς
    let alpha = next.simd_ge(u8x16::splat(0xAC)) & next.simd_ne(u8x16::splat(0xB0));
    let pi = next.simd_le(u8x16::splat(0x8E)) & next.simd_ne(u8x16::splat(0x82));
    let greek = (lanes.simd_eq(u8x16::splat(0xCE)) & alpha)
        | (lanes.simd_eq(u8x16::splat(0xCF)) & pi);
    // а to п, and р to џ
    let cyrillic = (lanes.simd_eq(u8x16::splat(0xD0)) & next.simd_ge(u8x16::splat(0xB0)))
        | (lanes.simd_eq(u8x16::splat(0xD1)) & next.simd_le(u8x16::splat(0x9F)));
    // U+05C0 to U+0FFF, with Hebrew, Arabic and the scripts of India: no character there has a folding.
    let without_case = lanes.simd_ge(u8x16::splat(0xD7)) & lanes.simd_le(u8x16::splat(0xE0));
    let kept = latin | greek | cyrillic | without_case;
    (capital | (first & !kept)).to_bitmask()
}

/// Returns the place of the lowest bit that is set, or 16 if none is.
#[inline(always)]
fn first_set(mask: u64) -> usize
    ensures { result ≡ (if mask == 0 then 16 else trailing_zeros w64 mask) }
{
    if mask == 0 {
        LANES
    } else {
        mask.trailing_zeros() as usize
    }
}

/// Returns the bits of the lanes that aren't ASCII.
#[inline(always)]
fn beyond_in(lanes: u8x16) -> u64
    ensures { result ≡ mask_l (map is_beyond_ascii lanes) }
{
    lanes.simd_ge(u8x16::splat(0x80)).to_bitmask()
}

/// Returns whether no bit is set up to this place, nor the bit there.
#[inline(always)]
fn is_clear_to(mask: u64, place: u32) -> bool
    ensures { result ≡ (mask == 0 || nat_lt place (trailing_zeros w64 mask)) }
{
    mask == 0 || mask.trailing_zeros() > place
}

/// Returns the lengths of the gap at the front and of the word after it, if the first sixteen bytes have both, and also
/// the byte that ends the word, and these are ASCII. None is never wrong, only slower.
#[inline(always)]
pub(crate) fn gap_and_word(bytes: &[u8]) -> Option<(usize, usize)>
    ensures { IfSome result (λ found. HasGapAndWord bytes.now found.0 found.1) }
{
    if bytes.len() < LANES {
        return None;
    }
    let lanes = u8x16::from_slice(bytes);
    let others = others_in(lanes);
    // The bits of the gap are set, so a carry goes through them to the first bit of the word.
    let gap = (others + 1).trailing_zeros();
    let rest = others >> gap;
    if rest == 0 {
        return None;
    }
    let word = rest.trailing_zeros();
    // Letters beyond ASCII after the word don't matter.
    if !is_clear_to(beyond_in(lanes), gap + word) {
        return None;
    }
    Some((gap as usize, word as usize))
}
