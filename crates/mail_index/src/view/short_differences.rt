//! Passes over differences of one or two bytes, sixteen bytes at a time (decision 130 in docs/DECISIONS.md).
ghost use Rattle.std.specs.Prelude.{◌≡◌, ◌↔◌, ◌^◌, ◌<◌, ◌≤◌, ◌∷◌, length, take, IfSome};
ghost use Rattle.mail_index.specs.PostingReads.{ArePosted};
ghost use Rattle.mail_index.specs.Inside.ShortDifferences.{AreShort, sum_in_load, HasPassed};

use std::simd::prelude::*;

/// The number of bytes that one load takes.
const LANES: usize = 16;

/// Passes over the differences of one or two bytes that postings begin with, and adds them up. Returns the bytes after
/// them and the sum, which is one past the last number. What is left is fewer than sixteen bytes, or has within the
/// next sixteen a fault, a longer difference or a number that isn't below `count`. To leave more is never wrong, only
/// slower.
pub(crate) fn after_short_differences(bytes: &[u8], count: u32) -> (&[u8], u64)
    ensures within { result.1 ≤ count }
    ensures same { ArePosted count 0 bytes.now ↔ ArePosted count result.1 result.0.now }
{
    let mut rest = bytes;
    let mut low = 0;
    while let Some((after, sum)) = after_load(rest) {
        if low + sum > u64::from(count) {
            return (rest, low);
        }
        rest = after;
        low += sum;
    }
    (rest, low)
}

/// Splits off the differences that end within the first sixteen bytes, if each has one or two bytes. Returns the bytes
/// after them and their sum. None is never wrong, only slower.
#[inline(always)]
fn after_load(bytes: &[u8]) -> Option<(&[u8], u64)>
    ensures small { IfSome result (λ p. p.1 < 2 ^ 20) }
    ensures shorter { IfSome result (λ p. length p.0.now < length bytes.now) }
    ensures passed { IfSome result (λ p. HasPassed bytes.now p.1 p.0.now) }
{
    if bytes.len() < LANES {
        return None;
    }
    let sum = sum_of(u8x16::from_slice(bytes))?;
    // A difference that the last byte begins is left for the next load. There is no branch here, since nothing would
    // predict it.
    let last = bytes[LANES - 1];
    let after = bytes.split_at(LANES - usize::from(last / 128)).1;
    Some((after, sum - u64::from(last.saturating_sub(128))))
}

/// Adds up the differences in sixteen bytes, of which the first begins one, with the low bits of one that goes on after
/// them. None if a byte is 0, or if a difference has more than two bytes.
#[inline(always)]
fn sum_of(lanes: u8x16) -> Option<u64>
    ensures small { IfSome result (λ sum. sum < 2 ^ 20) }
    ensures sum { IfSome result (λ sum. AreShort lanes × (sum ≡ sum_in_load lanes)) }
{
    let before = bytes_before(lanes);
    let goes_on = before.simd_ge(u8x16::splat(128));
    let has_third = goes_on & lanes.simd_ge(u8x16::splat(128));
    if (lanes.simd_eq(u8x16::splat(0)) | has_third).to_bitmask() != 0 {
        return None;
    }
    let low = lanes & u8x16::splat(127);
    let second = goes_on.select(low, u8x16::splat(0));
    let ones = u8x16::splat(1);
    let sum = low.dot4(ones).strict_reduce_sum();
    let seconds = second.dot4(ones).strict_reduce_sum();
    // The low bits of a second byte weigh 128, and are in the first sum once.
    Some(u64::from(sum) + 127 * u64::from(seconds))
}

/// Returns the byte before each lane, and 0 before the first.
#[inline(always)]
fn bytes_before(lanes: u8x16) -> u8x16
    ensures { result ≡ take (length lanes) (0 ∷ lanes) }
{
    u8x16::splat(0).shuffle::<16>(
        lanes,
        [
            0, 16, 17, 18, 19, 20, 21, 22, 23, 24, 25, 26, 27, 28, 29, 30,
        ],
    )
}
