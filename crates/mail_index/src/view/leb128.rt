//! Unsigned LEB128 in its shortest form.
ghost use Rattle.std.specs.Prelude.{◌≡◌, ◌≤◌, ◌<◌, ℕ, List, ◌++◌, Some, IfSome};
ghost use Rattle.mail_index.specs.Postings.{leb128};
ghost use Rattle.mail_index.specs.PostingReads.{IsShort, shown_split};

/// Splits off the number that the bytes begin with, in the shortest unsigned LEB128 of at most `most` bytes. Returns it
/// with the bytes after it, or None if the bytes begin with no such number. If `most` is 0, the number is 0 and no byte
/// is read.
pub(crate) fn split_leb128(most: u32, bytes: &[u8]) -> Option<(u64, &[u8])>
    requires { most ≤ 5 }
    ensures small { IfSome result (λ p. p.0 < 34359738368) }
    ensures short { IfSome result (λ p. IsShort most p.0) }
    ensures some { IfSome result (λ p. bytes.now ≡ leb128 most p.0 ++ p.1.now) }
    ensures only { (k : ℕ) (rest : List ℕ) → IsShort most k
        → bytes.now ≡ leb128 most k ++ rest → shown_split result ≡ Some (k, rest) }
{
    if most == 0 {
        return Some((0, bytes));
    }
    let (first, rest) = bytes.split_first()?;
    if *first < 128 {
        return Some((u64::from(*first), rest));
    }
    match split_leb128(most - 1, rest) {
        Some((high, rest)) if high > 0 => Some((u64::from(*first - 128) + 128 * high, rest)),
        _ => None,
    }
}

/// Splits off the difference that these postings begin with: a number of at most five bytes, as `split_leb128` reads
/// it. Most differences have one or two bytes, and these are read here.
#[inline]
pub(crate) fn split_difference(bytes: &[u8]) -> Option<(u64, &[u8])>
    ensures small { IfSome result (λ p. p.0 < 34359738368) }
    ensures short { IfSome result (λ p. IsShort 5 p.0) }
    ensures some { IfSome result (λ p. bytes.now ≡ leb128 5 p.0 ++ p.1.now) }
    ensures only { (k : ℕ) (rest : List ℕ) → IsShort 5 k
        → bytes.now ≡ leb128 5 k ++ rest → shown_split result ≡ Some (k, rest) }
{
    if let Some((first, tail)) = bytes.split_first() {
        if *first < 128 {
            return Some((u64::from(*first), tail));
        }
        if let Some((second, after)) = tail.split_first() {
            if (1..128).contains(second) {
                return Some((u64::from(*first - 128) + 128 * u64::from(*second), after));
            }
        }
    }
    // Taken apart and put together, so that only the result of this branch goes through memory.
    let (long, after) = split_leb128(5, bytes)?;
    Some((long, after))
}
