//! Reads the sizes that a pattern `z:` names.
ghost use Rattle.std.specs.Prelude.{◌≡◌, option_map};
ghost use Rattle.mail_query.specs.Query.{query_of};
ghost use Rattle.mail_query.specs.Sizes.{scaled_size, size_of, sizes_of};

use crate::node::Node;
use crate::pieces::cut;
use mail_dates::{are_digits, decimal_value};

/// The greatest size that a query can name, in bytes.
const SIZE_LIMIT: u64 = 9_223_372_036_854_775_807;

/// Reads `low-high`, either of which may be empty. Returns None if the text has no dash, or an end is no size.
#[tactic(auto, unfolding(crate::specs::Sizes::sizes_of))]
pub(crate) fn sizes_of(text: &str) -> Option<Node>
    ensures { option_map query_of result ≡ sizes_of text.now }
{
    let (low, high) = cut(text, '-')?;
    let low = match low.as_bytes() {
        [] => 0,
        digits => size_of(digits)?,
    };
    if high.is_empty() {
        return Some(Node::Size { low, high: None });
    }
    let high = size_of(high.as_bytes())?;
    Some(Node::Size {
        low,
        high: Some(high),
    })
}

/// Reads 1 to 18 digits, and then `k` or `m` in either case, or no letter. Returns None for any other text.
#[tactic(auto, unfolding(crate::specs::Sizes::size_of))]
fn size_of(text: &[u8]) -> Option<u64>
    ensures { result ≡ size_of text.now }
{
    let Some((letter, digits)) = text.split_last() else {
        return scaled(1, text);
    };
    match letter {
        b'k' | b'K' => scaled(1 << 10, digits),
        b'm' | b'M' => scaled(1 << 20, digits),
        _ => scaled(1, text),
    }
}

fn scaled(factor: u64, digits: &[u8]) -> Option<u64>
    ensures { result ≡ scaled_size factor digits.now }
{
    if digits.is_empty() || digits.len() > 18 || !are_digits(digits) {
        return None;
    }
    match decimal_value(digits).checked_mul(factor) {
        Some(size) if size <= SIZE_LIMIT => Some(size),
        _ => None,
    }
}
