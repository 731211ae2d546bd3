//! The posting lists of a file, as its directory divides their section.
ghost use Rattle.std.specs.Prelude.{◌≡◌, ◌↔◌, ◌-◌, ◌*◌, length, take, drop, IsTrue};
ghost use Rattle.mail_index.specs.Places.{entry_size};
ghost use Rattle.mail_index.specs.Lists.{AreLists};

use crate::fields::u64_at;
use crate::places::{ENTRY, POSTING_PLACE_AT};
use crate::view::directory_walk::end_before;
use crate::view::postings::are_postings;

/// The bytes from one offset to another, or as many of them as there are.
pub(crate) fn part(bytes: &[u8], from: u64, to: u64) -> &[u8]
    ensures { result.now ≡ take (to - from) (drop from bytes.now) }
{
    let from_here = from.min(bytes.len() as u64) as usize;
    let rest = bytes.split_at(from_here).1;
    let size = to.saturating_sub(from).min(rest.len() as u64) as usize;
    rest.split_at(size).0
}

/// Whether the postings of each of the directory's `count` entries are one or more numbers below `messages`.
pub(crate) fn are_lists(directory: &[u8], count: u32, postings: &[u8], messages: u32) -> bool
    requires { length directory.now ≡ entry_size * count }
    ensures { IsTrue result ↔ AreLists messages postings.now count directory.now }
{
    let mut rest = directory;
    for number in 0..count {
        let place = u64_at(rest, POSTING_PLACE_AT);
        let after = rest.split_at(ENTRY).1;
        let end = end_before(after, postings.len() as u64);
        if !are_postings(part(postings, place, end), messages) {
            return false;
        }
        rest = after;
    }
    true
}
