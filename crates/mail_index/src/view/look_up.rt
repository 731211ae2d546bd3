//! Looks up a key.
ghost use Rattle.std.specs.Prelude.{◌≡◌, ◌<◌, [], length, MatchOption};
ghost use Rattle.mail_index.specs.Steps.{add_steps};
ghost use Rattle.mail_index.specs.LookUps.{numbers_at, comparisons, TakesDigits};
ghost use Rattle.mail_index.specs.KeysRead.{key_at};

use crate::kind::Kind;
use crate::view::directory::compared_keys::ComparedKeys;
use crate::view::postings::Postings;
use crate::view::steps::Steps;
use std::cmp::Ordering;

/// The numbers of the messages that have the key; none if the directory doesn't have it. A binary search.
pub(crate) fn look_up<'a>(
    keys: &ComparedKeys<'a>,
    kind: Kind,
    text: &[u8],
    steps: &mut Steps,
) -> Postings<'a>
    ensures numbers { result ≡ numbers_at kind text.now keys.now.directory }
    ensures exact { steps.new ≡ add_steps steps.old (comparisons kind text.now keys.now.directory) }
    ensures steps { TakesDigits (length keys.now.directory) steps.old steps.new }
{
    let mut low = 0;
    let mut high = keys.len();
    while low < high {
        let middle = low + (high - low) / 2;
        match keys.compare(middle, kind, text, steps) {
            Ordering::Less => low = middle + 1,
            Ordering::Equal => return keys.postings(middle),
            Ordering::Greater => high = middle,
        }
    }
    Postings::none()
}
