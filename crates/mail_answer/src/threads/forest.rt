//! Trees of messages, which are joined until each tree is a thread.
//!
//! A slice has the parent of each message: an earlier message of its thread, or itself for a root. The way to a root is
//! halved each time it is walked, which keeps the joining nearly linear without ranks.
ghost use Rattle.std.specs.Prelude.{◌≡◌, ℕ, ◌<◌, ◌≤◌, length, slice_index, slice_set};
ghost use Rattle.std.specs.List.{AllByRecursion};
ghost use Rattle.mail_index.specs.Steps.{add_steps};
ghost use Rattle.mail_index.specs.Tables.{Table};
ghost use Rattle.mail_answer.specs.Threads.{IsInThread};
ghost use Rattle.mail_answer.specs.Inside.CursorTexts.{any_text, numbers_passing};
ghost use Rattle.mail_answer.specs.Inside.Forests.{LeadsBack, StaysInThreads, AreInOneTree, Shortens, Unites, AreBothAmong, ShareKey};

use mail_index::{Keys, Postings, Steps};

/// Makes a message the child of its parent's parent, and returns that one.
fn lift(parents: &mut [u32], number: usize) -> u32
    requires back { LeadsBack parents.old }
    requires within { number < length parents.old }
    ensures value { result ≡ slice_index parents.old (slice_index parents.old number) }
    ensures after { parents.new ≡ slice_set parents.old number result }
{
    let parent = parents[number] as usize;
    let next = parents[parent];
    parents[number] = next;
    next
}

/// Returns the root of the message's tree. Shortens the way to it: each second message on it is lifted.
fn root_of(parents: &mut [u32], number: u32) -> u32
    requires back { LeadsBack parents.old }
    requires within { number < length parents.old }
    ensures shortened { Shortens parents.old parents.new }
    ensures root { slice_index parents.new result ≡ result }
    ensures before { result ≤ number }
    ensures same { AreInOneTree parents.new number result }
    ensures thread { (t : Table) → StaysInThreads t parents.old → IsInThread t number result }
{
    let mut root = number;
    while parents[root as usize] != root {
        root = lift(parents, root as usize);
    }
    root
}

/// Joins the trees of two messages: the later root becomes a child of the earlier one.
fn unite(parents: &mut [u32], number: u32, other: u32)
    requires back { LeadsBack parents.old }
    requires within { number < length parents.old }
    requires other_within { other < length parents.old }
    ensures { Unites (λ m n. (m ≡ number) × (n ≡ other)) parents.old parents.new }
{
    let first = root_of(parents, number);
    let second = root_of(parents, other);
    if first < second {
        parents[second as usize] = first;
    } else {
        parents[first as usize] = second;
    }
}

/// Joins the trees of these messages.
fn unite_all(parents: &mut [u32], mut numbers: Postings<'_>, steps: &mut Steps)
    requires back { LeadsBack parents.old }
    requires within { AllByRecursion (λ n. n < length parents.old) numbers }
    ensures unites { Unites (AreBothAmong numbers.entry) parents.old parents.new }
    ensures steps { steps.new ≡ add_steps steps.old (length numbers.entry) }
{
    if let Some(first) = numbers.next(steps) {
        while let Some(number) = numbers.next(steps) {
            unite(parents, first, number);
        }
    }
}

/// Joins the trees of messages that share one of these keys.
pub(crate) fn unite_by_keys(parents: &mut [u32], mut keys: Keys<'_>, steps: &mut Steps)
    requires back { LeadsBack parents.old }
    requires within { AllByRecursion (λ k. AllByRecursion (λ n. n < length parents.old) k.1) keys }
    ensures unites { Unites (ShareKey keys.entry) parents.old parents.new }
    ensures steps { steps.new ≡ add_steps steps.old (numbers_passing any_text keys.entry) }
{
    while let Some(key) = keys.next() {
        unite_all(parents, key.postings, steps);
    }
}

/// Makes each message a child of its root. It goes from the first message on, so the parent of each is a child of the
/// root already.
pub(crate) fn flatten(parents: &mut [u32])
    requires { LeadsBack parents.old }
    ensures shortened { Shortens parents.old parents.new }
    ensures flat { (n : ℕ) → n < length parents.old
        → slice_index parents.new (slice_index parents.new n) ≡ slice_index parents.new n }
{
    for number in 0..parents.len() {
        lift(parents, number);
    }
}
