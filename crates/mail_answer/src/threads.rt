//! The threads of messages, which are linked by their link ids.
//!
//! Threads are found by union-find over the messages, in one pass over the link ids, because an index has no map from a
//! message to its ids (decision 73 in docs/DECISIONS.md).
ghost use Rattle.std.specs.Prelude.{◌≡◌, ◌<◌, ◌^◌, ℕ, nat_eq, length, filter, slice_index, IfOk};
ghost use Rattle.std.specs.List.{All, AllByRecursion, list_any, range_with_len};
ghost use Rattle.mail_index.specs.Steps.{add_steps};
ghost use Rattle.mail_index.specs.Tables.{RisesFrom};
ghost use Rattle.mail_answer.specs.CursorAhead.{Spends};
ghost use Rattle.mail_answer.specs.Cursors.{link_numbers};
ghost use Rattle.mail_answer.specs.Marks.{truth_at, each_number};
ghost use Rattle.mail_answer.specs.Threads.{AreThreads};
ghost use Rattle.mail_answer.specs.Inside.Forests.{AreThreadRoots};

mod forest;

use crate::threads::forest::{flatten, unite_by_keys};
use mail_index::{CountedIndex, IndexView, Kind, Steps};
use std::alloc::{AllocError, Global};

/// Returns for each message the root of its thread: a message of the thread, the same for all of them.
fn thread_roots(
    alloc: Global,
    index: &CountedIndex<'_>,
    steps: &mut Steps,
) -> Result<Vec<u32>, AllocError>
    ensures roots { IfOk result (λ v. AreThreadRoots index.now v.items) }
    ensures few { IfOk result (λ v. length v.items < 2 ^ 32) }
    ensures steps { IfOk result (λ _. steps.new ≡ add_steps steps.old (link_numbers index.now)) }
{
    // At first each message is the root of a tree of its own.
    let count = index.message_count();
    let mut roots = Vec::with_capacity(alloc, count as usize)?;
    for number in 0..count {
        roots.push(number)?;
    }
    let keys = index.keys(Kind::LinkId);
    unite_by_keys(roots.as_mut_slice(), keys, steps);
    flatten(roots.as_mut_slice());
    Ok(roots)
}

/// Returns the numbers of the messages whose roots are marked, rising.
fn with_marked_root(alloc: Global, roots: &[u32], marks: &[bool]) -> Result<Vec<u32>, AllocError>
    requires few { length roots.now < 2 ^ 32 }
    requires marked { (n : ℕ) → n < length roots.now → slice_index roots.now n < length marks.now }
    ensures { IfOk result (λ v. v.items ≡ filter (λ n. truth_at marks.now (slice_index roots.now n))
        (range_with_len 0 (length roots.now))) }
{
    let mut numbers = Vec::new(alloc);
    for number in 0..roots.len() {
        if marks[roots[number] as usize] {
            numbers.push(number as u32)?;
        }
    }
    Ok(numbers)
}

/// Returns the numbers of the messages that have the same root as one of these, rising.
fn with_same_root(alloc: Global, numbers: &[u32], roots: &[u32]) -> Result<Vec<u32>, AllocError>
    requires few { length roots.now < 2 ^ 32 }
    requires within { All (λ n. n < length roots.now) numbers.now }
    requires roots { (n : ℕ) → n < length roots.now → slice_index roots.now n < length roots.now }
    ensures { IfOk result (λ v. v.items ≡ filter (λ n. truth_at (each_number (length roots.now)
        (λ r. list_any (λ m. nat_eq r (slice_index roots.now m)) numbers.now))
        (slice_index roots.now n)) (range_with_len 0 (length roots.now))) }
{
    let mut marks = vec![in alloc; false; roots.len()]?;
    for number in numbers {
        marks[roots[*number as usize] as usize] = true;
    }
    with_marked_root(alloc, roots, marks.as_slice())
}

/// Returns the numbers of all messages in the threads of these ones, as `with_threads` does, with its steps on this
/// count.
pub(crate) fn threads_of(
    alloc: Global,
    index: &CountedIndex<'_>,
    numbers: &[u32],
    steps: &mut Steps,
) -> Result<Vec<u32>, AllocError>
    requires rises { RisesFrom 0 numbers.now }
    requires within { AllByRecursion (λ n. n < length index.now.messages) numbers.now }
    ensures threads { IfOk result (λ v. AreThreads index.now numbers.now v.items) }
    ensures steps { IfOk result (λ _. Spends (link_numbers index.now) 0 steps.old steps.new) }
{
    if numbers.is_empty() || index.keys(Kind::LinkId).next().is_none() {
        return Vec::from_slice(alloc, numbers);
    }
    let roots = thread_roots(alloc, index, steps)?;
    with_same_root(alloc, numbers, roots.as_slice())
}

/// Returns the numbers of all messages in the threads of these ones, rising, each once.
///
/// Two messages are linked if they share a link id, even one that no message has as its own. The thread of a message is
/// the message itself and all messages at the end of a path of links from it.
///
/// Without link ids, or without numbers, the result is a copy of the numbers. Otherwise each link id is read once, with
/// all its numbers. That takes five bytes for each message of the index, and the memory for the result.
///
/// # Errors
///
/// `AllocError` if memory runs out.
pub fn with_threads(
    alloc: Global,
    index: &IndexView<'_>,
    numbers: &[u32],
) -> Result<Vec<u32>, AllocError>
    requires rises { RisesFrom 0 numbers.now }
    requires within { AllByRecursion (λ n. n < length index.now.messages) numbers.now }
    ensures { IfOk result (λ v. AreThreads index.now numbers.now v.items) }
{
    let mut steps = Steps::new(alloc, index);
    threads_of(alloc, &CountedIndex::of(index), numbers, &mut steps)
}
