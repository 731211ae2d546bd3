//! The walk through the messages that have certain texts.
ghost use Rattle.std.specs.Prelude.{◌≡◌, ◌≤◌, ◌<◌, ◌*◌, ℕ, length, IfOk};
ghost use Rattle.std.specs.List.{list_any};
ghost use Rattle.mail_index.specs.Steps.{add_steps};
ghost use Rattle.mail_index.specs.Tables.{IsWellFormed};
ghost use Rattle.mail_query.specs.Truth.{contains_text, some_word};
ghost use Rattle.mail_answer.specs.TableFacts.{texts_with, is_number_among, facts_at};
ghost use Rattle.mail_answer.specs.Marks.{fits, some_key, truth_at};
ghost use Rattle.mail_answer.specs.Cursors.{numbers_named, kinds_in, is_in, compared_in_all, LooksUp};
ghost use Rattle.mail_answer.specs.Inside.CursorLists.{AreNumbers};
ghost use Rattle.mail_answer.specs.Inside.CursorTexts.{any_text, AddsMatches, HaveNumbers, numbers_passing, numbers_fitting, looked_up_by, compared_by};

use crate::cursor::listed::Listed;
use crate::cursor::walk::Walk;
use mail_index::{CountedIndex, Keys, Kind, Postings, Steps};
use mail_query::{Kinds, QueryText};
use mail_words::TextKind;
use memchr::memmem::Finder;
use std::alloc::{AllocError, Global};

/// How a word or an id must contain the text of a query.
#[derive(Clone, Copy)]
pub(crate) enum Fit {
    /// It is the text.
    Whole,
    /// It has the text somewhere.
    Within,
    /// It begins with the text.
    Front,
}

/// The kinds that a query may name.
const KINDS: [Kind; 8] = [
    Kind::Text(TextKind::To),
    Kind::Text(TextKind::Cc),
    Kind::Text(TextKind::Bcc),
    Kind::Text(TextKind::From),
    Kind::Text(TextKind::Subject),
    Kind::Text(TextKind::Body),
    Kind::Text(TextKind::Name),
    Kind::OwnId,
];

/// Whether the kind is in the set.
fn is_in(kinds: Kinds, kind: Kind) -> bool
    ensures { result ≡ is_in kinds kind }
{
    match kind {
        Kind::Text(text_kind) => kinds.has(text_kind),
        Kind::OwnId => kinds.own_id,
        Kind::LinkId => false,
    }
}

/// Adds a posting list.
fn push_list<'a>(
    members: &mut Vec<Listed<'a>>,
    count: u32,
    postings: Postings<'a>,
) -> Result<(), AllocError>
    requires { AreNumbers count postings }
    ensures { IfOk result (λ _. AddsMatches (λ n. is_number_among n postings.entry)
        (length postings.entry)
        members.old.items members.new.items) }
{
    members.push(Listed::new(count, postings))?;
    Ok(())
}

/// Adds the lists of all these keys.
fn push_all<'a>(
    members: &mut Vec<Listed<'a>>,
    count: u32,
    mut keys: Keys<'a>,
) -> Result<(), AllocError>
    requires { HaveNumbers count keys }
    ensures { IfOk result (λ _. AddsMatches (λ n. some_key any_text n keys.entry)
        (numbers_passing any_text keys.entry) members.old.items members.new.items) }
{
    while let Some(key) = keys.next() {
        push_list(members, count, key.postings)?;
    }
    Ok(())
}

/// Adds the lists of the keys that have the text somewhere.
#[tactic(auto, using(crate::proofs::CursorLaws::Containing::found))]
fn push_containing<'a>(
    members: &mut Vec<Listed<'a>>,
    count: u32,
    mut keys: Keys<'a>,
    text: &[u8],
) -> Result<(), AllocError>
    requires { HaveNumbers count keys }
    ensures { IfOk result (λ _. AddsMatches (λ n. some_key (contains_text text.now) n keys.entry)
        (numbers_passing (contains_text text.now) keys.entry) members.old.items members.new.items) }
{
    let finder = Finder::new(text);
    while let Some(key) = keys.next() {
        if finder.find(key.text).is_some() {
            push_list(members, count, key.postings)?;
        }
    }
    Ok(())
}

/// Adds the lists of the keys of this kind that fit the text.
fn push_kind<'a>(
    members: &mut Vec<Listed<'a>>,
    index: &CountedIndex<'a>,
    kind: Kind,
    fit: Fit,
    text: &[u8],
    steps: &mut Steps,
) -> Result<(), AllocError>
    requires { IsWellFormed index.now }
    ensures joins { IfOk result (λ _. AddsMatches (λ n. list_any (fits fit text.now)
        (texts_with kind n index.now.keys)) (numbers_fitting (fits fit text.now)
        index.now.keys kind) members.old.items members.new.items) }
    ensures exact { steps.new ≡ add_steps steps.old (compared_by fit text.now index.now.keys kind) }
    ensures steps { LooksUp (length index.now.keys) (looked_up_by fit) steps.old steps.new }
{
    let count = index.message_count();
    match fit {
        Fit::Whole => push_list(members, count, index.look_up(kind, text, steps)),
        Fit::Within => push_containing(members, count, index.keys(kind), text),
        Fit::Front => push_all(members, count, index.keys_beginning(kind, text)),
    }
}

/// The walk through the messages that have a word of a kind of the set, or the own id if it is in the set, that fits
/// the text.
pub(crate) fn with_text<'a>(
    alloc: Global,
    index: &CountedIndex<'a>,
    kinds: Kinds,
    fit: Fit,
    text: &QueryText,
    steps: &mut Steps,
) -> Result<Walk<'a>, AllocError>
    requires { IsWellFormed index.now }
    ensures truths { IfOk result (λ w. (m : ℕ) → truth_at w.truths m
        ≡ some_word (fits fit text.now) kinds (facts_at index.now m)) }
    ensures left { IfOk result (λ w. w.left ≤ numbers_named (fits fit text.now)
        index.now.keys (kinds_in kinds)) }
    ensures exact { IfOk result (λ _. steps.new ≡ add_steps steps.old
        (compared_in_all (compared_by fit text.now index.now.keys) (kinds_in kinds))) }
    ensures steps { LooksUp (length index.now.keys) (length (kinds_in kinds) * looked_up_by fit)
        steps.old steps.new }
{
    let mut members = Vec::new(alloc);
    for kind in &KINDS {
        if is_in(kinds, *kind) {
            push_kind(&mut members, index, *kind, fit, text.as_bytes(), steps)?;
        }
    }
    Walk::along_some(alloc, members)
}
