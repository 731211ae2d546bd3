//! The tree of walks.
ghost use Rattle.std.specs.Prelude.{◌≡◌, ◌<◌, ℕ, IfOk, length};
ghost use Rattle.mail_answer.specs.Marks.{truth_at, each_number};
ghost use Rattle.mail_answer.specs.CursorAhead.{CountsPostings, Drops, IsFirst, Reaches, Spends, common, union_of, others, steps_left_in, postings_in, levels};
ghost use Rattle.mail_answer.specs.Inside.CursorMarks.{AreFew};
ghost use Rattle.mail_answer.specs.Inside.CursorScans.{satisfies};
ghost use Rattle.mail_answer.specs.Inside.CursorTexts.{some_has};

use crate::cursor::head::{Head, is_none_below, lesser_of};
use crate::cursor::listed::Listed;
use crate::cursor::marked::Marked;
use crate::cursor::scanned::{Asked, Scanned};
use mail_index::{Records, Steps};
use std::alloc::{AllocError, Global};
use std::marker::Model;

/// The most members that a union may have.
const MOST: usize = 4;

/// A walk through the messages that satisfy a query. It remembers its first number, so it goes on in its members only
/// if it must.
#[cycle(walk)]
#[derive(Drop)]
pub(crate) struct Walk<'a> {
    node: Node<'a>,
    head: Head,
}

/// What a walk consists of.
#[cycle(walk)]
#[derive(Drop)]
enum Node<'a> {
    /// A posting list.
    Listed(Listed<'a>),
    /// Many posting lists. They are boxed, because most walks are single lists.
    Marked(Box<Marked<'a>>),
    /// The records that meet a condition. It is boxed, because it is large and most walks are lists.
    Scanned(Box<Scanned<'a>>),
    /// All messages that aren't in a walk.
    Others(Others<'a>),
    /// The messages that are in each of these walks.
    Common(Vec<Walk<'a>>),
    /// The messages that are in at least one of these walks.
    United(Vec<Walk<'a>>),
}

/// The messages from `low` on, of `count` in all, that aren't in the inner walk.
#[cycle(walk)]
#[derive(Drop)]
struct Others<'a> {
    low: u32,
    count: u32,
    inner: Box<Walk<'a>>,
}

impl<'a> Model for Walk<'a> {
    ghost use Rattle.mail_answer.specs.CursorAhead.{WalkAhead};

    ghost Value = { WalkAhead };

    ghost use Rattle.mail_answer.specs.Inside.CursorWalks.{ahead_of_node};

    ghost view = { λ s. ahead_of_node s.node };

    ghost use Rattle.mail_answer.specs.Inside.CursorMarks.{IsHead};

    ghost invariant = { λ s. IsHead (ahead_of_node s.node).truths s.head };

    ghost size = { λ w. w.below };

    ghost use Rattle.mail_answer.specs.Inside.CursorFalls.{children_below};

    ghost size_decreases = { λ s h. children_below s.node };
}

impl<'a> Walk<'a> {
    ghost use Rattle.mail_answer.specs.Inside.CursorWalks.{ahead_of_node};

    /// A walk along this node, before its first step.
    fn of(node: Node<'a>) -> Self
        ensures { result ≡ ahead_of_node node.entry }
    {
        Walk {
            node,
            head: Head::Unasked,
        }
    }

    /// The walk through the messages that are in at least one of these posting lists: by marks, if there are more than
    /// four.
    #[tactic(auto, using(crate::proofs::CursorLaws::MarkedLists::if_marked))]
    pub(crate) fn along_some(alloc: Global, mut lists: Vec<Listed<'a>>) -> Result<Self, AllocError>
        requires { AreFew lists.items }
        ensures truths { IfOk result (λ w. (m : ℕ) → truth_at w.truths m
            ≡ some_has m lists.entry.items) }
        ensures left { IfOk result (λ w. w.left ≡ steps_left_in lists.entry.items) }
    {
        if lists.len() > MOST {
            let marked = Box::new(alloc, Marked::new(lists))?;
            return Ok(Walk::of(Node::Marked(marked)));
        }
        let mut walks = Vec::new(alloc);
        while let Some(list) = lists.pop() {
            walks.push(Walk::of(Node::Listed(list)))?;
        }
        Ok(Walk::united(walks))
    }

    /// The walk along the records that meet the condition.
    pub(crate) fn scanned(
        alloc: Global,
        records: Records<'a>,
        asked: Asked,
    ) -> Result<Self, AllocError>
        ensures truths { IfOk result (λ w. w.truths
            ≡ each_number (length records.entry) (satisfies records.entry asked)) }
        ensures left { IfOk result (λ w. w.left ≡ length records.entry) }
    {
        let scan = Box::new(alloc, Scanned::new(records, asked))?;
        Ok(Walk::of(Node::Scanned(scan)))
    }

    /// The walk through the messages, of `count` in all, that aren't in another walk.
    pub(crate) fn others(alloc: Global, count: u32, inner: Walk<'a>) -> Result<Self, AllocError>
        ensures truths { IfOk result (λ w. w.truths ≡ others count 0 inner.entry.truths) }
        ensures left { IfOk result (λ w. w.left ≡ inner.entry.left) }
    {
        let inner = Box::new(alloc, inner)?;
        Ok(Walk::of(Node::Others(Others {
            low: 0,
            count,
            inner,
        })))
    }

    /// The walk through the messages that are in each of one or more walks.
    pub(crate) fn common(members: Vec<Walk<'a>>) -> Self
        ensures truths { result.truths ≡ common members.entry.items }
        ensures left { result.left ≡ steps_left_in members.entry.items }
    {
        Walk::of(Node::Common(members))
    }

    /// The walk through the messages that are in at least one of these walks.
    pub(crate) fn united(members: Vec<Walk<'a>>) -> Self
        ensures truths { result.truths ≡ union_of members.entry.items }
        ensures left { result.left ≡ steps_left_in members.entry.items }
    {
        Walk::of(Node::United(members))
    }

    /// The walk through the messages that are in at least one of any number of walks: a tree, so that a step goes on in
    /// few of them.
    pub(crate) fn united_in_groups(
        alloc: Global,
        members: Vec<Walk<'a>>,
    ) -> Result<Self, AllocError>
        ensures truths { IfOk result (λ w. (m : ℕ) → truth_at w.truths m
            ≡ some_has m members.entry.items) }
        ensures left { IfOk result (λ w. w.left ≡ steps_left_in members.entry.items) }
    {
        let mut walks = members;
        while walks.len() > MOST {
            // Groups of at most four, so that fewer are left.
            let mut groups = Vec::new(alloc);
            while !walks.is_empty() {
                let group = walks.split_off(walks.len().saturating_sub(MOST))?;
                groups.push(Walk::united(group))?;
            }
            walks = groups;
        }
        Ok(Walk::united(walks))
    }

    /// Returns the least number still to come that is at least n, and drops all before it.
    #[cycle(least)]
    pub(crate) fn least_from(&mut self, n: u32, steps: &mut Steps) -> Option<u32>
        ensures rest { Drops n self.old.truths self.new.truths }
        ensures number { IsFirst self.new.truths result }
        ensures steps { Spends self.old.left self.new.left steps.old steps.new }
        ensures postings { CountsPostings self.old.postings self.new.postings steps.old steps.new }
        ensures below { self.new.below ≡ self.old.below }
    {
        if let Head::Asked(first) = self.head
            && is_none_below(first, n)
        {
            return first;
        }
        let first = self.node.least_from(n, steps);
        self.head = Head::Asked(first);
        first
    }
}

impl<'a> Node<'a> {
    ghost use Rattle.mail_answer.specs.Inside.CursorWalks.{ahead_of_node};

    /// Returns the least number still to come that is at least n, and drops all before it.
    #[cycle(least)]
    fn least_from(&mut self, n: u32, steps: &mut Steps) -> Option<u32>
        ensures rest { Drops n (ahead_of_node self.old).truths (ahead_of_node self.new).truths }
        ensures number { IsFirst (ahead_of_node self.new).truths result }
        ensures steps { Spends (ahead_of_node self.old).left
            (ahead_of_node self.new).left steps.old steps.new }
        ensures postings { CountsPostings (ahead_of_node self.old).postings
            (ahead_of_node self.new).postings
            steps.old steps.new }
        ensures below { (ahead_of_node self.new).below ≡ (ahead_of_node self.old).below }
    {
        match self {
            Node::Listed(list) => list.least_from(n, steps),
            Node::Marked(marked) => marked.least_from(n, steps),
            Node::Scanned(scan) => scan.least_from(n, steps),
            Node::Others(others) => least_other(others, n, steps),
            Node::Common(members) => least_common(members.as_mut_slice(), n, steps),
            Node::United(members) => least_united(members.as_mut_slice(), n, steps),
        }
    }
}

/// Returns the least number from n on that isn't in the inner walk.
#[cycle(least)]
fn least_other(walk: &mut Others<'_>, n: u32, steps: &mut Steps) -> Option<u32>
    ensures rest { Drops n (others walk.old.count walk.old.low walk.old.inner.value.truths)
        (others walk.new.count walk.new.low walk.new.inner.value.truths) }
    ensures number { IsFirst (others walk.new.count walk.new.low walk.new.inner.value.truths)
        result }
    ensures steps { Spends walk.old.inner.value.left walk.new.inner.value.left steps.old steps.new }
    ensures postings { CountsPostings walk.old.inner.value.postings walk.new.inner.value.postings
        steps.old steps.new }
    ensures below { walk.new.inner.value.below ≡ walk.old.inner.value.below }
{
    let count = walk.count;
    let mut number = n.max(walk.low);
    while number < count {
        if walk.inner.least_from(number, steps) != Some(number) {
            walk.low = number;
            return Some(number);
        }
        number += 1;
    }
    walk.low = number;
    None
}

/// Returns the least number from n on that is in each member. Each member in turn goes on to the number that the one
/// before it reached, until a round moves none.
#[cycle(least)]
fn least_common(members: &mut [Walk<'_>], n: u32, steps: &mut Steps) -> Option<u32>
    ensures rest { Drops n (common members.old) (common members.new) }
    ensures number { IsFirst (common members.new) result }
    ensures steps { Spends (steps_left_in members.old)
        (steps_left_in members.new) steps.old steps.new }
    ensures postings { CountsPostings (postings_in members.old) (postings_in members.new)
        steps.old steps.new }
    ensures below { levels members.new ≡ levels members.old }
{
    if members.is_empty() {
        return None;
    }
    let mut number = n;
    loop {
        let reached = reach_common(members, number, steps)?;
        if reached == number {
            return Some(number);
        }
        number = reached;
    }
}

/// Makes one round: returns the number that the last member reached, which is n only if each member has n.
#[cycle(least)]
fn reach_common(members: &mut [Walk<'_>], n: u32, steps: &mut Steps) -> Option<u32>
    requires { 0 < length members.old }
    ensures rest { Drops n (common members.old) (common members.new) }
    ensures number { Reaches n (common members.new) result }
    ensures steps { Spends (steps_left_in members.old)
        (steps_left_in members.new) steps.old steps.new }
    ensures postings { CountsPostings (postings_in members.old) (postings_in members.new)
        steps.old steps.new }
    ensures below { levels members.new ≡ levels members.old }
{
    let mut number = n;
    for member in members.iter_mut() {
        number = member.least_from(number, steps)?;
    }
    Some(number)
}

/// Returns the least number from n on that is in at least one member.
#[cycle(least)]
fn least_united(members: &mut [Walk<'_>], n: u32, steps: &mut Steps) -> Option<u32>
    ensures rest { Drops n (union_of members.old) (union_of members.new) }
    ensures number { IsFirst (union_of members.new) result }
    ensures steps { Spends (steps_left_in members.old)
        (steps_left_in members.new) steps.old steps.new }
    ensures postings { CountsPostings (postings_in members.old) (postings_in members.new)
        steps.old steps.new }
    ensures below { levels members.new ≡ levels members.old }
{
    let mut least = None;
    for member in members.iter_mut() {
        let number = member.least_from(n, steps);
        least = lesser_of(least, number);
    }
    least
}
