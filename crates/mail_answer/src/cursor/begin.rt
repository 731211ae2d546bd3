//! Makes the walk of a query, before its first step.
ghost use Rattle.std.specs.Prelude.{◌≡◌, ◌≤◌, length, IfOk};
ghost use Rattle.mail_index.specs.Steps.{add_steps};
ghost use Rattle.mail_index.specs.Tables.{IsWellFormed};
ghost use Rattle.mail_query.specs.Query.{query_of, queries_of, members_of};
ghost use Rattle.mail_answer.specs.Cursors.{most_left, most_left_of_all, look_ups, look_ups_of_all, look_up_steps, look_up_steps_of_all, LooksUp};
ghost use Rattle.mail_answer.specs.CursorAhead.{steps_left_in};
ghost use Rattle.mail_answer.specs.Inside.CursorBegins.{AreTruthsOf, TellAll};

use crate::cursor::scanned::Asked;
use crate::cursor::texts::{Fit, with_text};
use crate::cursor::walk::Walk;
use mail_index::{CountedIndex, Steps};
use mail_query::Node;
use std::alloc::{AllocError, Global};

/// Makes the walk through the messages that satisfy the node. Takes all the memory that the walk needs.
#[cycle(begin)]
pub(crate) fn walk_of<'a>(
    alloc: Global,
    index: &CountedIndex<'a>,
    node: &Node,
    steps: &mut Steps,
) -> Result<Walk<'a>, AllocError>
    requires { IsWellFormed index.now }
    ensures truths { IfOk result (λ w. AreTruthsOf index.now (query_of node.now) w.truths) }
    ensures left { IfOk result (λ w. w.left ≤ most_left index.now (query_of node.now)) }
    ensures exact { IfOk result (λ _. steps.new
        ≡ add_steps steps.old (look_up_steps index.now.keys (query_of node.now))) }
    ensures steps { LooksUp (length index.now.keys) (look_ups (query_of node.now))
        steps.old steps.new }
{
    let count = index.message_count();
    match node {
        Node::Any => Walk::scanned(alloc, index.records(), Asked::Any),
        Node::Word { kinds, text } => with_text(alloc, index, *kinds, Fit::Whole, text, steps),
        Node::Part { kinds, text } => with_text(alloc, index, *kinds, Fit::Within, text, steps),
        Node::Prefix { kinds, text } => with_text(alloc, index, *kinds, Fit::Front, text, steps),
        Node::Date(range) => Walk::scanned(alloc, index.records(), Asked::Date(*range)),
        Node::Size { low, high } => {
            let asked = Asked::Size {
                low: *low,
                high: *high,
            };
            Walk::scanned(alloc, index.records(), asked)
        }
        Node::Flag { flag, wanted } => {
            let asked = Asked::Flag {
                flag: *flag,
                wanted: *wanted,
            };
            Walk::scanned(alloc, index.records(), asked)
        }
        Node::Not(inner) => {
            let inner = walk_of(alloc, index, inner, steps)?;
            Walk::others(alloc, count, inner)
        }
        Node::All(members) => {
            let walks = walks_of(alloc, index, members.as_slice(), steps)?;
            if walks.is_empty() {
                // If there are no members, every message satisfies each of them. A union of no walks has no message, so
                // the messages that aren't in it are all messages.
                return Walk::others(alloc, count, Walk::united(walks));
            }
            Ok(Walk::common(walks))
        }
        Node::Either(members) => {
            let walks = walks_of(alloc, index, members.as_slice(), steps)?;
            Walk::united_in_groups(alloc, walks)
        }
    }
}

/// Makes the walk of each node.
#[cycle(begin)]
fn walks_of<'a>(
    alloc: Global,
    index: &CountedIndex<'a>,
    nodes: &[Node],
    steps: &mut Steps,
) -> Result<Vec<Walk<'a>>, AllocError>
    requires { IsWellFormed index.now }
    ensures truths { IfOk result (λ v. TellAll index.now (queries_of nodes.now) v.items) }
    ensures left { IfOk result (λ v. steps_left_in v.items
        ≤ most_left_of_all index.now (members_of (queries_of nodes.now))) }
    ensures exact { IfOk result (λ _. steps.new ≡ add_steps steps.old
        (look_up_steps_of_all index.now.keys (members_of (queries_of nodes.now)))) }
    ensures steps { LooksUp (length index.now.keys)
        (look_ups_of_all (members_of (queries_of nodes.now))) steps.old steps.new }
{
    let mut walks = Vec::new(alloc);
    for node in nodes {
        let walk = walk_of(alloc, index, node, steps)?;
        walks.push(walk)?;
    }
    Ok(walks)
}
