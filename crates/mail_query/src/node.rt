//! The tree of a query. A node keeps its members in a plain `Vec` (decision 91 in docs/DECISIONS.md).
ghost use Rattle.std.specs.Prelude.{◌≡◌, ◌++◌, [], ◌∷◌, IfOk, OnOk};
ghost use Rattle.mail_query.specs.Query.{query_of, queries_of, all_of, either_of};
ghost use Rattle.mail_query.specs.Query as asked;

use crate::kinds::Kinds;
use crate::query_text::QueryText;
use mail_dates::Range;
use mail_words::Flag;
use std::alloc::{AllocError, Global};

/// A node of a query: a condition that a message satisfies or doesn't.
///
/// A text is folded if it is for words, and as written if it is for the message's own id. The kinds say for which.
#[derive(Drop)]
pub enum Node {
    /// Every message satisfies it.
    Any,
    /// A word in a text of these kinds, or the own id, is this text.
    Word { kinds: Kinds, text: QueryText },
    /// A word in a text of these kinds, or the own id, contains this text.
    Part { kinds: Kinds, text: QueryText },
    /// A word in a text of these kinds, or the own id, begins with this text.
    Prefix { kinds: Kinds, text: QueryText },
    /// The message has a date, and it is in this range.
    Date(Range),
    /// The size in bytes is at least `low` and at most `high`. None sets no upper bound.
    Size { low: u64, high: Option<u64> },
    /// The message has the flag, or doesn't have it if `wanted` is false.
    Flag { flag: Flag, wanted: bool },
    /// This node isn't satisfied.
    Not(Box<Node>),
    /// All of these nodes are satisfied.
    All(Vec<Node>),
    /// At least one of these nodes is satisfied.
    Either(Vec<Node>),
}

/// Appends a node to the members.
pub(crate) fn add(members: &mut Vec<Node>, node: Node) -> Result<(), AllocError>
    ensures { OnOk result
        (queries_of members.new.items ≡ queries_of members.old.items ++ query_of node ∷ []) }
{
    members.push(node)?;
    Ok(())
}

/// Returns the node that is satisfied exactly if this one isn't.
pub(crate) fn negated(alloc: Global, node: Node) -> Result<Node, AllocError>
    ensures { IfOk result (λ other. query_of other ≡ asked.Not (query_of node)) }
{
    let node = Box::new(alloc, node)?;
    Ok(Node::Not(node))
}

/// Returns a node that asks for all of the members. A single member is returned as it is.
pub(crate) fn all_of(mut members: Vec<Node>) -> Node
    ensures { query_of result ≡ all_of (queries_of members.items) }
{
    if members.len() == 1 {
        members.remove(0)
    } else {
        Node::All(members)
    }
}

/// Returns a node that asks for one of the members. A single member is returned as it is.
pub(crate) fn either_of(mut members: Vec<Node>) -> Node
    ensures { query_of result ≡ either_of (queries_of members.items) }
{
    if members.len() == 1 {
        members.remove(0)
    } else {
        Node::Either(members)
    }
}
