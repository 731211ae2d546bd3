//! A whole query, as its readers return it.
ghost use Rattle.std.specs.Prelude.{◌≡◌, ◌≤◌};
ghost use Rattle.mail_query.specs.Query.{query_of, depth, uses_names};

use crate::node::Node;

/// A query: a tree with at most 64 levels.
#[derive(Drop)]
pub struct Query {
    root: Node,
    ghost bounded: { depth (query_of root) ≤ 64 },
}

impl Query {
    ghost use Rattle.mail_query.specs.Meaning.{meaning};

    pub(crate) fn new(root: Node) -> Self
        requires { depth (query_of root) ≤ 64 }
        ensures { meaning result ≡ query_of root }
    {
        Query { root }
    }

    /// Returns the root of the tree.
    pub fn root(&self) -> &Node
        ensures tree { query_of result.now ≡ meaning self.now }
        ensures bounded { depth (query_of result.now) ≤ 64 }
    {
        &self.root
    }

    /// Returns the number of levels. A tree of one node has 1.
    pub fn depth(&self) -> u32
        ensures value { result ≡ depth (meaning self.now) }
        ensures bounded { result ≤ 64 }
    {
        depth_of(&self.root)
    }

    /// Returns whether the query searches the names of attachments, in any of its nodes.
    pub fn uses_names(&self) -> bool
        ensures { result ≡ uses_names (meaning self.now) }
    {
        has_names(&self.root)
    }
}

fn depth_of(node: &Node) -> u32
    requires { depth (query_of node.now) ≤ 64 }
    ensures { result ≡ depth (query_of node.now) }
{
    match node {
        Node::Not(inner) => depth_of(inner) + 1,
        Node::All(members) | Node::Either(members) => {
            let mut deepest = 0;
            for member in members {
                deepest = deepest.max(depth_of(member));
            }
            deepest + 1
        }
        _ => 1,
    }
}

/// Returns whether any set of kinds in the tree includes the names of attachments.
fn has_names(node: &Node) -> bool
    ensures { result ≡ uses_names (query_of node.now) }
{
    match node {
        Node::Word { kinds, .. } | Node::Part { kinds, .. } | Node::Prefix { kinds, .. } => {
            kinds.name
        }
        Node::Not(inner) => has_names(inner),
        Node::All(members) | Node::Either(members) => {
            for member in members {
                if has_names(member) {
                    return true;
                }
            }
            false
        }
        _ => false,
    }
}
