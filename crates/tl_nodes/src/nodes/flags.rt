// Whether a node has a temporal word, by the answers stored for its parts.
ghost use Rattle.std.specs.Prelude.{◌≡◌};
ghost use Rattle.std.specs.List.{list_any};
ghost use Rattle.tl_nodes.specs.Temporal.{node_temporal, flag_of};

use crate::Node;
use tl_syntax::Ids;

fn flag_at(flags: &[bool], id: usize) -> bool
    ensures { result ≡ flag_of flags.now id }
{
    match flags.get(id) {
        Some(flag) => *flag,
        None => false,
    }
}

fn any_flag(flags: &[bool], ids: &Ids) -> bool
    ensures { result ≡ list_any (flag_of flags.now) ids.now }
{
    ids.as_slice().iter().any(|id| flag_at(flags, *id))
}

// Whether the node, over parts with these answers, has a temporal word.
pub(crate) fn temporal_of(flags: &[bool], node: &Node) -> bool
    ensures { result ≡ node_temporal flags.now node.now }
{
    match node {
        Node::True | Node::False | Node::Basic(_) => false,
        Node::Not(part) => flag_at(flags, *part),
        Node::And(parts) => any_flag(flags, parts),
        Node::Or(parts) => any_flag(flags, parts),
        Node::Next(_) | Node::Always(_) | Node::Eventually(_) | Node::Until(_, _) => true,
        Node::Within(_, _) | Node::During(_, _) => true,
        Node::ForAll(_, _, part) => flag_at(flags, *part),
        Node::Exists(_, _, part) => flag_at(flags, *part),
    }
}
