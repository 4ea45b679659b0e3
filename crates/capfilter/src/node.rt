// Nodes of a tree, and what the tree says of a packet.
ghost use Rattle.std.specs.Prelude.{◌≡◌, ◌≤◌, ◌<◌, ◌-◌, length};
ghost use Rattle.capfilter.specs.Truth.{truth};
ghost use Rattle.capfilter.specs.Nodes.{AreBelow, IsBelow, root, node_says};

use crate::limits::MOST_TOKENS;
use crate::prim::Primitive;
use streamkey::{Key, Toward};

/// A node of a tree; the numbers are places of nodes before it.
#[derive(Clone, Copy, Debug)]
pub(crate) enum Node {
    Test(Primitive),
    Not(usize),
    And(usize, usize),
    Or(usize, usize),
}

/// What a node says where the nodes before it say these values.
fn value_of(node: Node, values: &[bool; MOST_TOKENS], at: usize, key: &Key, toward: Toward) -> bool
    requires within { at ≤ MOST_TOKENS }
    requires below { IsBelow at node }
    ensures { result ≡ node_says values.now node key.now toward }
{
    match node {
        Node::Test(prim) => prim.holds(key, toward),
        Node::Not(inner) => !values[inner],
        Node::And(left, right) => values[left] && values[right],
        Node::Or(left, right) => values[left] || values[right],
    }
}

/// Whether the last of the nodes holds, of which there are at most as many as tokens. Each node is looked at once.
pub(crate) fn last_holds(nodes: &[Node], key: &Key, toward: Toward) -> bool
    requires some { 0 < length nodes.now }
    requires few { length nodes.now ≤ MOST_TOKENS }
    requires below { AreBelow nodes.now }
    ensures { result ≡ truth (root nodes.now) key.now toward }
{
    let mut values = [false; MOST_TOKENS];
    for (i, node) in nodes.iter().enumerate() {
        values[i] = value_of(*node, &values, i, key, toward);
    }
    values[nodes.len() - 1]
}
