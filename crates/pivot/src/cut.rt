// Numbers cut to their range, so that an index is in range whatever the array held.
ghost use Rattle.std.specs.Prelude.{◌<◌, IfSome};
ghost use Rattle.pivot.specs.Sizes.{most_nodes, most_edges};

use crate::{EDGES, NODES};

// The number of a node; the root for a number that no node has.
pub fn node(number: usize) -> usize
    ensures { result < most_nodes }
{
    if number < NODES { number } else { 0 }
}

// The number of an edge; the first for a number that no edge has.
pub fn edge(number: usize) -> usize
    ensures { result < most_edges }
{
    if number < EDGES { number } else { 0 }
}

// The node that a place in the tree's lists names: none for 0, since the root hangs on no node.
pub fn hung(number: u16) -> Option<usize>
    ensures { IfSome result (λ u. u < most_nodes) }
{
    match node(usize::from(number)) {
        0 => None,
        u => Some(u),
    }
}
