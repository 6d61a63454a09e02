// What travels together: a network, its chains of edges, what has to move in it, and a flow.
ghost use Rattle.std.specs.Prelude.{◌≡◌, replicate};
ghost use Rattle.pivot.specs.Sizes.{most_nodes, most_edges};

use crate::{EDGES, NODES};

// A network: how many of its nodes and edges are in use, each edge's ends, and what it costs to carry a unit over it.
#[derive(Drop)]
pub struct Network {
    pub nodes: usize,
    pub edges: usize,
    pub from: [usize; EDGES],
    pub to: [usize; EDGES],
    pub cost: [u64; EDGES],
}

impl Network {
    // No node and no edge is in use yet.
    pub fn empty() -> Network
        ensures size { (result.nodes ≡ 0) × (result.edges ≡ 0) }
        ensures ends { (result.from ≡ replicate most_edges 0) × (result.to ≡ replicate most_edges 0) }
        ensures cost { result.cost ≡ replicate most_edges 0 }
    {
        Network {
            nodes: 0,
            edges: 0,
            from: [0; EDGES],
            to: [0; EDGES],
            cost: [0; EDGES],
        }
    }
}

// The edges of each node as a chain: the number plus 1 of a node's first edge and of an edge's next, and 0 where there is none.
#[derive(Drop)]
pub struct Chains {
    pub head: [usize; NODES],
    pub next: [usize; EDGES],
}

impl Chains {
    // No edge is in a chain yet.
    pub fn empty() -> Chains
        ensures { (result.head ≡ replicate most_nodes 0) × (result.next ≡ replicate most_edges 0) }
    {
        Chains {
            head: [0; NODES],
            next: [0; EDGES],
        }
    }
}

// What has to move: what each node has too much of, and what it lacks.
#[derive(Drop)]
pub struct Balance {
    pub surplus: [u64; NODES],
    pub deficit: [u64; NODES],
}

impl Balance {
    // Nothing has to move.
    pub fn empty() -> Balance
        ensures { (result.surplus ≡ replicate most_nodes 0) × (result.deficit ≡ replicate most_nodes 0) }
    {
        Balance {
            surplus: [0; NODES],
            deficit: [0; NODES],
        }
    }
}

// A flow: what lies on each edge, and each node's mark.
#[derive(Drop)]
pub struct Flow {
    pub load: [u64; EDGES],
    pub mark: [u64; NODES],
}
