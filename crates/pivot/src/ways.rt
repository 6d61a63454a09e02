// The cheapest ways between the root and each node, and what is carried along them. An edge that does not touch the root goes from a node to one with a
// higher number, so one pass over the nodes gives the ways from the root, and one pass back the ways to it. In a network of another shape the ways would
// not be the cheapest, and the guess would fail the test.
ghost use Rattle.std.specs.Prelude.{◌<◌};
ghost use Rattle.pivot.specs.Sizes.{most_nodes};

use crate::cut::{edge, node};
use crate::tree::Tree;
use crate::{Chains, EDGES, NODES, Network};

// A node that no way is known for yet is this far from the root: further than any way.
const FAR: u64 = 1_099_511_627_776;

// The cheapest ways from the root, or to it: what the way of each node costs, and its edge at the node's end.
#[derive(Drop)]
pub struct Ways {
    pub cost: [u64; NODES],
    pub by: [u16; NODES],
}

impl Ways {
    // No way is known.
    pub fn unknown() -> Ways {
        Ways {
            cost: [FAR; NODES],
            by: [0; NODES],
        }
    }

    // Takes a way for node v, by edge e at its end there, where it costs less than what was known.
    fn lower(&mut self, v: usize, cost: u64, e: usize) {
        let here = node(v);
        if cost < self.cost[here] {
            self.cost[here] = cost;
            self.by[here] = edge(e) as u16;
        }
    }

    // The cheapest ways from the root: on from each node along the edges that leave it.
    pub fn go_from_root(&mut self, network: &Network, chains: &Chains) {
        self.cost[0] = 0;
        for u in 0..network.nodes.min(NODES) {
            let so_far = self.cost[u];
            each_edge(network, chains, u, |e, v, cost| {
                self.lower(v, so_far.wrapping_add(cost), e)
            });
        }
    }

    // The cheapest ways to the root: from each node by the edges that leave it.
    pub fn go_to_root(&mut self, network: &Network, chains: &Chains) {
        self.cost[0] = 0;
        for u in (1..network.nodes.min(NODES)).rev() {
            each_edge(network, chains, u, |e, v, cost| {
                let rest = self.cost[node(v)];
                self.lower(u, cost.wrapping_add(rest), e)
            });
        }
    }

    // What waits at u to be carried goes over the edge of its way, and waits at the edge's other end, as `ends` says.
    fn carry_on(
        &self,
        u: usize,
        ends: &[usize; EDGES],
        waiting: &mut [u64; NODES],
        load: &mut [u64; EDGES],
    )
        requires { u < most_nodes }
    {
        let e = edge(usize::from(self.by[u]));
        let there = node(ends[e]);
        load[e] = load[e].wrapping_add(waiting[u]);
        waiting[there] = waiting[there].wrapping_add(waiting[u]);
    }
}

// Calls `look` with each edge that leaves u, the edge's end and its cost.
fn each_edge<F: FnMut(usize, usize, u64)>(network: &Network, chains: &Chains, u: usize, mut look: F)
    requires callable { F.IsAlwaysCallable look }
    requires in_range { u < most_nodes }
{
    let mut link = chains.head[u];
    for _ in 0..EDGES {
        if link == 0 {
            return;
        }
        let e = edge(link - 1);
        look(e, network.to[e], network.cost[e]);
        link = chains.next[e];
    }
}

// Takes what the tree holds off it: a load where a node's edge is an edge of the network, and else an amount to carry from the root or to it.
fn unload_all(
    nodes: usize,
    tree: &Tree,
    load: &mut [u64; EDGES],
    arriving: &mut [u64; NODES],
    leaving: &mut [u64; NODES],
) {
    for u in 1..nodes.min(NODES) {
        let e = usize::from(tree.by[u]);
        if e < EDGES {
            load[e] = tree.flow[u];
        } else if tree.up[u] {
            leaving[u] = tree.flow[u];
        } else {
            arriving[u] = tree.flow[u];
        }
    }
}

// Loads the cheapest ways from the root with what arrives at their ends, back from the last edge.
fn load_from_root(
    network: &Network,
    ways: &Ways,
    load: &mut [u64; EDGES],
    arriving: &mut [u64; NODES],
) {
    for u in (1..network.nodes.min(NODES)).rev() {
        ways.carry_on(u, &network.from, arriving, load);
    }
}

// Loads the cheapest ways to the root with what leaves their beginnings, on from the first edge.
fn load_to_root(
    network: &Network,
    ways: &Ways,
    load: &mut [u64; EDGES],
    leaving: &mut [u64; NODES],
) {
    for u in 1..network.nodes.min(NODES) {
        ways.carry_on(u, &network.to, leaving, load);
    }
}

// The loads of the tree: what it holds, with what goes along the shortcuts laid on the ways that they stand for.
pub fn load_all(
    network: &Network,
    from_root: &Ways,
    to_root: &Ways,
    tree: &Tree,
    load: &mut [u64; EDGES],
) {
    let mut arriving = [0; NODES];
    let mut leaving = [0; NODES];
    unload_all(network.nodes, tree, load, &mut arriving, &mut leaving);
    load_from_root(network, from_root, load, &mut arriving);
    load_to_root(network, to_root, load, &mut leaving);
}
