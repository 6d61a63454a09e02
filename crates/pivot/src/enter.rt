// The edge that enters the tree: one whose slack is below 0, so that going over it costs less than the tree does.
ghost use Rattle.std.specs.Prelude.{◌<◌};

use crate::cut::node;
use crate::{EDGES, NODES, Network};

// An edge, how far its slack is below 0, and where the next search begins.
#[derive(Clone, Copy, Debug, PartialEq, Eq)]
pub struct Entry {
    pub edge: usize,
    pub gain: u64,
    pub next: usize,
}

// The edge with the lowest slack in the block of edges from `first` on, up to `stop`; none where no slack there is below 0.
fn best_between(
    network: &Network,
    mark: &[u64; NODES],
    first: usize,
    stop: usize,
) -> Option<Entry> {
    let mut best = 0;
    let mut gain = 0;
    for e in first..stop.min(EDGES) {
        let ahead = network.cost[e].wrapping_add(mark[node(network.from[e])]);
        let there = mark[node(network.to[e])];
        if ahead.wrapping_add(gain) < there {
            best = e;
            gain = there.wrapping_sub(ahead);
        }
    }
    if gain == 0 {
        return None;
    }
    Some(Entry {
        edge: best,
        gain,
        next: stop,
    })
}

// How long a block is, less one: the greatest number that, multiplied by the next, is no more than the number of edges. That is about its square root.
pub fn block_of(edges: usize) -> usize {
    let few = edges.min(EDGES);
    let root = few.isqrt();
    if few < root * root + root {
        root - 1
    } else {
        root
    }
}

// What is left to look at behind a block.
fn rest(left: usize, block: usize) -> usize
    requires { 0 < left }
    ensures { result < left }
{
    if block < left { left - block - 1 } else { 0 }
}

// Where the block behind `stop` begins: at 0 again behind the last edge.
fn again(stop: usize, edges: usize) -> usize {
    if stop < edges { stop } else { 0 }
}

// Looks at block after block from `start` on, once round, and takes the lowest slack of the first block that has one below 0.
pub fn best_entry(
    network: &Network,
    mark: &[u64; NODES],
    block: usize,
    start: usize,
) -> Option<Entry> {
    let edges = network.edges.min(EDGES);
    let mut first = again(start, edges);
    let mut left = edges;
    // Kept: what may not change needs it: the wrong program `search_without_end` turns `rest`, whose promise only the measure of this loop asks for.
    while left > 0 {
        let stop = first.wrapping_add(block).wrapping_add(1).min(edges);
        let entry = best_between(network, mark, first, stop);
        if entry.is_some() {
            return entry;
        }
        first = again(stop, edges);
        left = rest(left, block);
    }
    None
}
