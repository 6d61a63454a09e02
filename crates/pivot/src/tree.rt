// The tree that holds the flow. Each node but the root hangs on its `parent` by an edge: `by` is the edge's number (EDGES for the node's shortcut, a way
// between the root and it at the cheapest ways' cost), `up` tells that it goes from the node to its parent, `flow` is what lies on it. The nodes that hang
// on one node stand in a list: `child` is the first, `after` and `before` lead on and back, and 0 is no node, since the root hangs on none. `depth` is how
// many edges there are up to the root.
ghost use Rattle.std.specs.Prelude.{◌<◌};
ghost use Rattle.pivot.specs.Sizes.{most_nodes};

use crate::cut::{hung, node};
use crate::ways::Ways;
use crate::{Balance, EDGES, NODES};

#[derive(Drop)]
pub struct Tree {
    pub parent: [u16; NODES],
    pub by: [u16; NODES],
    pub up: [bool; NODES],
    pub flow: [u64; NODES],
    pub child: [u16; NODES],
    pub after: [u16; NODES],
    pub before: [u16; NODES],
    pub depth: [u16; NODES],
}

impl Tree {
    // Each node is on the root, by its shortcut, and in no list yet.
    pub fn new() -> Tree {
        Tree {
            parent: [0; NODES],
            by: [EDGES as u16; NODES],
            up: [false; NODES],
            flow: [0; NODES],
            child: [0; NODES],
            after: [0; NODES],
            before: [0; NODES],
            depth: [1; NODES],
        }
    }

    // The node that u hangs on.
    pub fn above(&self, u: usize) -> usize
        requires { u < most_nodes }
        ensures { result < most_nodes }
    {
        node(usize::from(self.parent[u]))
    }

    // Hangs u on the root by its shortcut: from the root where it has a deficit, and else to the root. What has to move lies on it, and the marks make it
    // tight.
    fn hang(
        &mut self,
        u: usize,
        balance: &Balance,
        from_root: &Ways,
        to_root: &Ways,
        mark: &mut [u64; NODES],
    )
        requires { u < most_nodes }
    {
        if balance.deficit[u] > 0 {
            self.up[u] = false;
            self.flow[u] = balance.deficit[u];
            mark[u] = mark[0].wrapping_add(from_root.cost[u]);
        } else {
            self.up[u] = true;
            self.flow[u] = balance.surplus[u];
            mark[u] = mark[0].wrapping_sub(to_root.cost[u]);
        }
    }

    // Hangs all nodes on the root. An edge without a flow goes up, so every node can send on to the root: as long as this is kept, no tree comes twice.
    pub fn hang_all(
        &mut self,
        nodes: usize,
        balance: &Balance,
        from_root: &Ways,
        to_root: &Ways,
        mark: &mut [u64; NODES],
    ) {
        self.depth[0] = 0;
        for u in (1..nodes.min(NODES)).rev() {
            self.hang(u, balance, from_root, to_root, mark);
            self.link(u, 0);
        }
    }

    // Puts w first into the list of the nodes that hang on p. Where no node follows, `before` is stored at place 0, which nothing reads: the root is in no
    // list. To ask first costs more.
    pub fn link(&mut self, w: usize, p: usize)
        requires { (w < most_nodes) × (p < most_nodes) }
    {
        let second = self.child[p];
        self.after[w] = second;
        self.before[w] = 0;
        self.before[node(usize::from(second))] = w as u16;
        self.child[p] = w as u16;
    }

    // Takes w out of the list of the nodes that hang on p.
    pub fn unlink(&mut self, w: usize, p: usize)
        requires { (w < most_nodes) × (p < most_nodes) }
    {
        let one = self.before[w];
        let other = self.after[w];
        self.before[node(usize::from(other))] = one;
        match hung(one) {
            Some(previous) => self.after[previous] = other,
            None => self.child[p] = other,
        }
    }
}
