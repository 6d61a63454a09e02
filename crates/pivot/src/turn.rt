// The edge that leaves the tree, and the turn of the part that it cuts off.
ghost use Rattle.std.specs.Prelude.{◌≡◌, ◌<◌, IfSome};
ghost use Rattle.pivot.specs.Sizes.{most_nodes};

use crate::NODES;
use crate::cut::{hung, node};
use crate::tree::Tree;

// An edge that loses on the way round: what lies on it, the node that hangs by it, and whether that is on the side of the entering edge's end (`ahead`).
#[derive(Clone, Copy, Debug, PartialEq, Eq)]
pub struct Loss {
    pub flow: u64,
    pub cut: usize,
    pub ahead: bool,
}

// The climb from both ends of the entering edge to where they meet: where each side is, and the edge with the least flow so far of those that lose.
#[derive(Clone, Copy, Debug, PartialEq, Eq)]
pub struct Climb {
    pub back: usize,
    pub front: usize,
    pub least: Option<Loss>,
}

// How a node hangs: on whom, by which edge, that goes up or not, with how much on it.
#[derive(Clone, Copy, Debug, PartialEq, Eq)]
pub struct Hold {
    pub parent: usize,
    pub by: u16,
    pub up: bool,
    pub flow: u64,
}

// What lies on a tree's edge once the amount has gone round: an edge gains where it rises as `rising` says.
fn moved(flow: u64, up: bool, rising: bool, amount: u64) -> u64 {
    if up == rising {
        flow.wrapping_add(amount)
    } else {
        flow.wrapping_sub(amount)
    }
}

// The nodes that wait to be visited on a walk over a part of the tree: the last that came is the first that is visited.
#[derive(Drop)]
struct Waiting {
    nodes: [u16; NODES],
    count: usize,
}

impl Waiting {
    fn push(&mut self, u: usize)
        requires { u < most_nodes }
    {
        self.count = node(self.count.wrapping_add(1));
        self.nodes[self.count] = u as u16;
    }

    fn pop(&mut self) -> Option<usize>
        ensures { IfSome result (λ u. u < most_nodes) }
    {
        let top = node(self.count);
        if top == 0 {
            return None;
        }
        self.count = top - 1;
        hung(self.nodes[top])
    }

    // What is visited next: the first node that hangs on the one at hand (`down`), and else the one after it in its list (`along`), and else the last
    // that waits.
    fn next(&mut self, down: Option<usize>, along: Option<usize>) -> Option<usize>
        requires { IfSome down (λ u. u < most_nodes) × IfSome along (λ u. u < most_nodes) }
        ensures { IfSome result (λ u. u < most_nodes) }
    {
        match (down, along) {
            (None, None) => self.pop(),
            (None, Some(_)) => along,
            (Some(_), None) => down,
            (Some(_), Some(u)) => {
                self.push(u);
                down
            }
        }
    }
}

impl Tree {
    // The edge that u hangs by is one of the way round: it loses where it rises on the side that the entering edge comes from, and where it falls on the
    // other side (`ahead`). Of equal ones the first is taken on the one side and the last on the other: this keeps the tree so that every node can send on
    // to the root.
    fn lose(&self, u: usize, ahead: bool, least: &mut Option<Loss>)
        requires { u < most_nodes }
    {
        let flow = self.flow[u];
        let is_less = match least {
            Some(loss) => flow < loss.flow || (flow == loss.flow && ahead),
            None => true,
        };
        if is_less && self.up[u] != ahead {
            *least = Some(Loss {
                flow,
                cut: u,
                ahead,
            });
        }
    }

    // One step on the side that is deeper. The climb is changed where it stands: it is not handed on by value, since that copies the Option at each step.
    fn climb_deeper(&self, climb: &mut Climb)
        requires { (climb.old.back < most_nodes) × (climb.old.front < most_nodes) }
        ensures { (climb.new.back < most_nodes) × (climb.new.front < most_nodes) }
    {
        if self.depth[climb.back] < self.depth[climb.front] {
            self.lose(climb.front, true, &mut climb.least);
            climb.front = self.above(climb.front);
        } else {
            self.lose(climb.back, false, &mut climb.least);
            climb.back = self.above(climb.back);
        }
    }

    // The edge that leaves: of those that lose on the way round, one with the least flow, and none where none loses; and where the sides meet.
    pub fn find_least(&self, u: usize, v: usize) -> Climb
        requires { (u < most_nodes) × (v < most_nodes) }
    {
        let mut climb = Climb {
            back: u,
            front: v,
            least: None,
        };
        for _ in 0..2 * NODES {
            if climb.back == climb.front {
                return climb;
            }
            self.climb_deeper(&mut climb);
        }
        climb
    }

    // Moves the amount between w and the node `top` above it: upwards where `rising`, and else downwards.
    fn move_side(&mut self, w: usize, top: usize, rising: bool, amount: u64)
        requires { w < most_nodes }
    {
        let mut here = w;
        for _ in 0..NODES {
            if here == top {
                return;
            }
            self.flow[here] = moved(self.flow[here], self.up[here], rising, amount);
            here = self.above(here);
        }
    }

    // Moves the amount round, over the entering edge from u to v and in the tree from v up to `top` and down to u again.
    pub fn move_round(&mut self, u: usize, v: usize, top: usize, amount: u64)
        requires { (u < most_nodes) × (v < most_nodes) }
    {
        if amount > 0 {
            self.move_side(u, top, false, amount);
            self.move_side(v, top, true, amount);
        }
    }

    // Hangs w as said, and gives how it hung before, seen from its parent.
    fn hang_anew(&mut self, w: usize, hold: Hold) -> Hold
        requires { (w < most_nodes) × (hold.parent < most_nodes) }
        ensures { result.parent ≡ w }
    {
        let old = Hold {
            parent: w,
            by: self.by[w],
            up: !self.up[w],
            flow: self.flow[w],
        };
        self.parent[w] = hold.parent as u16;
        self.by[w] = hold.by;
        self.up[w] = hold.up;
        self.flow[w] = hold.flow;
        old
    }

    // Turns the way from w up to `last` round: each node on it hangs on the one below, and w as `hold` says.
    pub fn turn_part(&mut self, w: usize, last: usize, hold: Hold)
        requires { (w < most_nodes) × (hold.parent < most_nodes) }
    {
        let mut here = w;
        let mut hold = hold;
        for _ in 0..NODES {
            let above = self.above(here);
            self.unlink(here, above);
            self.link(here, hold.parent);
            hold = self.hang_anew(here, hold);
            if here == last {
                return;
            }
            here = above;
        }
    }

    // The node after `here` in its list, but for the node w at which the part begins: the nodes after that one are not of the part.
    fn beside(&self, here: usize, w: usize) -> Option<usize>
        requires { here < most_nodes }
        ensures { IfSome result (λ u. u < most_nodes) }
    {
        if here == w {
            None
        } else {
            hung(self.after[here])
        }
    }

    // Adds a change to the marks of w and of all that hangs below it, and puts their depths right.
    pub fn move_part(&mut self, w: usize, change: u64, mark: &mut [u64; NODES])
        requires { w < most_nodes }
    {
        let mut waiting = Waiting {
            nodes: [0; NODES],
            count: 0,
        };
        let mut visit = Some(w);
        for _ in 0..NODES {
            let Some(here) = visit else {
                return;
            };
            mark[here] = mark[here].wrapping_add(change);
            self.depth[here] = self.depth[self.above(here)].wrapping_add(1);
            visit = waiting.next(hung(self.child[here]), self.beside(here, w));
        }
    }
}
