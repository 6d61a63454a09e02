// A guess of the flow of lowest cost, by the network simplex. No contract here says that the guess is right: the functions are proved to be safe and
// to end, and nothing more is believed of them. Whoever calls `guess` tests its loads and marks, and takes another way where they fail the test.
//
// So there is no invariant on the tree. Every number of a node or an edge that is read from an array is cut to the range, every walk counts its
// steps, and marks and flows wrap.
#![tactic(auto)]

// Numbers cut to their range.
mod cut;
// The edge that enters the tree.
mod enter;
// The tree that holds the flow.
mod tree;
// The edge that leaves the tree, and the turn of the part that it cuts off.
mod turn;
// What travels together: a network, its chains of edges, what has to move in it, and a flow.
mod types;
// The cheapest ways between the root and each node.
mod ways;

ghost use Rattle.std.specs.Prelude.{◌<◌, IfSome};
ghost use Rattle.pivot.specs.Sizes.{most_nodes, PerNode, PerEdge};

use crate::cut::{edge, node};
use crate::enter::{Entry, best_entry, block_of};
use crate::tree::Tree;
use crate::turn::Hold;
pub use crate::types::{Balance, Chains, Flow, Network};
use crate::ways::{Ways, load_all};

// How many nodes and edges a network can have.
pub const NODES: usize = 129;

pub const EDGES: usize = 464;

// The end of the entering edge that moves with its part to the other end, and how the marks of the part change.
#[derive(Clone, Copy, Debug, PartialEq, Eq)]
struct Move {
    node: usize,
    onto: usize,
    change: u64,
}

// Where the edge that leaves is ahead, the entering edge's end moves, and its part's marks fall by the gain; else its beginning does, and they rise.
fn mover(u: usize, v: usize, ahead: bool, gain: u64) -> Move
    requires { (u < most_nodes) × (v < most_nodes) }
    ensures { (result.node < most_nodes) × (result.onto < most_nodes) }
{
    if ahead {
        Move {
            node: v,
            onto: u,
            change: gain.wrapping_neg(),
        }
    } else {
        Move {
            node: u,
            onto: v,
            change: gain,
        }
    }
}

// An edge enters the tree, what can be moved round goes round, and an edge with nothing left on it leaves the tree. No part moves where the way round has
// no limit.
fn exchange(network: &Network, entry: Entry, tree: &mut Tree) -> Option<Move>
    ensures { IfSome result (λ part. part.node < most_nodes) }
{
    let e = edge(entry.edge);
    let u = node(network.from[e]);
    let v = node(network.to[e]);
    let climb = tree.find_least(u, v);
    let loss = climb.least?;
    tree.move_round(u, v, climb.back, loss.flow);
    let part = mover(u, v, loss.ahead, entry.gain);
    let hold = Hold {
        parent: part.onto,
        by: e as u16,
        up: !loss.ahead,
        flow: loss.flow,
    };
    tree.turn_part(part.node, loss.cut, hold);
    Some(part)
}

// Lets edges with a slack below 0 enter the tree until there is none. False where `fuel` of them are not enough.
fn improve(network: &Network, fuel: usize, tree: &mut Tree, mark: &mut [u64; NODES]) -> bool {
    let block = block_of(network.edges);
    let mut start = 0;
    for _ in 0..fuel {
        let Some(entry) = best_entry(network, mark, block, start) else {
            return true;
        };
        let Some(part) = exchange(network, entry, tree) else {
            return false;
        };
        tree.move_part(part.node, part.change, mark);
        start = entry.next;
    }
    false
}

// Marks are held with this added while the tree is improved, so that none falls below 0.
const LIFT: u64 = 1_125_899_906_842_624;

// Finds the best tree, from the one in which every node hangs on the root by its shortcut.
fn best_tree(
    network: &Network,
    fuel: usize,
    from_root: &Ways,
    to_root: &Ways,
    balance: &Balance,
    tree: &mut Tree,
    mark: &mut [u64; NODES],
) -> bool {
    mark[0] = mark[0].wrapping_add(LIFT);
    tree.hang_all(network.nodes, balance, from_root, to_root, mark);
    let best = improve(network, fuel, tree, mark);
    for raised in mark.iter_mut().take(network.nodes) {
        *raised = raised.wrapping_sub(LIFT);
    }
    best
}

// Guesses loads and marks that carry every surplus to the deficits at the lowest cost. The root is node 0, its mark stays, and the loads are 0 before; the
// chains are those of the edges that leave each node. True where the guess was brought to its end: where `fuel` edges at the most entered the tree.
pub fn guess(
    network: &Network,
    fuel: usize,
    chains: &Chains,
    balance: &Balance,
    flow: &mut Flow,
) -> bool
    ensures { PerEdge flow.new.load × PerNode flow.new.mark }
{
    let mut from_root = Ways::unknown();
    from_root.go_from_root(network, chains);
    let mut to_root = Ways::unknown();
    to_root.go_to_root(network, chains);
    let mut tree = Tree::new();
    let best = best_tree(
        network,
        fuel,
        &from_root,
        &to_root,
        balance,
        &mut tree,
        &mut flow.mark,
    );
    if best {
        load_all(network, &from_root, &to_root, &tree, &mut flow.load);
    }
    best
}
