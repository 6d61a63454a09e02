// The test of a guess: whether loads and marks carry every surplus to the deficits at the lowest cost. One pass over the edges and one over the nodes.
ghost use Rattle.std.specs.Prelude.{◌≡◌, true};
ghost use Rattle.network.specs.Network.{nth, sum_to, Ends, EdgeStands, EdgesStand, Summable, Tallied, Comparable, Even, Movable, LoadsStand, Stands};

use crate::{BASE, Balance, EDGES, Flow, MOST_MOVED, NODES, Network};

// Whether an edge's slack is at least 0, and 0 under a load, and no more than can be there lies on it.
fn edge_stands(cost: u64, back: u64, ahead: u64, load: u64) -> bool
    ensures { result ≡ true → EdgeStands cost back ahead load }
{
    if load > MOST_MOVED {
        return false;
    }
    if ahead < cost {
        return load == 0;
    }
    if ahead - cost == back {
        return true;
    }
    if ahead - cost > back {
        return false;
    }
    load == 0
}

// Whether every edge is as it has to be.
fn edges_stand(network: &Network, flow: &Flow) -> bool
    requires { Ends network.now.nodes network.now.edges network.now.from network.now.to }
    ensures { result ≡ true → EdgesStand network.now.edges network.now.from network.now.to network.now.cost flow.now.load flow.now.mark }
{
    for e in 0..network.edges {
        let back = flow.mark[network.from[e]];
        let ahead = flow.mark[network.to[e]];
        if !edge_stands(network.cost[e], back, ahead, flow.load[e]) {
            return false;
        }
    }
    true
}

// Sums what enters and what leaves each node on so many edges, in sums that are 0 before.
pub fn tally(
    network: &Network,
    edges: usize,
    load: &[u64; EDGES],
    into: &mut [u64; NODES],
    out: &mut [u64; NODES],
)
    requires summable { Summable network.now.nodes edges network.now.from network.now.to load.now }
    requires tallied { Tallied network.now.nodes 0 network.now.from network.now.to load.now into.old out.old }
    ensures { Tallied network.now.nodes edges network.now.from network.now.to load.now into.new out.new }
{
    for e in 0..edges {
        let u = network.from[e];
        let v = network.to[e];
        into[v] += load[e];
        out[u] += load[e];
    }
}

// Whether every node gives off its surplus and gets its deficit.
fn nodes_stand(nodes: usize, into: &[u64; NODES], out: &[u64; NODES], balance: &Balance) -> bool
    requires { Comparable nodes into.now out.now balance.now.surplus balance.now.deficit }
    ensures { result ≡ true → Even nodes into.now out.now balance.now.surplus balance.now.deficit }
{
    for u in 0..nodes {
        if out[u] + balance.deficit[u] != into[u] + balance.surplus[u] {
            return false;
        }
    }
    true
}

// All that there is to move.
fn total(nodes: usize, balance: &Balance) -> u64
    requires { Movable nodes balance.now.surplus balance.now.deficit }
    ensures { result ≡ sum_to nodes (λ u. nth balance.now.surplus u) }
{
    let mut sum = 0;
    for u in 0..nodes {
        sum += balance.surplus[u];
    }
    sum
}

// Whether the loads balance every node, and the root sends no more than there is to move.
fn loads_stand(network: &Network, load: &[u64; EDGES], balance: &Balance) -> bool
    requires { Summable network.now.nodes network.now.edges network.now.from network.now.to load.now × Movable network.now.nodes balance.now.surplus balance.now.deficit }
    ensures { result ≡ true → LoadsStand network.now.nodes network.now.edges network.now.from network.now.to load.now balance.now.surplus balance.now.deficit }
{
    let mut into = [0u64; NODES];
    let mut out = [0u64; NODES];
    tally(network, network.edges, load, &mut into, &mut out);
    out[0] <= total(network.nodes, balance) && nodes_stand(network.nodes, &into, &out, balance)
}

// Whether the loads and marks need no further search.
pub fn stands(network: &Network, flow: &Flow, balance: &Balance) -> bool
    requires { Ends network.now.nodes network.now.edges network.now.from network.now.to × Movable network.now.nodes balance.now.surplus balance.now.deficit }
    ensures { result ≡ true → Stands network.now.nodes network.now.edges network.now.from network.now.to network.now.cost flow.now.load flow.now.mark balance.now.surplus balance.now.deficit }
{
    flow.mark[0] == BASE && edges_stand(network, flow) && loads_stand(network, &flow.load, balance)
}
