// The flow of lowest cost: what has to move is carried from nodes with a surplus to nodes with a deficit. A guess is tested (`stands`), and where it fails the
// test, everything is carried along cheapest ways, one after the other. It knows nothing of graphs and reads. Another search may take its place: those
// above see `chain`, `carry_all` and their contracts.
#![tactic(auto)]

// The test of a guess.
pub mod stands;

ghost use Rattle.std.specs.Prelude.{◌≡◌, ℕ, ◌+◌, ◌*◌, ◌<◌, ◌≤◌, length, true};
ghost use Rattle.network.specs.Network.{nth, Chained, Keys, Lanes, Growing, Nearest, Lowered, Seeking, Fresh, TargetFound, Raisable, Raised, Laid, Bottleneck, Pushing, Shape, Carrying, Carries, OthersKept, Waiting, Carried, sum_to, most_nodes, most_edges, Ends, Movable, Stands, Emptied, Levelled};
ghost use Rattle.pivot.specs.Sizes.{PerNode, PerEdge};

use crate::stands::stands;
use pivot::guess;

// What travels together: a network, its chains of edges, what has to move in it, and a flow.
pub use pivot::{Balance, Chains, Flow, Network};

// How many nodes and edges there are at the most: as long are the arrays.
pub const NODES: usize = pivot::NODES;

pub const EDGES: usize = pivot::EDGES;

// What there is to move at the most. specs/Network.antt has the same number.
pub const MOST_MOVED: u64 = 320_000_016;

// Marks are held with the base added, and are no further from it than the span: one edge of any cost and 63 that cost no more than 1,000,000.
pub const BASE: u64 = 2_000_000_000;

pub const SPAN: u64 = 1_000_000_000 + 63 * 1_000_000;

// The edges of each node as a chain, so that a search looks only at the edges of the nodes that it settles.
// The chains are lent: handed out by value they are copied twice, and stand three times on the stack.
pub fn chain(nodes: usize, edges: usize, key: &[usize; EDGES], chains: &mut Chains)
    requires { Keys nodes edges key.now }
    ensures { Chained nodes edges key.now chains.new.head chains.new.next }
{
    chains.head.fill(0);
    for e in 0..edges {
        let u = key[e];
        chains.next[e] = chains.head[u];
        chains.head[u] = e + 1;
    }
}

// A node that is not reached yet is this far away: further than any way.
const FAR: u64 = 1_152_921_504_606_846_976;

// What a search knows of each node: how far it is, the edge by which it was reached (2e where it is taken forward, 2e + 1 where it is taken back), and how
// many were settled before it (the number of nodes, where it is not settled).
#[derive(Drop)]
struct Search {
    dist: [u64; NODES],
    via: [usize; NODES],
    rank: [usize; NODES],
}

// Takes the distance d to v, reached as `hop` says, where it is less than what was known.
fn lower(v: usize, d: u64, hop: usize, dist: &mut [u64; NODES], via: &mut [usize; NODES])
    requires { v < most_nodes }
    ensures { Lowered dist.old via.old v d hop dist.new via.new }
{
    if d < dist[v] {
        dist[v] = d;
        via[v] = hop;
    }
}

impl Search {
    // Nothing is reached yet.
    fn new(nodes: usize) -> Search
        requires { nodes ≤ most_nodes }
        ensures { Fresh nodes result.dist result.via result.rank }
    {
        Search {
            dist: [FAR; NODES],
            via: [0; NODES],
            rank: [nodes; NODES],
        }
    }

    // The nearest of the nodes that are reached and not settled; `nodes` where there is none.
    // Kept: the new form is no plainer: `find` has shown that there is one, so an Option here would only be taken apart again there.
    fn nearest(&self, nodes: usize) -> usize
        requires { nodes ≤ most_nodes }
        ensures { Nearest nodes self.now.dist self.now.rank result }
    {
        let mut best = nodes;
        let mut least = FAR;
        for v in 0..nodes {
            if self.rank[v] >= nodes && self.dist[v] < least {
                best = v;
                least = self.dist[v];
            }
        }
        best
    }

    // Looks at the edges that leave u: along each its end may be nearer than was known.
    fn relax_out(
        &mut self,
        network: &Network,
        flow: &Flow,
        out: &Chains,
        source: usize,
        u: usize,
        count: usize,
    )
        requires lanes { Lanes network.now.nodes network.now.edges network.now.from network.now.to network.now.cost flow.now.mark }
        requires chained { Chained network.now.nodes network.now.edges network.now.from out.now.head out.now.next }
        requires growing { Growing network.now.nodes network.now.edges network.now.from network.now.to network.now.cost flow.now.load flow.now.mark source u network.now.edges network.now.edges count self.old.dist self.old.via self.old.rank }
        ensures growing_2 { Growing network.now.nodes network.now.edges network.now.from network.now.to network.now.cost flow.now.load flow.now.mark source u 0 network.now.edges count self.new.dist self.new.via self.old.rank }
        ensures ranks { self.new.rank ≡ self.old.rank }
    {
        let here = self.dist[u];
        let high = flow.mark[u];
        let mut h = out.head[u];
        while h > 0 {
            let e = h - 1;
            let v = network.to[e];
            let d = here + (network.cost[e] + high - flow.mark[v]);
            lower(v, d, 2 * e, &mut self.dist, &mut self.via);
            h = out.next[e];
        }
    }

    // Looks at the loaded edges that enter u: a load can be taken back at no cost, since a loaded edge has slack 0.
    // Kept: the new form is no plainer: this and `relax_out` share the walk along a chain and `lower`; which edges count, their end, distance and hop differ.
    fn relax_back(
        &mut self,
        network: &Network,
        flow: &Flow,
        back: &Chains,
        source: usize,
        u: usize,
        count: usize,
    )
        requires lanes { Lanes network.now.nodes network.now.edges network.now.from network.now.to network.now.cost flow.now.mark }
        requires chained { Chained network.now.nodes network.now.edges network.now.to back.now.head back.now.next }
        requires growing { Growing network.now.nodes network.now.edges network.now.from network.now.to network.now.cost flow.now.load flow.now.mark source u 0 network.now.edges count self.old.dist self.old.via self.old.rank }
        ensures growing_2 { Growing network.now.nodes network.now.edges network.now.from network.now.to network.now.cost flow.now.load flow.now.mark source u 0 0 count self.new.dist self.new.via self.old.rank }
        ensures ranks { self.new.rank ≡ self.old.rank }
    {
        let here = self.dist[u];
        let mut h = back.head[u];
        while h > 0 {
            let e = h - 1;
            if flow.load[e] > 0 {
                let v = network.from[e];
                lower(v, here, 2 * e + 1, &mut self.dist, &mut self.via);
            }
            h = back.next[e];
        }
    }

    // Looks at all edges of u, the node settled last.
    fn relax(
        &mut self,
        network: &Network,
        flow: &Flow,
        out: &Chains,
        back: &Chains,
        source: usize,
        u: usize,
        count: usize,
    )
        requires lanes { Lanes network.now.nodes network.now.edges network.now.from network.now.to network.now.cost flow.now.mark }
        requires chained { Chained network.now.nodes network.now.edges network.now.from out.now.head out.now.next }
        requires chained_2 { Chained network.now.nodes network.now.edges network.now.to back.now.head back.now.next }
        requires growing { Growing network.now.nodes network.now.edges network.now.from network.now.to network.now.cost flow.now.load flow.now.mark source u network.now.edges network.now.edges count self.old.dist self.old.via self.old.rank }
        ensures growing_2 { Growing network.now.nodes network.now.edges network.now.from network.now.to network.now.cost flow.now.load flow.now.mark source u 0 0 count self.new.dist self.new.via self.old.rank }
        ensures ranks { self.new.rank ≡ self.old.rank }
    {
        self.relax_out(network, flow, out, source, u, count);
        self.relax_back(network, flow, back, source, u, count);
    }

    // The nearest node with a deficit, by the search of Dijkstra on slacks: the nearest node is settled, its edges are looked at, and so on.
    fn find(
        &mut self,
        network: &Network,
        flow: &Flow,
        out: &Chains,
        back: &Chains,
        deficit: &[u64; NODES],
        source: usize,
    ) -> usize
        requires seeking { Seeking network.now.nodes network.now.edges network.now.from network.now.to network.now.cost flow.now.mark deficit.now source }
        requires chained { Chained network.now.nodes network.now.edges network.now.from out.now.head out.now.next }
        requires chained_2 { Chained network.now.nodes network.now.edges network.now.to back.now.head back.now.next }
        requires fresh { Fresh network.now.nodes self.old.dist self.old.via self.old.rank }
        ensures { TargetFound network.now.nodes network.now.edges network.now.from network.now.to network.now.cost flow.now.load flow.now.mark deficit.now source result self.new.dist self.new.via self.new.rank }
    {
        self.dist[source] = 0;
        self.rank[source] = 0;
        let mut u = source;
        let mut count = 1;
        // Kept: the new form is no plainer: the search ends at a deficit, and `count` is the rank that it gives, which no range bounds.
        while deficit[u] == 0 {
            self.relax(network, flow, out, back, source, u, count);
            u = self.nearest(network.nodes);
            self.rank[u] = count;
            count += 1;
        }
        u
    }
}

// Raises each live node's mark by the lesser of its distance and the target's, `most`: no slack falls below 0, and the slacks along the way found
// become 0. What the root is raised by is taken off everywhere, so that the root's mark stays.
fn raise(
    nodes: usize,
    live: &[bool; NODES],
    dist: &[u64; NODES],
    most: u64,
    mark: &mut [u64; NODES],
)
    requires { Raisable nodes live.now dist.now most mark.old }
    ensures { Raised nodes live.now dist.now most mark.old mark.new }
{
    let shift = dist[0].min(most);
    for u in 0..nodes {
        if live[u] {
            mark[u] = mark[u] + dist[u].min(most) - shift;
        }
    }
}

// How much can be moved from the source to the target: no more than `limit`, nor than the load of any edge that is taken back.
fn bottleneck(
    network: &Network,
    flow: &Flow,
    search: &Search,
    source: usize,
    target: usize,
    limit: u64,
) -> u64
    requires laid { Laid network.now.nodes network.now.edges network.now.from network.now.to network.now.cost flow.now.load flow.now.mark search.now.via search.now.rank source target }
    requires le_limit { 1 ≤ limit }
    ensures { Bottleneck network.now.edges network.now.from network.now.to network.now.cost flow.now.load flow.now.mark search.now.via search.now.rank source target limit result }
{
    let mut v = target;
    let mut most = limit;
    while v != source {
        let e = search.via[v] / 2;
        if search.via[v] % 2 == 0 {
            v = network.from[e];
        } else {
            most = most.min(flow.load[e]);
            v = network.to[e];
        }
    }
    most
}

// Moves the amount along the way found, from the target back to the source.
fn push(
    network: &Network,
    search: &Search,
    source: usize,
    target: usize,
    amount: u64,
    flow: &mut Flow,
)
    requires laid { Laid network.now.nodes network.now.edges network.now.from network.now.to network.now.cost flow.old.load flow.old.mark search.now.via search.now.rank source target }
    requires pushing { Pushing network.now.nodes network.now.edges network.now.from network.now.to network.now.cost flow.old.mark search.now.via search.now.rank source target amount flow.old.load target flow.old.load }
    ensures pushed { Pushing network.now.nodes network.now.edges network.now.from network.now.to network.now.cost flow.old.mark search.now.via search.now.rank source target amount flow.old.load source flow.new.load }
    ensures marks { flow.new.mark ≡ flow.old.mark }
{
    let mut v = target;
    while v != source {
        let e = search.via[v] / 2;
        if search.via[v] % 2 == 0 {
            flow.load[e] += amount;
            v = network.from[e];
        } else {
            flow.load[e] -= amount;
            v = network.to[e];
        }
    }
}

// One round: finds the nearest deficit, raises the marks so that the way there costs nothing more, and moves as much as has room along it.
fn round(
    network: &Network,
    live: &[bool; NODES],
    out: &Chains,
    back: &Chains,
    source: usize,
    flow: &mut Flow,
    balance: &mut Balance,
)
    requires shape { Shape network.now.nodes network.now.edges live.now network.now.from network.now.to network.now.cost }
    requires chained { Chained network.now.nodes network.now.edges network.now.from out.now.head out.now.next }
    requires chained_2 { Chained network.now.nodes network.now.edges network.now.to back.now.head back.now.next }
    requires carrying { Carrying network.now.nodes network.now.edges live.now network.now.from network.now.to network.now.cost flow.old.load flow.old.mark balance.old.surplus balance.old.deficit }
    requires source_lt_nodes { (source < network.now.nodes) × (1 ≤ nth balance.old.surplus source) }
    ensures carrying_2 { Carrying network.now.nodes network.now.edges live.now network.now.from network.now.to network.now.cost flow.new.load flow.new.mark balance.new.surplus balance.new.deficit }
    ensures carries { Carries network.now.nodes network.now.edges network.now.from network.now.to flow.old.load balance.old.surplus balance.old.deficit flow.new.load balance.new.surplus balance.new.deficit }
    ensures others_kept { OthersKept source balance.old.surplus balance.new.surplus }
    ensures source_bound { nth balance.new.surplus source < nth balance.old.surplus source }
{
    let mut search = Search::new(network.nodes);
    let target = search.find(network, flow, out, back, &balance.deficit, source);
    let most = search.dist[target];
    raise(network.nodes, live, &search.dist, most, &mut flow.mark);
    let limit = balance.surplus[source].min(balance.deficit[target]);
    let amount = bottleneck(network, flow, &search, source, target, limit);
    push(network, &search, source, target, amount, flow);
    balance.surplus[source] -= amount;
    balance.deficit[target] -= amount;
}

// Moves all the surplus of one node.
fn carry_from(
    network: &Network,
    live: &[bool; NODES],
    out: &Chains,
    back: &Chains,
    source: usize,
    flow: &mut Flow,
    balance: &mut Balance,
)
    requires shape { Shape network.now.nodes network.now.edges live.now network.now.from network.now.to network.now.cost }
    requires chained { Chained network.now.nodes network.now.edges network.now.from out.now.head out.now.next }
    requires chained_2 { Chained network.now.nodes network.now.edges network.now.to back.now.head back.now.next }
    requires carrying { Carrying network.now.nodes network.now.edges live.now network.now.from network.now.to network.now.cost flow.old.load flow.old.mark balance.old.surplus balance.old.deficit }
    requires source_lt_nodes { source < network.now.nodes }
    ensures carrying_2 { Carrying network.now.nodes network.now.edges live.now network.now.from network.now.to network.now.cost flow.new.load flow.new.mark balance.new.surplus balance.new.deficit }
    ensures carries { Carries network.now.nodes network.now.edges network.now.from network.now.to flow.old.load balance.old.surplus balance.old.deficit flow.new.load balance.new.surplus balance.new.deficit }
    ensures others_kept { OthersKept source balance.old.surplus balance.new.surplus }
    ensures source_after { nth balance.new.surplus source ≡ 0 }
{
    while balance.surplus[source] > 0 {
        round(network, live, out, back, source, flow, balance);
    }
}

// Moves every surplus to the deficits, one node after the other, where nothing is moved yet.
fn carry_slowly(
    network: &Network,
    live: &[bool; NODES],
    out: &Chains,
    back: &Chains,
    flow: &mut Flow,
    balance: &mut Balance,
)
    requires shape { Shape network.now.nodes network.now.edges live.now network.now.from network.now.to network.now.cost }
    requires chained { Chained network.now.nodes network.now.edges network.now.from out.now.head out.now.next }
    requires chained_2 { Chained network.now.nodes network.now.edges network.now.to back.now.head back.now.next }
    requires waiting { Waiting network.now.nodes network.now.edges live.now flow.old.load flow.old.mark balance.old.surplus balance.old.deficit }
    ensures by_index { (given wanted : ℕ → ℕ) → ((u : ℕ) → u < network.now.nodes → nth balance.old.surplus u + wanted u ≡ nth balance.old.deficit u + given u) → Carried network.now.nodes network.now.edges live.now network.now.from network.now.to network.now.cost flow.new.load flow.new.mark given wanted (sum_to network.now.nodes (λ u. nth balance.old.surplus u)) }
    ensures load_len { (length flow.new.load ≡ most_edges) × (length flow.new.mark ≡ most_nodes) }
{
    for u in 0..network.nodes {
        carry_from(network, live, out, back, u, flow, balance);
    }
}

// Nothing is moved, as it was before the guess: no load, and every mark at the base.
fn set_back(network: &Network, flow: &mut Flow)
    requires { (network.now.nodes ≤ most_nodes) × (network.now.edges ≤ most_edges) }
    ensures { Emptied network.now.edges flow.new.load × Levelled network.now.nodes flow.new.mark }
{
    flow.load[..network.edges].fill(0);
    flow.mark[..network.nodes].fill(BASE);
}

// Guesses loads and marks, and tells whether they stand the test.
fn guess_stands(
    network: &Network,
    fuel: usize,
    chains: &Chains,
    balance: &Balance,
    flow: &mut Flow,
) -> bool
    requires { Ends network.now.nodes network.now.edges network.now.from network.now.to × Movable network.now.nodes balance.now.surplus balance.now.deficit }
    ensures stands { result ≡ true → Stands network.now.nodes network.now.edges network.now.from network.now.to network.now.cost flow.new.load flow.new.mark balance.now.surplus balance.now.deficit }
    ensures lengths { PerEdge flow.new.load × PerNode flow.new.mark }
{
    guess(network, fuel, chains, balance, flow) && stands(network, flow, balance)
}

// Moves every surplus to the deficits, at the lowest cost: no slack is below 0, and every edge that carries a load has slack 0. A guess of no more than `fuel`
// steps is taken where it stands the test; else its loads and marks are set back, and everything is carried slowly.
pub fn carry_all(
    network: &Network,
    fuel: usize,
    live: &[bool; NODES],
    flow: &mut Flow,
    balance: &mut Balance,
)
    requires shape { Shape network.now.nodes network.now.edges live.now network.now.from network.now.to network.now.cost }
    requires waiting { Waiting network.now.nodes network.now.edges live.now flow.old.load flow.old.mark balance.old.surplus balance.old.deficit }
    ensures by_index { (given wanted : ℕ → ℕ) → ((u : ℕ) → u < network.now.nodes → nth balance.old.surplus u + wanted u ≡ nth balance.old.deficit u + given u) → Carried network.now.nodes network.now.edges live.now network.now.from network.now.to network.now.cost flow.new.load flow.new.mark given wanted (sum_to network.now.nodes (λ u. nth balance.old.surplus u)) }
    ensures load_len { (length flow.new.load ≡ most_edges) × (length flow.new.mark ≡ most_nodes) }
{
    let mut out = Chains::empty();
    chain(network.nodes, network.edges, &network.from, &mut out);
    if guess_stands(network, fuel, &out, balance, flow) {
        return;
    }
    set_back(network, flow);
    let mut back = Chains::empty();
    chain(network.nodes, network.edges, &network.to, &mut back);
    carry_slowly(network, live, &out, &back, flow, balance);
}
