// The working network of a graph form: edges with their ends and costs, first loads, live nodes, and each node's surplus or deficit.
#![tactic(auto)]

ghost use Rattle.std.specs.Prelude.{◌≡◌, ◌+◌, ◌*◌, ◌-◌, ◌<◌, ◌≤◌, length, is_some};
ghost use Rattle.mathematics.specs.Reach.{useful};
ghost use Rattle.forms.specs.GraphForm.{vertex_count, arc_count};
ghost use Rattle.forms.specs.GraphOf.{graph_of};
ghost use Rattle.forms.specs.GraphReads.{Reads};
ghost use Rattle.forms.specs.Roles.{Roles};
ghost use Rattle.reads.specs.ReadTable.{Leaves, table_rows};
ghost use Rattle.network.specs.Network.{most_nodes, most_edges, Summable, Tallied};
ghost use Rattle.paths.specs.Slots.{prepared_of, plain_slots, all_slots};
ghost use Rattle.reach.specs.Reached.{Tells};
ghost use Rattle.wiring.specs.Lay.{edge_of, Stored, EdgesLaid, VerticesCounted, ArcsCounted, LoadsLaid, LiveLaid, Netted, Balanced};

use forms::Graph;
use forms::fields::{
    arc_cost, arc_count, arc_demand, arc_head, arc_tail, first_arc_at, opening_price, vertex_count,
    vertex_demand,
};
use forms::roles::{Role, is_end, is_start};
use network::stands::tally;
use network::{Balance, EDGES, NODES, Network};
use reads::{ROW, ROWS};

// An edge that is used: the nodes that it comes from and goes to, and what it costs.
#[derive(Clone, Copy, Debug, PartialEq, Eq)]
struct Edge {
    from: usize,
    to: usize,
    cost: u64,
}

impl Edge {
    // What stands in the place of an edge that is not used: a loop of cost 0 at the root.
    const IDLE: Edge = Edge {
        from: 0,
        to: 0,
        cost: 0,
    };
}

// Stores the edge at place e, or that none is used there.
fn store_edge(network: &mut Network, e: usize, edge: Option<Edge>)
    requires { e < most_edges }
    ensures { Stored e (is_some edge) (edge_of edge).from (edge_of edge).to (edge_of edge).cost network.old.from network.old.to network.old.cost network.new.from network.new.to network.new.cost }
{
    let laid = edge.unwrap_or(Edge::IDLE);
    network.from[e] = laid.from;
    network.to[e] = laid.to;
    network.cost[e] = laid.cost;
}

// From the in side of each useful vertex to its out side.
fn lay_vertices(s: &[u8], kept: &[bool; Graph::ROOM_VERTICES], network: &mut Network)
    requires reads { Reads s.now × Tells s.now (useful (graph_of s.now)) kept.now }
    requires edges_laid { EdgesLaid s.now 0 network.old.from network.old.to network.old.cost }
    ensures { EdgesLaid s.now (vertex_count s.now) network.new.from network.new.to network.new.cost }
{
    for v in 0..vertex_count(s) {
        let edge = Edge {
            from: 2 * v + 1,
            to: 2 * v + 2,
            cost: 0,
        };
        store_edge(network, v, kept[v].then_some(edge));
    }
}

// From the out side of an arc's tail to the in side of its head, where both are useful; from the last arc down.
fn lay_arcs(s: &[u8], kept: &[bool; Graph::ROOM_VERTICES], network: &mut Network)
    requires reads { Reads s.now × Tells s.now (useful (graph_of s.now)) kept.now }
    requires edges_laid { EdgesLaid s.now (vertex_count s.now) network.old.from network.old.to network.old.cost }
    ensures { EdgesLaid s.now (vertex_count s.now + arc_count s.now) network.new.from network.new.to network.new.cost }
{
    let n = vertex_count(s);
    let m = arc_count(s);
    let base = first_arc_at(s);
    for e in n..n + m {
        let a = n + m - (e + 1);
        let u = arc_tail(s, base, a);
        let v = arc_head(s, base, a);
        let edge = Edge {
            from: 2 * u + 2,
            to: 2 * v + 1,
            cost: arc_cost(s, base, a) as u64,
        };
        let used = kept[u] && kept[v];
        store_edge(network, e, used.then_some(edge));
    }
}

// From the root to the in side of each useful start, at the opening price; from the last vertex down.
fn lay_openings(
    s: &[u8],
    roles: &[Role; Graph::ROOM_VERTICES],
    kept: &[bool; Graph::ROOM_VERTICES],
    network: &mut Network,
)
    requires reads { Reads s.now × Roles s.now roles.now × Tells s.now (useful (graph_of s.now)) kept.now }
    requires edges_laid { EdgesLaid s.now (vertex_count s.now + arc_count s.now) network.old.from network.old.to network.old.cost }
    ensures { EdgesLaid s.now (2 * vertex_count s.now + arc_count s.now) network.new.from network.new.to network.new.cost }
{
    let n = vertex_count(s);
    let m = arc_count(s);
    let price = opening_price(s) as u64;
    for e in n + m..2 * n + m {
        let v = 2 * n + m - (e + 1);
        let edge = Edge {
            from: 0,
            to: 2 * v + 1,
            cost: price,
        };
        let used = is_start(s, roles, v) && kept[v];
        store_edge(network, e, used.then_some(edge));
    }
}

// From the out side of each useful end back to the root.
fn lay_closings(
    s: &[u8],
    roles: &[Role; Graph::ROOM_VERTICES],
    kept: &[bool; Graph::ROOM_VERTICES],
    network: &mut Network,
)
    requires reads { Reads s.now × Roles s.now roles.now × Tells s.now (useful (graph_of s.now)) kept.now }
    requires edges_laid { EdgesLaid s.now (2 * vertex_count s.now + arc_count s.now) network.old.from network.old.to network.old.cost }
    ensures { EdgesLaid s.now (plain_slots s.now) network.new.from network.new.to network.new.cost }
{
    let n = vertex_count(s);
    let m = arc_count(s);
    for v in 0..n {
        let edge = Edge {
            from: 2 * v + 2,
            to: 0,
            cost: 0,
        };
        let used = is_end(s, roles, v) && kept[v];
        store_edge(network, 2 * n + m + v, used.then_some(edge));
    }
}

// From the in side of each prepared read's first vertex to the out side of its last.
fn lay_reads(
    s: &[u8],
    rows: &[[u8; ROW]; ROWS],
    lens: &[usize; ROWS],
    count: usize,
    network: &mut Network,
)
    requires reads { Reads s.now × Leaves rows.now lens.now count (prepared_of s.now) }
    requires edges_laid { EdgesLaid s.now (plain_slots s.now) network.old.from network.old.to network.old.cost }
    ensures { EdgesLaid s.now (all_slots s.now) network.new.from network.new.to network.new.cost }
{
    let plain = 3 * vertex_count(s) + arc_count(s);
    for i in 0..count {
        let first = usize::from(rows[i][0]);
        let last = usize::from(rows[i][lens[i] - 1]);
        let edge = Edge {
            from: 2 * first + 1,
            to: 2 * last + 2,
            cost: 0,
        };
        store_edge(network, plain + i, Some(edge));
    }
}

// All edges: vertices, arcs, openings, closings, reads. A flow may use all nodes, and all edges but those of the reads, which lie behind the others.
pub fn lay_edges(
    s: &[u8],
    roles: &[Role; Graph::ROOM_VERTICES],
    kept: &[bool; Graph::ROOM_VERTICES],
    rows: &[[u8; ROW]; ROWS],
    lens: &[usize; ROWS],
    count: usize,
    network: &mut Network,
)
    requires reads { Reads s.now × Roles s.now roles.now × Tells s.now (useful (graph_of s.now)) kept.now }
    requires leaves { Leaves rows.now lens.now count (prepared_of s.now) }
    requires edges_laid { EdgesLaid s.now 0 network.old.from network.old.to network.old.cost }
    ensures laid { EdgesLaid s.now (all_slots s.now) network.new.from network.new.to network.new.cost }
    ensures in_use { (network.new.nodes ≡ 2 * vertex_count s.now + 1) × (network.new.edges ≡ plain_slots s.now) }
{
    lay_vertices(s, kept, network);
    lay_arcs(s, kept, network);
    lay_openings(s, roles, kept, network);
    lay_closings(s, roles, kept, network);
    lay_reads(s, rows, lens, count, network);
    let n = vertex_count(s);
    network.nodes = 2 * n + 1;
    network.edges = 3 * n + arc_count(s);
}

// On the edge of a vertex lies its rest.
fn load_vertices(s: &[u8], passed: &[usize; Graph::ROOM_VERTICES], load: &mut [u64; EDGES])
    requires reads { Reads s.now × VerticesCounted s.now passed.now }
    requires loads_laid { LoadsLaid s.now 0 load.old }
    ensures { LoadsLaid s.now (vertex_count s.now) load.new }
{
    for v in 0..vertex_count(s) {
        load[v] = vertex_demand(s, v).saturating_sub(passed[v]) as u64;
    }
}

// On the edge of an arc lies its rest.
fn load_arcs(s: &[u8], passed: &[usize; Graph::ROOM_ARCS], load: &mut [u64; EDGES])
    requires reads { Reads s.now × ArcsCounted s.now passed.now }
    requires loads_laid { LoadsLaid s.now (vertex_count s.now) load.old }
    ensures { LoadsLaid s.now (vertex_count s.now + arc_count s.now) load.new }
{
    let n = vertex_count(s);
    let m = arc_count(s);
    let base = first_arc_at(s);
    for e in n..n + m {
        let a = n + m - (e + 1);
        load[e] = arc_demand(s, base, a).saturating_sub(passed[a]) as u64;
    }
}

// On an opening and on a closing lies nothing, and on each prepared read one unit.
fn load_ends(s: &[u8], count: usize, load: &mut [u64; EDGES])
    requires reads { Reads s.now × (count ≡ length (prepared_of s.now)) × (count ≤ table_rows) }
    requires loads_laid { LoadsLaid s.now (vertex_count s.now + arc_count s.now) load.old }
    ensures { LoadsLaid s.now (all_slots s.now) load.new }
{
    let n = vertex_count(s);
    let m = arc_count(s);
    let plain = 3 * n + m;
    load[n + m..plain].fill(0);
    load[plain..plain + count].fill(1);
}

// All first loads.
pub fn lay_loads(
    s: &[u8],
    vertices: &[usize; Graph::ROOM_VERTICES],
    arcs: &[usize; Graph::ROOM_ARCS],
    count: usize,
    load: &mut [u64; EDGES],
)
    requires reads { Reads s.now × (count ≡ length (prepared_of s.now)) × (count ≤ table_rows) }
    requires vertices_counted { VerticesCounted s.now vertices.now × ArcsCounted s.now arcs.now }
    requires loads_laid { LoadsLaid s.now 0 load.old }
    ensures { LoadsLaid s.now (all_slots s.now) load.new }
{
    load_vertices(s, vertices, load);
    load_arcs(s, arcs, load);
    load_ends(s, count, load);
}

// The root and both sides of each useful vertex are live.
pub fn lay_live(s: &[u8], kept: &[bool; Graph::ROOM_VERTICES], live: &mut [bool; NODES])
    requires reads { Reads s.now × Tells s.now (useful (graph_of s.now)) kept.now }
    requires live_len { length live.old ≡ most_nodes }
    ensures { LiveLaid s.now (2 * vertex_count s.now + 1) live.new }
{
    live[0] = true;
    for v in 0..vertex_count(s) {
        live[2 * v + 1] = kept[v];
        live[2 * v + 2] = kept[v];
    }
}

// Takes the lesser of what enters and what leaves off both, at each node.
fn net(nodes: usize, balance: &mut Balance)
    requires nodes_le_most_nodes { nodes ≤ most_nodes }
    requires netted { Netted 0 balance.old.surplus balance.old.deficit balance.old.surplus balance.old.deficit }
    ensures { Netted nodes balance.old.surplus balance.old.deficit balance.new.surplus balance.new.deficit }
{
    for u in 0..nodes {
        let lesser = balance.surplus[u].min(balance.deficit[u]);
        balance.surplus[u] -= lesser;
        balance.deficit[u] -= lesser;
    }
}

// What has to move, by the loads on so many edges: a node that more enters than leaves has a surplus, one that more leaves than enters a deficit.
pub fn lay_balance(network: &Network, edges: usize, load: &[u64; EDGES], balance: &mut Balance)
    requires summable { Summable network.now.nodes edges network.now.from network.now.to load.now }
    requires tallied { Tallied network.now.nodes 0 network.now.from network.now.to load.now balance.old.surplus balance.old.deficit }
    ensures { Balanced network.now.nodes edges network.now.from network.now.to load.now balance.new.surplus balance.new.deficit }
{
    tally(
        network,
        edges,
        load,
        &mut balance.surplus,
        &mut balance.deficit,
    );
    net(network.nodes, balance);
}
