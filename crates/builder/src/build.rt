// The builder's call, and the stages that it goes through. Each stage lends the arrays that it fills; none is copied.
ghost use Rattle.std.specs.Prelude.{◌≡◌, cond, ltb, ℕ, ◌+◌, ◌*◌, ◌<◌, ◌≤◌, length, replicate};
ghost use Rattle.mathematics.specs.Exists.{Coverable};
ghost use Rattle.mathematics.specs.Reach.{useful};
ghost use Rattle.forms.specs.GraphForm.{vertex_count};
ghost use Rattle.forms.specs.GraphOf.{graph_of};
ghost use Rattle.forms.specs.GraphReads.{Reads};
ghost use Rattle.forms.specs.GraphFaults.{refusal, nothing_refused, then, graph_verdict};
ghost use Rattle.forms.specs.BuildFaults.{room_asked};
ghost use Rattle.forms.specs.Refusals.{verdict_of};
ghost use Rattle.reads.specs.ReadTable.{Leaves, TableSized};
ghost use Rattle.certify.specs.Certify.{CountsLow};
ghost use Rattle.network.specs.Network.{nth, most_nodes, most_edges, most_moved};
ghost use Rattle.paths.specs.Slots.{prepared_of, plain_slots};
ghost use Rattle.reach.specs.Reached.{Reachable, Tells, lie_verdict};
ghost use Rattle.paths.specs.Peel.{PathTable, Peeled, collected};
ghost use Rattle.builder.specs.Finish.{Added, Loaded, Flowed, Answered};
ghost use Rattle.builder.specs.Build.{BuildPromise, built_of};
ghost use Rattle.builder.specs.Stages.{ReadsReady, Layable, NetworkLaid, OneAdded, AtBase};
ghost use Rattle.forms.specs.Layout.{longest_answer};
ghost use Rattle.forms.specs.Limits.{max_demand};
ghost use Rattle.forms.specs.Roles.{Roles};

use crate::finish::{final_marks, final_price};
use certify::{count_reads, load_reads};
use checker::reader::read_graph;
use forms::arcs::first_arcs;
use forms::fields::vertex_count;
use forms::layout::longest_answer;
use forms::roles::{Role, roles};
use forms::{Fault, Graph, Refused};
use network::{BASE, Balance, Chains, EDGES, Flow, NODES, Network, carry_all, chain};
use paths::{Paths, peel_all};
use reach::{Reach, first_lacking, table_of};
use reads::{ROW, ROWS, prepare_reads};
use wiring::{lay_balance, lay_edges, lay_live, lay_loads};
use writing::{Marks, write_answer};

// How many of the prepared reads pass each vertex and each arc.
#[derive(Drop)]
struct Passed {
    vertices: [usize; Graph::ROOM_VERTICES],
    arcs: [usize; Graph::ROOM_ARCS],
}

// Fills the table with the prepared reads and counts what they pass; gives how many there are.
fn prepare_table(
    s: &[u8],
    rows: &mut [[u8; ROW]; ROWS],
    lens: &mut [usize; ROWS],
    passed: &mut Passed,
) -> usize
    requires { Reads s.now × TableSized rows.old lens.old × CountsLow s.now passed.old.vertices passed.old.arcs 0 }
    ensures { ReadsReady s.now rows.new lens.new result passed.new.vertices passed.new.arcs }
{
    let all = load_reads(s, rows, lens);
    let count = prepare_reads(rows, lens, all);
    let first = first_arcs(s);
    count_reads(
        s,
        &first,
        rows,
        lens,
        count,
        &mut passed.vertices,
        &mut passed.arcs,
    );
    count
}

// The vertices that a start leads to and that lead on to an end.
fn keep_useful(s: &[u8], reach: &Reach) -> [bool; Graph::ROOM_VERTICES]
    requires { Reachable s.now reach.now }
    ensures { Tells s.now (useful (graph_of s.now)) result }
{
    table_of(vertex_count(s), |v| reach.lies(v, v))
}

// Lays the working network: edges, first loads, live nodes, and what has to move.
fn lay_network(
    s: &[u8],
    roles: &[Role; Graph::ROOM_VERTICES],
    kept: &[bool; Graph::ROOM_VERTICES],
    rows: &[[u8; ROW]; ROWS],
    lens: &[usize; ROWS],
    count: usize,
    passed: &Passed,
    network: &mut Network,
    full: &mut [u64; EDGES],
    live: &mut [bool; NODES],
    balance: &mut Balance,
)
    requires layable { Layable s.now kept.now × Roles s.now roles.now }
    requires reads_ready { ReadsReady s.now rows.now lens.now count passed.now.vertices passed.now.arcs }
    requires nothing_moves { (balance.old.surplus ≡ replicate most_nodes 0) × (balance.old.deficit ≡ replicate most_nodes 0) }
    ensures laid { NetworkLaid s.now network.new.from network.new.to network.new.cost full.new live.new balance.new.surplus balance.new.deficit }
    ensures in_use { (network.new.nodes ≡ 2 * vertex_count s.now + 1) × (network.new.edges ≡ plain_slots s.now) }
{
    lay_edges(s, roles, kept, rows, lens, count, network);
    lay_loads(s, &passed.vertices, &passed.arcs, count, full);
    lay_live(s, kept, live);
    lay_balance(network, network.edges + count, full, balance);
}

// Adds what the flow carries on edge e to its first load. A loop stands for a link that is not in use: what may lie on it goes nowhere, and is dropped.
fn add_load(network: &Network, e: usize, load: &mut [u64; EDGES], full: &mut [u64; EDGES])
    requires { (e < most_edges) × (nth load.old e ≤ most_moved) × (nth full.old e ≤ max_demand) }
    ensures { OneAdded e network.now.from network.now.to load.old full.old load.new full.new }
{
    if network.from[e] == network.to[e] {
        load[e] = 0;
    } else {
        full[e] += load[e];
    }
}

// Adds what the flow carries to all first loads but those of the reads.
fn add_loads(network: &Network, load: &mut [u64; EDGES], full: &mut [u64; EDGES])
    requires few { network.now.edges ≤ most_edges }
    requires by_index { (e : ℕ) → e < network.now.edges → (nth load.old e ≤ most_moved) × (nth full.old e ≤ max_demand) }
    ensures { Added network.now.edges network.now.from network.now.to load.old full.old load.new full.new }
{
    for e in 0..network.edges {
        add_load(network, e, load, full);
    }
}

// Takes weighted paths off the full loads. The edges of the reads, which lie behind the others, are in use too.
fn take_paths(
    s: &[u8],
    network: &mut Network,
    rows: &[[u8; ROW]; ROWS],
    lens: &[usize; ROWS],
    count: usize,
    full: &mut [u64; EDGES],
    paths: &mut Paths,
)
    requires reads { Reads s.now × Coverable (graph_of s.now) × Leaves rows.now lens.now count (prepared_of s.now) × Loaded s.now network.old.from network.old.to full.old }
    requires in_use { (network.old.nodes ≡ 2 * vertex_count s.now + 1) × (network.old.edges ≡ plain_slots s.now) }
    ensures peeled { Peeled s.now full.old (collected paths.new) }
    ensures table { PathTable paths.new }
{
    let n = vertex_count(s);
    let plain = network.edges;
    network.edges = plain + count;
    let mut chains = Chains::empty();
    chain(network.nodes, network.edges, &network.from, &mut chains);
    peel_all(s, n, plain, network, &chains, rows, lens, full, paths);
}

// Finds the flow of lowest cost: marks of the nodes, and what each link carries in all.
fn find_flow(
    s: &[u8],
    roles: &[Role; Graph::ROOM_VERTICES],
    kept: &[bool; Graph::ROOM_VERTICES],
    rows: &[[u8; ROW]; ROWS],
    lens: &[usize; ROWS],
    count: usize,
    passed: &Passed,
    fuel: usize,
    network: &mut Network,
    flow: &mut Flow,
    full: &mut [u64; EDGES],
)
    requires layable { Layable s.now kept.now × Roles s.now roles.now }
    requires reads_ready { ReadsReady s.now rows.now lens.now count passed.now.vertices passed.now.arcs }
    requires nothing_moved { ((e : ℕ) → nth flow.old.load e ≡ 0) × AtBase flow.old.mark }
    ensures flowed { Flowed s.now network.new.from network.new.to flow.new.mark full.new }
    ensures in_use { (network.new.nodes ≡ 2 * vertex_count s.now + 1) × (network.new.edges ≡ plain_slots s.now) }
{
    let mut live = [false; NODES];
    let mut balance = Balance::empty();
    lay_network(
        s,
        roles,
        kept,
        rows,
        lens,
        count,
        passed,
        network,
        full,
        &mut live,
        &mut balance,
    );
    carry_all(network, fuel, &live, flow, &mut balance);
    add_loads(network, &mut flow.load, full);
}

// Builds and writes the answer for a graph that a cover exists for; gives its length.
fn answer(
    s: &[u8],
    roles: &[Role; Graph::ROOM_VERTICES],
    reach: &Reach,
    fuel: usize,
    out: &mut [u8],
) -> usize
    requires reachable { Reachable s.now reach.now × Roles s.now roles.now × Coverable (graph_of s.now) × ((graph_verdict s.now).number ≡ 0) }
    requires s_in_bounds { longest_answer s.now ≤ length out.old }
    ensures { Answered s.now out.old out.new result }
{
    // These tables are made first: a local's room is filled with 0 where its function begins and again where the local is made, unless the one follows
    // straight on the other. Filled twice, they took an eighth of a gene's time.
    let mut paths = Paths::empty();
    let mut marks = Marks::empty();
    let mut network = Network::empty();
    let mut flow = Flow {
        load: [0; EDGES],
        mark: [BASE; NODES],
    };
    let mut full = [0; EDGES];
    let kept = keep_useful(s, reach);
    // Kept: document 01 has the table of reads as a local by value, a row for each read, with its lengths beside.
    let mut rows = [[0; ROW]; ROWS];
    let mut lens = [0; ROWS];
    let mut passed = Passed {
        vertices: [0; Graph::ROOM_VERTICES],
        arcs: [0; Graph::ROOM_ARCS],
    };
    let count = prepare_table(s, &mut rows, &mut lens, &mut passed);
    find_flow(
        s,
        roles,
        &kept,
        &rows,
        &lens,
        count,
        &passed,
        fuel,
        &mut network,
        &mut flow,
        &mut full,
    );
    final_marks(s, reach, &flow.mark, &mut marks);
    let price = final_price(s, &full, &passed.arcs);
    take_paths(s, &mut network, &rows, &lens, count, &mut full, &mut paths);
    write_answer(s, out, price, &marks, &paths)
}

// The refusal, once the graph reads: 8 where an item lies on no path, then 9 where the output has too little room.
fn first_refusal(s: &[u8], reach: &Reach, room: usize) -> Result<(), Refused>
    requires { Reachable s.now reach.now }
    ensures { verdict_of result ≡ then (lie_verdict (graph_of s.now) nothing_refused) (cond (ltb room (room_asked s.now)) (refusal 9 0) nothing_refused) }
{
    let asked = longest_answer(s);
    first_lacking(s, reach)?;
    if room < asked {
        return Err(Refused::new(Fault::OutputShort, 0));
    }
    Ok(())
}

// Builds as `build` does, with so many steps at the most for the guess of the flow: what is promised is the same for any number. With 0 every guess
// fails, and the flow is searched for.
pub fn build_within(graph: &[u8], out: &mut [u8], fuel: usize) -> Result<usize, Refused>
    ensures { BuildPromise graph.now out.old out.new (built_of result) }
{
    read_graph(graph)?;
    let roles = roles(graph);
    let reach = Reach::of(graph, &roles);
    first_refusal(graph, &reach, out.len())?;
    Ok(answer(graph, &roles, &reach, fuel, out))
}

// The most steps of a guess: many times what any graph took that was tried.
pub const FUEL: usize = 10_000;

// Builds a lowest-price cover of the graph and writes its answer form at the front of the output; answers how many bytes it wrote, or why it wrote none:
// 1 to 7 where the graph does not read, then 8, then 9.
pub fn build(graph: &[u8], out: &mut [u8]) -> Result<usize, Refused>
    ensures { BuildPromise graph.now out.old out.new (built_of result) }
{
    build_within(graph, out, FUEL)
}
