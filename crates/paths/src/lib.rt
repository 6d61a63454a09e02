// Taking weighted paths off the loads: walks from the root back to the root along loaded edges, each with the least load on it.
// Kept: the rows and lengths of the reads are two arrays here, since document 01 names that form of their table.
#![tactic(auto)]

// The paths that are taken off, merged in order.
mod collect;

ghost use Rattle.std.specs.Prelude.{◌≡◌, ℕ, ◌+◌, ◌*◌, ◌<◌, ◌≤◌, map, length, take};
ghost use Rattle.mathematics.specs.Lists.{All};
ghost use Rattle.mathematics.specs.Links.{link_vertices, path_of};
ghost use Rattle.network.specs.Network.{nth, Chained, most_nodes, most_edges, most_moved};
ghost use Rattle.forms.specs.GraphForm.{vertex_count};
ghost use Rattle.paths.specs.Slots.{prepared_of, all_slots, reading_slot, link_at};
ghost use Rattle.paths.specs.Peel.{path_at, collected, PathTable, ReadsHeld, Written, GoesRound, worth_of, Circles, plus_one, NextLoaded, FirstInChain, Onward, Walked, TakenOff, Ready, opens_at, PeeledOne, Peeled};
ghost use Rattle.reads.specs.ReadTable.{row_length};

pub use crate::collect::{Path, Paths};
use network::{Chains, EDGES, NODES, Network};
use reads::{ROW, ROWS};

// A walk's number of edges, and the least load on them.
#[derive(Clone, Copy, Debug, PartialEq, Eq)]
struct Trip {
    len: usize,
    amount: u64,
}

// The first loaded edge in u's chain, where there is one. It is looked for from where the search before it ended (`onward`): loads only fall here, so an
// edge that was passed stays empty.
fn next_loaded(
    network: &Network,
    chains: &Chains,
    load: &[u64; EDGES],
    u: usize,
    onward: &mut [usize; NODES],
) -> Option<usize>
    requires sizes { (network.now.nodes ≤ most_nodes) × (network.now.edges ≤ most_edges) × (u < network.now.nodes) }
    requires chained { Chained network.now.nodes network.now.edges network.now.from chains.now.head chains.now.next }
    requires onward { Onward network.now.nodes network.now.edges network.now.from load.now onward.old }
    ensures next { NextLoaded network.now.edges network.now.from load.now u (plus_one result) }
    ensures first { FirstInChain network.now.edges network.now.from load.now u (plus_one result) }
    ensures onward_2 { Onward network.now.nodes network.now.edges network.now.from load.now onward.new }
{
    let mut h = onward[u];
    while h > 0 {
        if load[h - 1] > 0 {
            onward[u] = h;
            return Some(h - 1);
        }
        h = chains.next[h - 1];
    }
    None
}

// From the root along loaded edges, from the edge `first` on, until one leads back to the root. What comes into a node goes out, so there is always a way on.
fn walk(
    network: &Network,
    chains: &Chains,
    load: &[u64; EDGES],
    first: usize,
    onward: &mut [usize; NODES],
    way: &mut [usize; NODES],
) -> Trip
    requires sizes { (network.now.nodes ≤ most_nodes) × (network.now.edges ≤ most_edges) }
    requires chained { Chained network.now.nodes network.now.edges network.now.from chains.now.head chains.now.next }
    requires onward { Onward network.now.nodes network.now.edges network.now.from load.now onward.old }
    requires circles { Circles network.now.nodes network.now.edges network.now.from network.now.to load.now }
    requires begins { NextLoaded network.now.edges network.now.from load.now 0 (first + 1) }
    ensures fits { result.len ≤ most_nodes }
    ensures onward_2 { Onward network.now.nodes network.now.edges network.now.from load.now onward.new }
    ensures walked { Walked network.now.edges network.now.from network.now.to load.now (take result.len way.new) result.amount }
{
    way[0] = first;
    let mut len: usize = 1;
    let mut amount = load[first];
    let mut u = network.to[first];
    while u > 0 {
        let e = next_loaded(network, chains, load, u, onward).unwrap();
        way[len] = e;
        len += 1;
        amount = amount.min(load[e]);
        u = network.to[e];
    }
    Trip { len, amount }
}

// Each edge of the way loses the amount.
fn take_off(network: &Network, way: &[usize], amount: u64, load: &mut [u64; EDGES])
    requires few { network.now.edges ≤ most_edges }
    requires walked { Walked network.now.edges network.now.from network.now.to load.old way.now amount }
    ensures { TakenOff network.now.edges load.old way.now amount load.new }
{
    for &e in way {
        load[e] -= amount;
    }
}

// Puts the vertices of the edge's link behind the first r vertices of a path: an inside edge has its vertex, a read its vertices. Gives how many there are now.
fn put_link(
    s: &[u8],
    vertices: usize,
    plain: usize,
    rows: &[[u8; ROW]; ROWS],
    lens: &[usize; ROWS],
    e: usize,
    row: &mut [u8; ROW],
    r: usize,
) -> usize
    requires held { ReadsHeld s.now vertices plain rows.now lens.now }
    requires room { (e < all_slots s.now) × (r + length (link_vertices (link_at s.now e)) ≤ row_length) }
    ensures { Written row.old r (link_vertices (link_at s.now e)) row.new result }
{
    if e < vertices {
        row[r] = e as u8;
        return r + 1;
    }
    if e < plain {
        return r;
    }
    let i = e - plain;
    let size = lens[i];
    row[r..r + size].copy_from_slice(&rows[i][..size]);
    r + size
}

// The vertices of the way's links, written to the front of a row. Gives how many there are.
fn path_of(
    s: &[u8],
    vertices: usize,
    plain: usize,
    rows: &[[u8; ROW]; ROWS],
    lens: &[usize; ROWS],
    way: &[usize],
    row: &mut [u8; ROW],
) -> usize
    requires held { ReadsHeld s.now vertices plain rows.now lens.now }
    requires walk { All (λ e. e < all_slots s.now) way.now }
    requires room { length (path_of (map (link_at s.now) way.now)) ≤ row_length }
    ensures fits { result ≤ row_length }
    ensures path { take result row.new ≡ path_of (map (link_at s.now) way.now) }
{
    let mut r: usize = 0;
    for &e in way {
        r = put_link(s, vertices, plain, rows, lens, e, row, r);
    }
    r
}

// Takes one walk off the loads, from the root's edge `first` on, and collects its path. The way is lent, whatever it holds: made here, it would be filled
// anew for each walk.
fn peel_one(
    s: &[u8],
    vertices: usize,
    plain: usize,
    network: &Network,
    chains: &Chains,
    rows: &[[u8; ROW]; ROWS],
    lens: &[usize; ROWS],
    first: usize,
    onward: &mut [usize; NODES],
    way: &mut [usize; NODES],
    load: &mut [u64; EDGES],
    paths: &mut Paths,
)
    requires ready { Ready s.now vertices plain network.now.nodes network.now.edges network.now.from chains.now.head chains.now.next rows.now lens.now }
    requires goes { GoesRound s.now (2 * vertex_count s.now + 1) network.now.from network.now.to load.old }
    requires onward { Onward network.now.nodes network.now.edges network.now.from load.old onward.old }
    requires begins { NextLoaded network.now.edges network.now.from load.old 0 (first + 1) }
    requires table { PathTable paths.old }
    requires room { (paths.old.count < most_edges) × ((k : ℕ) → k < paths.old.count → (path_at paths.old k).weight + worth_of s.now load.old (opens_at s.now) ≤ most_moved) }
    ensures peeled { PeeledOne s.now network.now.from network.now.to load.old load.new paths.old paths.new }
    ensures onward_2 { Onward network.now.nodes network.now.edges network.now.from load.new onward.new }
{
    let mut row = [0u8; ROW];
    let trip = walk(network, chains, load, first, onward, way);
    let edges = &way[..trip.len];
    let size = path_of(s, vertices, plain, rows, lens, edges, &mut row);
    take_off(network, edges, trip.amount, load);
    paths.insert(&row[..size], trip.amount);
}

// Takes walks off the loads until the root sends nothing, and collects their paths, whatever the table held before.
pub fn peel_all(
    s: &[u8],
    vertices: usize,
    plain: usize,
    network: &Network,
    chains: &Chains,
    rows: &[[u8; ROW]; ROWS],
    lens: &[usize; ROWS],
    load: &mut [u64; EDGES],
    paths: &mut Paths,
)
    requires ready { Ready s.now vertices plain network.now.nodes network.now.edges network.now.from chains.now.head chains.now.next rows.now lens.now }
    requires goes { GoesRound s.now (2 * vertex_count s.now + 1) network.now.from network.now.to load.old }
    requires carries { (r : ℕ) → r < length (prepared_of s.now) → 1 ≤ nth load.old (reading_slot s.now r) }
    requires low { worth_of s.now load.old (opens_at s.now) ≤ most_moved }
    ensures peeled { Peeled s.now load.old (collected paths.new) }
    ensures table { PathTable paths.new }
{
    paths.count = 0;
    let mut onward = chains.head;
    let mut way = [0; NODES];
    while let Some(first) = next_loaded(network, chains, load, 0, &mut onward) {
        peel_one(
            s,
            vertices,
            plain,
            network,
            chains,
            rows,
            lens,
            first,
            &mut onward,
            &mut way,
            load,
            paths,
        );
    }
}
