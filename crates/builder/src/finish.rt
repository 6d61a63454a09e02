// The end of a build: the marks of the vertices, and the price.
ghost use Rattle.std.specs.Prelude.{◌≡◌, ◌-◌, ◌≤◌, cond, ◌&&◌, sum};
ghost use Rattle.network.specs.Network.{base, most_moved, span, highest};
ghost use Rattle.reach.specs.Reached.{Reachable};
ghost use Rattle.builder.specs.Finish.{MarksHeld, Priced, price_from};

use forms::Graph;
use forms::fields::{arc_cost, arc_count, first_arc_at, opening_price, vertex_count};
use network::{BASE, EDGES, NODES, SPAN};
use reach::Reach;
use writing::Marks;

// The least and the greatest mark, as they are held, with the base added.
const LOWEST: u64 = BASE - SPAN;

const HIGHEST: u64 = BASE + SPAN;

// The mark of a side of a vertex, held with the base added: its node's where the vertex is useful; the greatest where no start leads to it; else the least.
fn side_mark(reached: bool, reaching: bool, own: u64) -> u64
    ensures { result ≡ cond (reached && reaching) own (cond reached (base - span) highest) }
{
    match (reached, reaching) {
        (true, true) => own,
        (true, false) => LOWEST,
        (false, _) => HIGHEST,
    }
}

// The final marks of all vertices.
pub fn final_marks(s: &[u8], reach: &Reach, mark: &[u64; NODES], marks: &mut Marks)
    requires { Reachable s.now reach.now }
    ensures { MarksHeld s.now mark.now marks.new.into marks.new.outof }
{
    for v in 0..vertex_count(s) {
        marks.into[v] = side_mark(reach.reached[v], reach.reaching[v], mark[2 * v + 1]);
        marks.outof[v] = side_mark(reach.reached[v], reach.reaching[v], mark[2 * v + 2]);
    }
}

// How many copies the loads on the openings open.
fn copies(openings: &[u64]) -> u64
    requires { sum openings.now ≤ most_moved }
    ensures { result ≡ sum openings.now }
{
    openings.iter().sum()
}

// The price: the opening price for each copy, and for each arc its cost for each copy through it.
pub fn final_price(s: &[u8], full: &[u64; EDGES], arc_reads: &[usize; Graph::ROOM_ARCS]) -> u64
    requires { Priced s.now full.now arc_reads.now }
    ensures { result ≡ price_from s.now full.now }
{
    let n = vertex_count(s);
    let m = arc_count(s);
    let first = first_arc_at(s);
    let mut price = copies(&full[n + m..n + m + n]) * (opening_price(s) as u64);
    for a in 0..m {
        let total = full[n + (m - (a + 1))] + (arc_reads[a] as u64);
        price += total * (arc_cost(s, first, a) as u64);
    }
    price
}
