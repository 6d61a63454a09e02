// The graph reader: every byte string is read to its first fault, in document 01's order, and no byte outside it.
ghost use Rattle.std.specs.Prelude.{◌≡◌, ◌+◌, ◌<◌, ◌≤◌, length};
ghost use Rattle.forms.specs.ArcTable.{ArcTable, goes_on};
ghost use Rattle.forms.specs.GraphFaults.{header_verdict, vertex_fault, arc_fault, first_fault, walks, read_fault, then, arcs_verdict, reads_verdict, graph_verdict};
ghost use Rattle.forms.specs.GraphForm.{header_length, length_word, vertex_at, vertex_count, arc_count, first_arc_at, arc_at, read_count, opening_price, first_read_at};
ghost use Rattle.forms.specs.GraphOf.{arcs_of};
ghost use Rattle.forms.specs.GraphReads.{HeaderRight};
ghost use Rattle.forms.specs.Layout.{version as version_of, newest};
ghost use Rattle.forms.specs.Limits.{room_vertices, room_arcs};
ghost use Rattle.forms.specs.Refusals.{verdict_of, fault_of};

use forms::arcs::{find_arc, first_arcs};
use forms::fields::{
    arc_at, arc_cost, arc_count_at, arc_demand, arc_ends, arc_head, arc_tail, first_arc_at,
    first_read_at, header_length, length_word, opening_price_at, read_count_at, read_end,
    read_length, read_vertices_at, vertex_at, vertex_count, vertex_demand, vertex_end,
    vertex_flags,
};
use forms::layout::{max_arcs, max_flag, max_read_length, max_reads, max_vertices, version};
use forms::{Fault, Graph, Header, Refused};

// What is wrong with the counts and the opening price of a header whose length and version are right: 3 or 4.
#[tactic(auto, using(std::proofs::lemmas::Bool::Decides::nat_tests), unfolding(forms::specs::GraphFaults::header_verdict))]
fn counts_verdict(s: &[u8], header: Header) -> Result<(), Refused>
    requires s_in_bounds { (header_length s.now ≤ length s.now) × (length_word s.now ≡ length s.now) × (1 ≤ version_of s.now) × (version_of s.now ≤ newest) }
    requires vertices_value { (header.vertices ≡ vertex_count s.now) × (header.arcs ≡ arc_count s.now) × (header.reads ≡ read_count s.now) × (header.opening ≡ opening_price s.now) }
    ensures { verdict_of result ≡ header_verdict s.now }
{
    if header.vertices == 0 || max_vertices(s) < header.vertices {
        return Err(Refused::new(Fault::GraphCount, Graph::AT_VERTICES));
    }
    if max_arcs(s) < header.arcs {
        return Err(Refused::new(Fault::GraphCount, arc_count_at(s)));
    }
    if max_reads(s) < header.reads {
        return Err(Refused::new(Fault::GraphCount, read_count_at(s)));
    }
    if Graph::MAX_OPENING < header.opening {
        return Err(Refused::new(Fault::GraphNumber, opening_price_at(s)));
    }
    Ok(())
}

// What is wrong with the header: 1, 2, 3 or 4.
#[tactic(auto, using(std::proofs::lemmas::Bool::Decides::nat_tests), unfolding(forms::specs::GraphFaults::header_verdict))]
fn header_verdict(s: &[u8]) -> Result<(), Refused>
    ensures { verdict_of result ≡ header_verdict s.now }
{
    if s.len() < header_length(s) || length_word(s) != s.len() {
        return Err(Refused::new(Fault::GraphLength, 0));
    }
    let known = version(s);
    if known == 0 || Graph::NEWEST < known {
        return Err(Refused::new(Fault::GraphVersion, Graph::AT_VERSION));
    }
    counts_verdict(s, Header::of(s))
}

// What is wrong with the record of vertex v: 5, 4 or nothing.
#[tactic(auto, using(std::proofs::lemmas::Bool::Decides::nat_tests), unfolding(forms::specs::GraphFaults::vertex_fault))]
fn vertex_fault(s: &[u8], v: usize) -> Result<(), Fault>
    requires { v < room_vertices }
    ensures { fault_of result ≡ vertex_fault s.now v }
{
    if s.len() < vertex_end(s, v) {
        return Err(Fault::GraphEnd);
    }
    if max_flag(s) < vertex_flags(s, v) || Graph::MAX_DEMAND < vertex_demand(s, v) {
        return Err(Fault::GraphNumber);
    }
    Ok(())
}

// The first faulty one of count vertex records.
fn vertices_verdict(s: &[u8], count: usize) -> Result<(), Refused>
    requires { count ≤ room_vertices }
    ensures { verdict_of result ≡ first_fault (vertex_fault s.now) (vertex_at s.now) count 0 }
{
    for v in 0..count {
        if let Err(fault) = vertex_fault(s, v) {
            return Err(Refused::new(fault, vertex_at(s, v)));
        }
    }
    Ok(())
}

// What is wrong with the record of arc a, in a form with n vertices: 5, 4, 6 or nothing.
#[tactic(auto, using(std::proofs::lemmas::Bool::Decides::nat_tests), unfolding(forms::specs::GraphFaults::arc_fault))]
fn arc_fault(s: &[u8], n: usize, base: usize, a: usize) -> Result<(), Fault>
    requires { (n ≡ vertex_count s.now) × (base ≡ first_arc_at s.now) × (n ≤ room_vertices) × (a < room_arcs) }
    ensures { fault_of result ≡ arc_fault s.now (arc_at s.now a) }
{
    if s.len() < arc_at(s, base, a + 1) {
        return Err(Fault::GraphEnd);
    }
    if Graph::MAX_COST < arc_cost(s, base, a) || Graph::MAX_DEMAND < arc_demand(s, base, a) {
        return Err(Fault::GraphNumber);
    }
    let head = arc_head(s, base, a);
    if head <= arc_tail(s, base, a) || n <= head {
        return Err(Fault::Arc);
    }
    if 0 < a && arc_ends(s, base, a) <= arc_ends(s, base, a - 1) {
        return Err(Fault::Arc);
    }
    Ok(())
}

// The first faulty one of count arc records.
fn arcs_verdict(s: &[u8], n: usize, count: usize) -> Result<(), Refused>
    requires { (header_length s.now ≤ length s.now) × (n ≡ vertex_count s.now) × (n ≤ room_vertices) × (count ≤ room_arcs) }
    ensures { verdict_of result ≡ first_fault (λ a. arc_fault s.now (arc_at s.now a)) (arc_at s.now) count 0 }
{
    let base = first_arc_at(s);
    for a in 0..count {
        if let Err(fault) = arc_fault(s, n, base, a) {
            return Err(Refused::new(fault, arc_at(s, base, a)));
        }
    }
    Ok(())
}

// Whether a walk may go on from vertex u to v: v is a vertex, and there is the arc.
fn goes_on(s: &[u8], first: &[u16; Graph::ROOM_VERTICES + 1], n: usize, u: usize, v: usize) -> bool
    requires { ArcTable s.now first.now × (n ≡ vertex_count s.now) × (u < n) }
    ensures { result ≡ goes_on (vertex_count s.now) (arcs_of s.now) u v }
{
    v < n && find_arc(s, first, u, v).is_some()
}

// Whether the bytes are vertices of the graph s, each consecutive pair an arc.
fn is_walk(s: &[u8], first: &[u16; Graph::ROOM_VERTICES + 1], vertices: &[u8]) -> bool
    requires { ArcTable s.now first.now × (1 ≤ length vertices.now) }
    ensures { result ≡ walks (vertex_count s.now) (arcs_of s.now) vertices.now }
{
    let n = vertex_count(s);
    let mut u = usize::from(vertices[0]);
    if n <= u {
        return false;
    }
    for next in &vertices[1..] {
        let v = usize::from(*next);
        if !goes_on(s, first, n, u, v) {
            return false;
        }
        u = v;
    }
    true
}

// What is wrong with the read at an offset: 5, 7 or nothing.
#[tactic(auto, using(std::proofs::lemmas::Bool::Decides::nat_tests), unfolding(forms::specs::GraphFaults::read_fault))]
fn read_fault(s: &[u8], first: &[u16; Graph::ROOM_VERTICES + 1], at: usize) -> Result<(), Fault>
    requires { ArcTable s.now first.now × (at + 2 < 18446744073709551616) }
    ensures { fault_of result ≡ read_fault s.now at }
{
    if s.len() < read_vertices_at(s, at) {
        return Err(Fault::GraphEnd);
    }
    let count = read_length(s, at);
    if count < Graph::MIN_READ || max_read_length(s) < count {
        return Err(Fault::Read);
    }
    if s.len() < read_end(s, at) {
        return Err(Fault::GraphEnd);
    }
    if !is_walk(s, first, &s[read_vertices_at(s, at)..read_end(s, at)]) {
        return Err(Fault::Read);
    }
    Ok(())
}

// The first faulty one of count reads, the first of them at an offset; then the bytes that remain.
fn reads_verdict(
    s: &[u8],
    first: &[u16; Graph::ROOM_VERTICES + 1],
    count: usize,
    from: usize,
) -> Result<(), Refused>
    requires { ArcTable s.now first.now × (from + 2 < 18446744073709551616) }
    ensures { verdict_of result ≡ reads_verdict s.now count from }
{
    let mut at = from;
    for _ in 0..count {
        if let Err(fault) = read_fault(s, first, at) {
            return Err(Refused::new(fault, at));
        }
        at = read_end(s, at);
    }
    if at < s.len() {
        return Err(Refused::new(Fault::GraphEnd, at));
    }
    Ok(())
}

// What the arcs, then the reads of a form give, once its header is right.
fn arcs_then_reads(s: &[u8], header: Header) -> Result<(), Refused>
    requires { HeaderRight s.now × (header.vertices ≡ vertex_count s.now) × (header.arcs ≡ arc_count s.now) × (header.reads ≡ read_count s.now) }
    ensures { verdict_of result ≡ then (arcs_verdict s.now) (reads_verdict s.now (read_count s.now) (first_read_at s.now)) }
{
    arcs_verdict(s, header.vertices, header.arcs)?;
    let first = first_arcs(s);
    reads_verdict(s, &first, header.reads, first_read_at(s))
}

// Document 01, "Numbers returned when an input is turned down", 1 to 7: what reading the graph form gives.
pub fn read_graph(s: &[u8]) -> Result<(), Refused>
    ensures { verdict_of result ≡ graph_verdict s.now }
{
    header_verdict(s)?;
    let header = Header::of(s);
    vertices_verdict(s, header.vertices)?;
    arcs_then_reads(s, header)
}
