// Which vertices a start leads to and which lead on to an end, and the first item that asks for something and lies on no path.
#![tactic(auto)]

ghost use Rattle.std.specs.Prelude.{◌≡◌, ℕ, ◌+◌, ◌<◌, ◌≤◌, Bool, false, ◌&&◌, get_or};
ghost use Rattle.mathematics.specs.Graph.{is_start, is_end};
ghost use Rattle.mathematics.specs.Reach.{from_start, to_end, read_lies, ask_lies};
ghost use Rattle.forms.specs.GraphForm.{vertex_count, arc_count, first_arc_at, arc_at, read_vertices};
ghost use Rattle.forms.specs.GraphOf.{graph_of};
ghost use Rattle.forms.specs.GraphReads.{Reads, ReadRight};
ghost use Rattle.forms.specs.GraphFaults.{first_fault, nothing_refused};
ghost use Rattle.forms.specs.BuildFaults.{reads_lie_verdict};
ghost use Rattle.forms.specs.Refusals.{verdict_of};
ghost use Rattle.forms.specs.Roles.{Roles};
ghost use Rattle.reach.specs.Reached.{Tells, FormSizes, Reachable, vertex_ask, record_ask, off, lacks, lie_verdict};
ghost use Rattle.forms.specs.Limits.{room_vertices};

use forms::fields::{
    arc_count, arc_demand, arc_head, arc_tail, first_arc_at, first_read_at, read_count, read_end,
    read_vertices_at, vertex_count, vertex_demand,
};
use forms::roles::{Role, is_end, is_start};
use forms::{Fault, Graph, Refused};

// Which vertices a start leads to, and which lead on to an end.
#[derive(Drop)]
pub struct Reach {
    pub reached: [bool; Graph::ROOM_VERTICES],
    pub reaching: [bool; Graph::ROOM_VERTICES],
}

impl Reach {
    // What the graph's arcs lead to.
    pub fn of(s: &[u8], roles: &[Role; Graph::ROOM_VERTICES]) -> Reach
        requires { Reads s.now × Roles s.now roles.now }
        ensures { Reachable s.now result }
    {
        let reached = reach_from_starts(s, roles);
        let reaching = reach_ends(s, roles);
        Reach { reached, reaching }
    }

    // Whether what begins with u and ends with v lies on a path.
    pub fn lies(&self, u: usize, v: usize) -> bool
        requires { (u < room_vertices) × (v < room_vertices) }
        ensures { result ≡ (get_or self.now.reached u false && get_or self.now.reaching v false) }
    {
        self.reached[u] && self.reaching[v]
    }
}

// The table of what `says` says of each of the first n vertices.
pub fn table_of<F: Fn(usize) -> bool>(n: usize, says: F) -> [bool; Graph::ROOM_VERTICES]
    requires few { n ≤ room_vertices }
    requires each { (v : ℕ) → v < n → F.pre says v }
    ensures { (v : ℕ) → v < n → F.post says v (get_or result v false) }
{
    let mut table = [false; Graph::ROOM_VERTICES];
    for v in 0..n {
        table[v] = says(v);
    }
    table
}

// Marks what the starts lead to. Arcs are sorted by tail and rise, so a tail is settled before its arcs come: one pass is enough.
fn reach_from_starts(s: &[u8], roles: &[Role; Graph::ROOM_VERTICES]) -> [bool; Graph::ROOM_VERTICES]
    requires { Reads s.now × Roles s.now roles.now }
    ensures { Tells s.now (from_start (graph_of s.now)) result }
{
    let base = first_arc_at(s);
    let mut reached = table_of(vertex_count(s), |v| is_start(s, roles, v));
    for a in 0..arc_count(s) {
        if reached[arc_tail(s, base, a)] {
            reached[arc_head(s, base, a)] = true;
        }
    }
    reached
}

// Marks what leads on to an end: the same from the last arc down.
fn reach_ends(s: &[u8], roles: &[Role; Graph::ROOM_VERTICES]) -> [bool; Graph::ROOM_VERTICES]
    requires { Reads s.now × Roles s.now roles.now }
    ensures { Tells s.now (to_end (graph_of s.now)) result }
{
    let base = first_arc_at(s);
    let mut reaching = table_of(vertex_count(s), |v| is_end(s, roles, v));
    for a in (0..arc_count(s)).rev() {
        if reaching[arc_head(s, base, a)] {
            reaching[arc_tail(s, base, a)] = true;
        }
    }
    reaching
}

// Whether vertex v asks for nothing or lies on a path.
fn vertex_lies(s: &[u8], v: usize, reach: &Reach) -> bool
    requires { Reachable s.now reach.now × (v < vertex_count s.now) }
    ensures { result ≡ ask_lies (graph_of s.now) (vertex_ask s.now v) }
{
    vertex_demand(s, v) == 0 || reach.lies(v, v)
}

// Whether arc a asks for nothing or lies on a path.
fn arc_lies(s: &[u8], base: usize, a: usize, reach: &Reach) -> bool
    requires { Reachable s.now reach.now × (base ≡ first_arc_at s.now) × (a < arc_count s.now) }
    ensures { result ≡ ask_lies (graph_of s.now) (record_ask s.now (arc_at s.now a)) }
{
    arc_demand(s, base, a) == 0 || reach.lies(arc_tail(s, base, a), arc_head(s, base, a))
}

// The first of `count` items of one kind that does not lie on a path; so many items are numbered before them.
fn first_off<F: Fn(usize) -> bool>(before: usize, count: usize, lies: F) -> Result<(), Refused>
    requires room { before + count < 18446744073709551616 }
    requires each { (i : ℕ) → i < count → F.pre lies i }
    ensures { (f : ℕ → Bool) (place : ℕ → ℕ) → ((i : ℕ) (b : Bool) → i < count → F.post lies i b → b ≡ f i) → ((i : ℕ) → before + i ≡ place i) → verdict_of result ≡ first_fault (λ i. off (f i)) place count 0 }
{
    for i in 0..count {
        if !lies(i) {
            return Err(Refused::new(Fault::OnNoPath, before + i));
        }
    }
    Ok(())
}

// The first of the n vertices that asks and lies on no path.
fn vertices_lie(s: &[u8], n: usize, reach: &Reach) -> Result<(), Refused>
    requires { Reachable s.now reach.now × (n ≡ vertex_count s.now) }
    ensures { verdict_of result ≡ first_fault (λ v. lacks (graph_of s.now) (vertex_ask s.now v)) (λ v. v) n 0 }
{
    first_off(0, n, |v| vertex_lies(s, v, reach))
}

// The first of the m arcs that asks and lies on no path. Items are numbered with the vertices first.
fn arcs_lie(s: &[u8], n: usize, m: usize, reach: &Reach) -> Result<(), Refused>
    requires { Reachable s.now reach.now × FormSizes s.now n m }
    ensures { verdict_of result ≡ first_fault (λ a. lacks (graph_of s.now) (record_ask s.now (arc_at s.now a))) (λ a. n + a) m 0 }
{
    let base = first_arc_at(s);
    first_off(n, m, |a| arc_lies(s, base, a, reach))
}

// Whether the read whose record stands at an offset lies on a path.
fn read_lies(s: &[u8], at: usize, reach: &Reach) -> bool
    requires { Reachable s.now reach.now × ReadRight s.now at }
    ensures { result ≡ read_lies (graph_of s.now) (read_vertices s.now at) }
{
    let first = read_vertices_at(s, at);
    let end = read_end(s, at);
    reach.lies(usize::from(s[first]), usize::from(s[end - 1]))
}

// The first read that lies on no path. Reads are numbered behind the vertices and the arcs.
fn reads_lie(s: &[u8], n: usize, m: usize, reach: &Reach) -> Result<(), Refused>
    requires { Reachable s.now reach.now × FormSizes s.now n m }
    ensures { verdict_of result ≡ reads_lie_verdict (graph_of s.now) (n + m) (graph_of s.now).reads nothing_refused }
{
    let count = read_count(s);
    let mut at = first_read_at(s);
    for k in 0..count {
        if !read_lies(s, at, reach) {
            return Err(Refused::new(Fault::OnNoPath, n + m + k));
        }
        at = read_end(s, at);
    }
    Ok(())
}

// The first item that asks for something and lies on no path: vertices, then arcs, then reads.
pub fn first_lacking(s: &[u8], reach: &Reach) -> Result<(), Refused>
    requires { Reachable s.now reach.now }
    ensures { verdict_of result ≡ lie_verdict (graph_of s.now) nothing_refused }
{
    let n = vertex_count(s);
    let m = arc_count(s);
    vertices_lie(s, n, reach)?;
    arcs_lie(s, n, m, reach)?;
    reads_lie(s, n, m, reach)
}
