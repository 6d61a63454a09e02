// What one path of an answer adds to the tallies: its weight to the totals of the vertices and arcs on it, and the reads that it holds. The reader of an answer calls it
// path by path.
#![tactic(auto)]

ghost use Rattle.std.specs.Prelude.{◌≡◌, ◌*◌, ◌<◌, ◌≤◌, ◌≢◌, ℕ, length, slice_index, MatchOption};
ghost use Rattle.std.specs.Option.{is_some};
ghost use Rattle.mathematics.specs.Lists.{holds, Rising};
ghost use Rattle.forms.specs.ArcTable.{ArcTable};
ghost use Rattle.forms.specs.GraphReads.{Reads};
ghost use Rattle.forms.specs.Limits.{room_vertices, room_reads};
ghost use Rattle.forms.specs.Roles.{Roles};
ghost use Rattle.tally.specs.Tally.{ReadsMet, TotalsFit, PathWalked, costs_of};

use forms::Graph;
use forms::arcs::find_arc;
use forms::fields::{
    arc_cost, first_arc_at, first_read_at, read_count, read_end, read_vertices_at, vertex_count,
};
use forms::roles::{Role, is_end, is_start};

// Where the path passes v.
fn place_of(path: &[u8], v: u8) -> Option<usize>
    ensures { MatchOption result ((k : ℕ) → k < length path.now → slice_index path.now k ≢ v) (λ p. (p < length path.now) × (slice_index path.now p ≡ v)) }
{
    path.iter().position(|x| *x == v)
}

// Whether the path holds the read's vertices consecutively. The path rises, so the read stands where its first vertex stands, or nowhere.
fn holds_read(path: &[u8], read: &[u8]) -> bool
    requires { Rising path.now × (0 < length read.now) }
    ensures { result ≡ holds path.now read.now }
{
    match place_of(path, read[0]) {
        Some(p) => path[p..].starts_with(read),
        None => false,
    }
}

// Marks the reads that the path holds: one that was met by a path before is not looked for again. Reads are walked by their records.
pub fn mark_reads(s: &[u8], path: &[u8], met: &mut [bool; Graph::ROOM_READS])
    requires { Reads s.now × (length met.old ≡ room_reads) × Rising path.now }
    ensures { ReadsMet s.now path.now met.old met.new }
{
    let mut at = first_read_at(s);
    for r in 0..read_count(s) {
        let end = read_end(s, at);
        met[r] = met[r] || holds_read(path, &s[read_vertices_at(s, at)..end]);
        at = end;
    }
}

// Walks along a path, one look for an arc with each vertex behind the first, and adds its weight to the totals of the vertices and arcs on it: the costs of its arcs, where it is
// a path of the graph. Where it is none, the totals are of no use any more.
pub fn walk_path(
    s: &[u8],
    first: &[u16; Graph::ROOM_VERTICES + 1],
    roles: &[Role; Graph::ROOM_VERTICES],
    path: &[u8],
    weight: usize,
    vertex_totals: &mut [usize; Graph::ROOM_VERTICES],
    arc_totals: &mut [usize; Graph::ROOM_ARCS],
) -> Option<usize>
    requires reads { Reads s.now × ArcTable s.now first.now × Roles s.now roles.now × (1 ≤ length path.now) × (length path.now ≤ room_vertices) }
    requires totals { TotalsFit s.now vertex_totals.old arc_totals.old weight (2 * room_vertices) }
    ensures { PathWalked s.now path.now weight vertex_totals.old vertex_totals.new arc_totals.old arc_totals.new (is_some result) (costs_of result) }
{
    let base = first_arc_at(s);
    let mut u = usize::from(path[0]);
    if vertex_count(s) <= u || !is_start(s, roles, u) {
        return None;
    }
    vertex_totals[u] += weight;
    let mut cost = 0;
    for next in &path[1..] {
        let v = usize::from(*next);
        let k = find_arc(s, first, u, v)?;
        arc_totals[k] += weight;
        vertex_totals[v] += weight;
        cost += arc_cost(s, base, k);
        u = v;
    }
    if is_end(s, roles, u) {
        Some(cost)
    } else {
        None
    }
}
