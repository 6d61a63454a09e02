// Numbers 19, 21 and 22: demands and reads met, no slack below 0, and the bound.
#![tactic(auto)]

ghost use Rattle.std.specs.Prelude.{◌≡◌, ℕ, ◌+◌, ◌*◌, ◌-◌, ◌<◌, ◌≤◌, length, get_or, take, pos, cond};
ghost use Rattle.mathematics.specs.Price.{whole};
ghost use Rattle.mathematics.specs.Bound.{bound};
ghost use Rattle.forms.specs.GraphForm.{vertex_count, arc_count, read_count, first_arc_at};
ghost use Rattle.forms.specs.Bytes.{part};
ghost use Rattle.forms.specs.GraphOf.{graph_of};
ghost use Rattle.reads.specs.ReadTable.{row_length, rows_of, ReadHolds, TableHolds, Leaves, TableSized};
ghost use Rattle.forms.specs.ArcTable.{ArcTable};
ghost use Rattle.forms.specs.Roles.{Roles};
ghost use Rattle.forms.specs.Limits.{room_vertices, room_arcs};
ghost use Rattle.certify.specs.Growth.{Grown};
ghost use Rattle.mathematics.specs.Cover.{trail};
ghost use Rattle.forms.specs.GraphReads.{Reads};
ghost use Rattle.forms.specs.GraphFaults.{first_fault};
ghost use Rattle.forms.specs.Refusals.{verdict_of, fault_of};
ghost use Rattle.forms.specs.AnswerForm.{answer_marks};
ghost use Rattle.certify.specs.Certify.{unmet_verdict, slacks_verdict, CountsLow, ArcPassed, ReadsCounted, arc_place, read_place, vertex_unmet, arc_unmet, read_unmet, vertex_slack_fault, arc_slack_fault, MarksStand, NoneBelow, most_reads, most_part, vertex_part, arc_part, sum_from, Part, Sum};

use forms::arcs::find_arc;
use forms::fields::{
    arc_cost, arc_count, arc_demand, arc_head, arc_tail, first_arc_at, first_read_at,
    opening_price, read_count, read_end, read_length, read_vertices_at, vertex_count,
    vertex_demand,
};
use forms::marks::{in_mark_plus, out_mark_plus};
use forms::roles::{Role, is_end, is_start};
use forms::{Answer, Fault, Graph, Refused};
use reads::{ROW, ROWS, prepare_reads};

// The first of `count` items of one kind that is at fault; so many items are numbered before them.
fn first_faulty<F: Fn(usize) -> Result<(), Fault>>(
    before: usize,
    count: usize,
    judge: F,
) -> Result<(), Refused>
    requires room { before + count < 18446744073709551616 }
    requires each { (i : ℕ) → i < count → F.pre judge i }
    ensures { (fault place : ℕ → ℕ) → ((i : ℕ) (r : _) → i < count → F.post judge i r → fault_of r ≡ fault i) → ((i : ℕ) → before + i ≡ place i) → verdict_of result ≡ first_fault fault place count 0 }
{
    for i in 0..count {
        if let Err(fault) = judge(i) {
            return Err(Refused::new(fault, before + i));
        }
    }
    Ok(())
}

// What is wrong with a demand, or with a read, that is met or is not.
fn unmet_unless(held: bool) -> Result<(), Fault>
    ensures { fault_of result ≡ cond held 0 19 }
{
    if held { Ok(()) } else { Err(Fault::Unmet) }
}

// The first vertex whose demand is above the weights of the paths through it.
#[tactic(auto, unfolding(crate::specs::Certify::vertex_unmet))]
fn vertices_unmet(s: &[u8], totals: &[usize; Graph::ROOM_VERTICES]) -> Result<(), Refused>
    requires { Reads s.now }
    ensures { verdict_of result ≡ first_fault (vertex_unmet s.now totals.now) (λ v. v) (vertex_count s.now) 0 }
{
    first_faulty(
        0,
        vertex_count(s),
        |v| unmet_unless(vertex_demand(s, v) <= totals[v]),
    )
}

// The first arc whose demand is above the weights of the paths through it.
#[tactic(auto, unfolding(crate::specs::Certify::arc_unmet))]
fn arcs_unmet(s: &[u8], totals: &[usize; Graph::ROOM_ARCS]) -> Result<(), Refused>
    requires { Reads s.now }
    ensures { verdict_of result ≡ first_fault (arc_unmet s.now totals.now) (arc_place s.now) (arc_count s.now) 0 }
{
    let base = first_arc_at(s);
    first_faulty(
        vertex_count(s),
        arc_count(s),
        |a| unmet_unless(arc_demand(s, base, a) <= totals[a]),
    )
}

// The first read that no path holds.
#[tactic(auto, unfolding(crate::specs::Certify::read_unmet))]
fn reads_unmet(s: &[u8], met: &[bool; Graph::ROOM_READS]) -> Result<(), Refused>
    requires { Reads s.now }
    ensures { verdict_of result ≡ first_fault (read_unmet met.now) (read_place s.now) (read_count s.now) 0 }
{
    first_faulty(
        vertex_count(s) + arc_count(s),
        read_count(s),
        |r| unmet_unless(met[r]),
    )
}

// The first demand or read that is not met: vertices, then arcs, then reads.
#[tactic(auto, using(forms::proofs::ThenLaws::then_err, forms::proofs::ThenLaws::then_ok), unfolding(crate::specs::Certify::unmet_verdict))]
pub fn unmet_verdict(
    s: &[u8],
    vertex_totals: &[usize; Graph::ROOM_VERTICES],
    arc_totals: &[usize; Graph::ROOM_ARCS],
    met: &[bool; Graph::ROOM_READS],
) -> Result<(), Refused>
    requires { Reads s.now }
    ensures { verdict_of result ≡ unmet_verdict s.now vertex_totals.now arc_totals.now met.now }
{
    vertices_unmet(s, vertex_totals)?;
    arcs_unmet(s, arc_totals)?;
    reads_unmet(s, met)
}

// What is wrong with the slacks of vertex v: a mark is held with the limit added, so each test is one of numbers that are not below 0.
fn vertex_slack_fault(
    s: &[u8],
    roles: &[Role; Graph::ROOM_VERTICES],
    t: &[u8],
    v: usize,
) -> Result<(), Fault>
    requires { Reads s.now × Roles s.now roles.now × MarksStand s.now t.now × (v < vertex_count s.now) }
    ensures { fault_of result ≡ vertex_slack_fault s.now t.now v }
{
    let into = in_mark_plus(s, t, v);
    let out = out_mark_plus(s, t, v);
    if into < out {
        return Err(Fault::Slack);
    }
    if is_start(s, roles, v) && opening_price(s) + Answer::MARK_LIMIT < into {
        return Err(Fault::Slack);
    }
    if is_end(s, roles, v) && out < Answer::MARK_LIMIT {
        return Err(Fault::Slack);
    }
    Ok(())
}

// The first vertex with a slack below 0.
fn vertex_slacks(s: &[u8], roles: &[Role; Graph::ROOM_VERTICES], t: &[u8]) -> Result<(), Refused>
    requires { Reads s.now × Roles s.now roles.now × MarksStand s.now t.now }
    ensures { verdict_of result ≡ first_fault (vertex_slack_fault s.now t.now) (λ v. v) (vertex_count s.now) 0 }
{
    first_faulty(0, vertex_count(s), |v| vertex_slack_fault(s, roles, t, v))
}

// What is wrong with the slack of arc a.
fn arc_slack_fault(s: &[u8], t: &[u8], base: usize, a: usize) -> Result<(), Fault>
    requires { Reads s.now × MarksStand s.now t.now × (base ≡ first_arc_at s.now) × (a < arc_count s.now) }
    ensures { fault_of result ≡ arc_slack_fault s.now t.now a }
{
    let out = out_mark_plus(s, t, arc_tail(s, base, a));
    let into = in_mark_plus(s, t, arc_head(s, base, a));
    if arc_cost(s, base, a) + out < into {
        return Err(Fault::Slack);
    }
    Ok(())
}

// The first arc with a slack below 0.
fn arc_slacks(s: &[u8], t: &[u8]) -> Result<(), Refused>
    requires { Reads s.now × MarksStand s.now t.now }
    ensures { verdict_of result ≡ first_fault (arc_slack_fault s.now t.now) (arc_place s.now) (arc_count s.now) 0 }
{
    let base = first_arc_at(s);
    first_faulty(
        vertex_count(s),
        arc_count(s),
        |a| arc_slack_fault(s, t, base, a),
    )
}

// The first slack below 0: vertices, then arcs.
#[tactic(auto, using(forms::proofs::ThenLaws::then_err, forms::proofs::ThenLaws::then_ok), unfolding(crate::specs::Certify::slacks_verdict))]
pub fn slacks_verdict(
    s: &[u8],
    roles: &[Role; Graph::ROOM_VERTICES],
    t: &[u8],
) -> Result<(), Refused>
    requires { Reads s.now × Roles s.now roles.now × MarksStand s.now t.now }
    ensures { verdict_of result ≡ slacks_verdict s.now t.now }
{
    vertex_slacks(s, roles, t)?;
    arc_slacks(s, t)
}

// The read of len vertices at an offset, as a row of the table of reads.
fn row_of(s: &[u8], at: usize, len: usize) -> [u8; ROW]
    requires { (at + len ≤ length s.now) × (len ≤ row_length) }
    ensures { (take len result ≡ part s.now at len) × (length result ≡ row_length) }
{
    let mut row = [0u8; ROW];
    row[..len].copy_from_slice(&s[at..at + len]);
    row
}

// Fills the table of reads with the reads of the form; gives how many there are.
pub fn load_reads(s: &[u8], rows: &mut [[u8; ROW]; ROWS], lens: &mut [usize; ROWS]) -> usize
    requires { Reads s.now × TableSized rows.old lens.old }
    ensures { Leaves rows.new lens.new result (graph_of s.now).reads }
{
    let count = read_count(s);
    let mut at = first_read_at(s);
    for i in 0..count {
        let len = read_length(s, at);
        rows[i] = row_of(s, read_vertices_at(s, at), len);
        lens[i] = len;
        at = read_end(s, at);
    }
    count
}

// Counts the arc from u to v once more, where there is one.
fn count_arc(
    s: &[u8],
    first: &[u16; Graph::ROOM_VERTICES + 1],
    u: usize,
    v: usize,
    arc_reads: &mut [usize; Graph::ROOM_ARCS],
)
    requires arc_table { ArcTable s.now first.now × (u < room_vertices) × (length arc_reads.old ≡ room_arcs) }
    requires by_index { (a : ℕ) → a < arc_count s.now → get_or arc_reads.old a 0 ≤ 2 * most_reads }
    ensures { ArcPassed s.now u v arc_reads.old arc_reads.new }
{
    if let Some(k) = find_arc(s, first, u, v) {
        arc_reads[k] += 1;
    }
}

// Counts a read at each vertex and arc that it passes.
fn count_row(
    s: &[u8],
    first: &[u16; Graph::ROOM_VERTICES + 1],
    row: &[u8],
    vertex_reads: &mut [usize; Graph::ROOM_VERTICES],
    arc_reads: &mut [usize; Graph::ROOM_ARCS],
)
    requires { ArcTable s.now first.now × ReadHolds row.now × (length row.now ≤ row_length) × CountsLow s.now vertex_reads.old arc_reads.old most_reads }
    ensures { Grown s.now 1 (trail row.now) vertex_reads.old vertex_reads.new arc_reads.old arc_reads.new }
{
    let mut u = usize::from(row[0]);
    vertex_reads[u] += 1;
    for next in &row[1..] {
        let v = usize::from(*next);
        vertex_reads[v] += 1;
        count_arc(s, first, u, v, arc_reads);
        u = v;
    }
}

// How many of the table's reads pass each vertex and each arc, in counts that are 0 before.
pub fn count_reads(
    s: &[u8],
    first: &[u16; Graph::ROOM_VERTICES + 1],
    rows: &[[u8; ROW]; ROWS],
    lens: &[usize; ROWS],
    count: usize,
    vertex_reads: &mut [usize; Graph::ROOM_VERTICES],
    arc_reads: &mut [usize; Graph::ROOM_ARCS],
)
    requires { ArcTable s.now first.now × TableHolds rows.now lens.now count × CountsLow s.now vertex_reads.old arc_reads.old 0 }
    ensures { ReadsCounted s.now (rows_of rows.now lens.now count) vertex_reads.new arc_reads.new }
{
    for i in 0..count {
        count_row(s, first, &rows[i][..lens[i]], vertex_reads, arc_reads);
    }
}

// What vertex v adds to the bound, with that many prepared reads through it: no slack is below 0 here. Its rest is its demand less those reads, and 0 where they are more.
fn vertex_part(s: &[u8], t: &[u8], v: usize, reads: usize) -> usize
    requires reads { Reads s.now × MarksStand s.now t.now × (v < vertex_count s.now) }
    requires none_below { NoneBelow s.now t.now × (reads ≤ most_reads) }
    ensures { Part (vertex_part s.now t.now v reads) result }
{
    let owed = vertex_demand(s, v).saturating_sub(reads) + reads;
    let into = in_mark_plus(s, t, v);
    let out = out_mark_plus(s, t, v);
    owed * (into - out)
}

// What arc a adds to the bound, with that many prepared reads through it.
fn arc_part(s: &[u8], t: &[u8], base: usize, a: usize, reads: usize) -> usize
    requires reads { Reads s.now × MarksStand s.now t.now × (base ≡ first_arc_at s.now) × (a < arc_count s.now) }
    requires none_below { NoneBelow s.now t.now × (reads ≤ most_reads) }
    ensures { Part (arc_part s.now t.now a reads) result }
{
    let out = out_mark_plus(s, t, arc_tail(s, base, a));
    let into = in_mark_plus(s, t, arc_head(s, base, a));
    let owed = arc_demand(s, base, a).saturating_sub(reads) + reads;
    owed * (arc_cost(s, base, a) + out - into)
}

// So many parts of the bound, in total: each is low, so the sum of all has room.
fn sum_of<F: Fn(usize) -> usize>(count: usize, part: F) -> usize
    requires few { count ≤ room_arcs }
    requires each { (i : ℕ) → i < count → F.pre part i }
    requires low { (i r : ℕ) → i < count → F.post part i r → r ≤ most_part }
    ensures { (f : ℕ → ℕ) (most : ℕ) → ((i r : ℕ) → i < count → F.post part i r → Part (f i) r) → count ≤ most → Sum (sum_from f count 0) most result }
{
    let mut sum = 0;
    for i in 0..count {
        sum += part(i);
    }
    sum
}

// The parts of the vertices, in total.
fn vertices_sum(s: &[u8], t: &[u8], reads: &[usize; Graph::ROOM_VERTICES]) -> usize
    requires reads { Reads s.now × MarksStand s.now t.now × NoneBelow s.now t.now }
    requires by_index { (v : ℕ) → v < vertex_count s.now → get_or reads.now v 0 ≤ most_reads }
    ensures { Sum (sum_from (λ v. vertex_part s.now t.now v (get_or reads.now v 0)) (vertex_count s.now) 0) room_vertices result }
{
    sum_of(vertex_count(s), |v| vertex_part(s, t, v, reads[v]))
}

// The parts of the arcs, in total.
fn arcs_sum(s: &[u8], t: &[u8], reads: &[usize; Graph::ROOM_ARCS]) -> usize
    requires reads { Reads s.now × MarksStand s.now t.now × NoneBelow s.now t.now }
    requires by_index { (a : ℕ) → a < arc_count s.now → get_or reads.now a 0 ≤ most_reads }
    ensures { Sum (sum_from (λ a. arc_part s.now t.now a (get_or reads.now a 0)) (arc_count s.now) 0) room_arcs result }
{
    let base = first_arc_at(s);
    sum_of(arc_count(s), |a| arc_part(s, t, base, a, reads[a]))
}

// The bound: the parts of vertices and arcs, with the prepared reads counted at each.
pub fn bound_of(s: &[u8], first: &[u16; Graph::ROOM_VERTICES + 1], t: &[u8]) -> usize
    requires { Reads s.now × ArcTable s.now first.now × MarksStand s.now t.now × NoneBelow s.now t.now }
    ensures { pos result ≡ bound whole (graph_of s.now) (answer_marks s.now t.now) }
{
    // Kept: document 01 names the form of the table of reads: "an array of arrays of vertex numbers as a local by value, lengths in a second array".
    let mut rows = [[0u8; ROW]; ROWS];
    let mut lens = [0usize; ROWS];
    let loaded = load_reads(s, &mut rows, &mut lens);
    let count = prepare_reads(&mut rows, &mut lens, loaded);
    let mut vertex_reads = [0usize; Graph::ROOM_VERTICES];
    let mut arc_reads = [0usize; Graph::ROOM_ARCS];
    count_reads(
        s,
        first,
        &rows,
        &lens,
        count,
        &mut vertex_reads,
        &mut arc_reads,
    );
    vertices_sum(s, t, &vertex_reads) + arcs_sum(s, t, &arc_reads)
}
