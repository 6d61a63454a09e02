// Reading the answer form beside a graph form that reads: numbers 11 to 18.
ghost use Rattle.std.specs.Prelude.{◌≡◌, ◌+◌, ◌*◌, ◌<◌, ◌≤◌, length, OnOk};
ghost use Rattle.forms.specs.AnswerFaults.{answer_header_verdict, mark_fault, marks_verdict};
ghost use Rattle.forms.specs.AnswerForm.{path_count, in_mark_at, mark_parts, mark_part_length, first_path_at};
ghost use Rattle.forms.specs.ArcTable.{ArcTable};
ghost use Rattle.forms.specs.Roles.{Roles};
ghost use Rattle.forms.specs.GraphFaults.{nothing_refused};
ghost use Rattle.forms.specs.GraphForm.{header_length};
ghost use Rattle.forms.specs.GraphReads.{Reads};
ghost use Rattle.forms.specs.Layout.{max_weight};
ghost use Rattle.forms.specs.Limits.{room_vertices, room_reads};
ghost use Rattle.forms.specs.Refusals.{verdict_of, value_of, fault_of};
ghost use Rattle.tally.specs.Tally.{TotalsFit};
ghost use Rattle.checker.specs.Tallies.{path_head_fault, PathHead, PathRead, NothingTallied, PathsRead};

use forms::fields::{
    answer_length_word, answer_version, first_path_at, in_mark_at, mark_bits, mark_parts,
    opening_price, path_count, path_end, path_length, path_vertices_at, path_weight,
};
use forms::layout::{answer_version_of, max_path_length, max_paths, max_weight};
use forms::roles::Role;
use forms::{Answer, Fault, Graph, Refused};
use tally::{mark_reads, walk_path};

// What is wrong with the header: 11, 12 or 13.
#[tactic(auto, using(std::proofs::lemmas::Bool::Decides::nat_tests), unfolding(forms::specs::AnswerFaults::answer_header_verdict))]
pub fn header_verdict(s: &[u8], t: &[u8]) -> Result<(), Refused>
    requires { header_length s.now ≤ length s.now }
    ensures { verdict_of result ≡ answer_header_verdict s.now t.now nothing_refused }
{
    if t.len() < first_path_at(s) || answer_length_word(t) != t.len() {
        return Err(Refused::new(Fault::AnswerLength, 0));
    }
    if answer_version(t) != answer_version_of(s) {
        return Err(Refused::new(Fault::AnswerVersion, Answer::AT_VERSION));
    }
    if max_paths(s) < path_count(t) {
        return Err(Refused::new(Fault::PathCount, Answer::AT_PATHS));
    }
    Ok(())
}

// A mark is in range where its 32 bits are at most the limit, or at least 2^32 less the limit.
fn mark_fault(t: &[u8], at: usize) -> Result<(), Fault>
    requires { at + mark_part_length ≤ length t.now }
    ensures { fault_of result ≡ mark_fault t.now at }
{
    let x = mark_bits(t, at);
    if Answer::MARK_LIMIT < x && x < 4_294_967_296 - Answer::MARK_LIMIT {
        return Err(Fault::Mark);
    }
    Ok(())
}

// The first number out of range, of those that make the marks.
pub fn marks_verdict(s: &[u8], t: &[u8]) -> Result<(), Refused>
    requires { (header_length s.now ≤ length s.now) × (first_path_at s.now ≤ length t.now) }
    ensures { verdict_of result ≡ marks_verdict t.now (mark_parts s.now) (in_mark_at s.now 0) nothing_refused }
{
    let parts = mark_parts(s);
    let mut at = in_mark_at(s, 0);
    for _ in 0..parts {
        if let Err(fault) = mark_fault(t, at) {
            return Err(Refused::new(fault, at));
        }
        at += Answer::MARK_PART;
    }
    Ok(())
}

// What is wrong with a path's record, so far as it can be told without the graph: 15, 16, 15, 17 or nothing.
#[tactic(auto, using(std::proofs::lemmas::Bool::Decides::nat_tests), unfolding(crate::specs::Tallies::path_head_fault))]
fn path_head_fault(s: &[u8], t: &[u8], at: usize, copies: usize) -> Result<(), Fault>
    requires { (at ≤ length t.now) × (copies ≤ max_weight s.now) }
    ensures value { fault_of result ≡ path_head_fault s.now t.now at copies }
    ensures right { OnOk result (PathHead s.now t.now at copies) }
{
    if t.len() < path_vertices_at(s, at) {
        return Err(Fault::AnswerEnd);
    }
    let len = path_length(s, t, at);
    if len == 0 || max_path_length(s) < len {
        return Err(Fault::Path);
    }
    if t.len() < path_end(s, t, at) {
        return Err(Fault::AnswerEnd);
    }
    let weight = path_weight(t, at);
    if weight == 0 || max_weight(s) < copies + weight {
        return Err(Fault::Weight);
    }
    Ok(())
}

// What reading the paths of an answer tallies: for each vertex and arc the weights of the paths through it, for each read whether a path holds it, and the
// weights and the price of all paths.
#[derive(Drop)]
pub struct Tallies {
    pub vertex_totals: [usize; Graph::ROOM_VERTICES],
    pub arc_totals: [usize; Graph::ROOM_ARCS],
    pub met: [bool; Graph::ROOM_READS],
    pub copies: usize,
    pub price: usize,
}

impl Tallies {
    // Nothing is tallied yet.
    pub fn none() -> Tallies
        ensures { NothingTallied result.vertex_totals result.arc_totals result.met × (result.copies ≡ 0) × (result.price ≡ 0) }
    {
        Tallies {
            vertex_totals: [0; Graph::ROOM_VERTICES],
            arc_totals: [0; Graph::ROOM_ARCS],
            met: [false; Graph::ROOM_READS],
            copies: 0,
            price: 0,
        }
    }
}

// Reads the path's record at an offset: judges it, adds its weight to the totals and marks the reads that it holds. What it gives is the costs of the path's arcs.
// `before` is the path before it, none for the first. Where there is a fault the tallies are of no use any more.
fn read_path(
    s: &[u8],
    first: &[u16; Graph::ROOM_VERTICES + 1],
    roles: &[Role; Graph::ROOM_VERTICES],
    t: &[u8],
    at: usize,
    before: &[u8],
    tallies: &mut Tallies,
) -> Result<usize, Fault>
    requires reads { Reads s.now × ArcTable s.now first.now × Roles s.now roles.now × (at ≤ length t.now) × (tallies.old.copies ≤ max_weight s.now) }
    requires totals_fit { TotalsFit s.now tallies.old.vertex_totals tallies.old.arc_totals 0 (2 * room_vertices) × (length tallies.old.met ≡ room_reads) }
    ensures read { PathRead s.now t.now at before.now tallies.old.copies tallies.old.vertex_totals tallies.new.vertex_totals tallies.old.arc_totals tallies.new.arc_totals tallies.old.met tallies.new.met (fault_of result) (value_of result) }
    ensures kept { (tallies.new.copies ≡ tallies.old.copies) × (tallies.new.price ≡ tallies.old.price) }
{
    path_head_fault(s, t, at, tallies.copies)?;
    let weight = path_weight(t, at);
    let path = &t[path_vertices_at(s, at)..path_end(s, t, at)];
    let walked = walk_path(
        s,
        first,
        roles,
        path,
        weight,
        &mut tallies.vertex_totals,
        &mut tallies.arc_totals,
    );
    let Some(cost) = walked else {
        return Err(Fault::Path);
    };
    if path <= before {
        return Err(Fault::Order);
    }
    mark_reads(s, path, &mut tallies.met);
    Ok(cost)
}

// Reads the path records one after another. The tallies are those of all paths where nothing is refused.
pub fn read_paths(
    s: &[u8],
    first: &[u16; Graph::ROOM_VERTICES + 1],
    roles: &[Role; Graph::ROOM_VERTICES],
    t: &[u8],
    paths: usize,
    tallies: &mut Tallies,
) -> Result<(), Refused>
    requires reads { Reads s.now × ArcTable s.now first.now × Roles s.now roles.now × (first_path_at s.now ≤ length t.now) × (paths ≡ path_count t.now) }
    requires nothing_tallied { NothingTallied tallies.old.vertex_totals tallies.old.arc_totals tallies.old.met × (tallies.old.copies ≡ 0) × (tallies.old.price ≡ 0) }
    ensures { PathsRead s.now t.now tallies.new.vertex_totals tallies.new.arc_totals tallies.new.met (verdict_of result).number (verdict_of result).place tallies.new.price }
{
    let opening = opening_price(s);
    let mut at = first_path_at(s);
    let mut before = &t[..0];
    for _ in 0..paths {
        let cost = match read_path(s, first, roles, t, at, before, tallies) {
            Ok(cost) => cost,
            Err(fault) => return Err(Refused::new(fault, at)),
        };
        let weight = path_weight(t, at);
        tallies.price += weight * (opening + cost);
        tallies.copies += weight;
        let from = path_vertices_at(s, at);
        at = path_end(s, t, at);
        before = &t[from..at];
    }
    if at < t.len() {
        return Err(Refused::new(Fault::AnswerEnd, at));
    }
    Ok(())
}
