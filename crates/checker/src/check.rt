// The check of an answer against a graph, and the hand-out of a path that passed it.
ghost use Rattle.std.specs.Prelude.{◌≡◌, [], ◌+◌, ◌≤◌, length, pos};
ghost use Rattle.mathematics.specs.Price.{whole};
ghost use Rattle.forms.specs.AnswerFaults.{paths_verdict};
ghost use Rattle.forms.specs.AnswerForm.{stated_price, path_count, answer_marks, first_path_at, path_end, cover_of};
ghost use Rattle.forms.specs.ArcTable.{ArcTable};
ghost use Rattle.forms.specs.GraphOf.{graph_of};
ghost use Rattle.forms.specs.GraphReads.{Reads};
ghost use Rattle.forms.specs.Refusals.{verdict_of};
ghost use Rattle.forms.specs.Roles.{Roles};
ghost use Rattle.checker.specs.Tallies.{Tallied, PathsStand};
ghost use Rattle.certify.specs.Certify.{MarksStand};
ghost use Rattle.checker.specs.Check.{certificate_verdict, answer_verdict, check_verdict, hand_out_verdict, path_at, handed_out, handed_out_at};
ghost use Rattle.checker.specs.HandedOut.{PartFound, part_of};

use crate::answers::{Tallies, header_verdict, marks_verdict, read_paths};
use crate::reader::read_graph;
use certify::{bound_of, slacks_verdict, unmet_verdict};
use forms::arcs::first_arcs;
use forms::fields::{first_path_at, path_count, path_end, path_length, path_vertices_at};
use forms::roles::{Role, roles};
use forms::{Answer, Fault, Graph, Refused};

// Numbers 19 to 22, in that order, of paths that are tallied.
fn certificate_verdict(
    s: &[u8],
    first: &[u16; Graph::ROOM_VERTICES + 1],
    roles: &[Role; Graph::ROOM_VERTICES],
    t: &[u8],
    tallies: &Tallies,
    stated: usize,
) -> Result<(), Refused>
    requires reads { Reads s.now × ArcTable s.now first.now × Roles s.now roles.now × MarksStand s.now t.now }
    requires tallied { Tallied s.now t.now tallies.now.vertex_totals tallies.now.arc_totals tallies.now.met tallies.now.price × (stated ≡ stated_price s.now t.now) }
    ensures { verdict_of result ≡ certificate_verdict whole (graph_of s.now) (cover_of s.now t.now) (pos (stated_price s.now t.now)) (answer_marks s.now t.now) }
{
    unmet_verdict(s, &tallies.vertex_totals, &tallies.arc_totals, &tallies.met)?;
    let price = tallies.price;
    let price_differs = price != stated;
    if price_differs {
        return Err(Refused::new(Fault::Price, 0));
    }
    slacks_verdict(s, roles, t)?;
    let shown = bound_of(s, first, t);
    let bound_differs = shown != stated;
    if bound_differs {
        return Err(Refused::new(Fault::Bound, 0));
    }
    Ok(())
}

// Numbers 15 to 22: the paths are read and tallied in one pass, then the certificate is tested.
fn paths_verdict(s: &[u8], t: &[u8]) -> Result<(), Refused>
    requires { Reads s.now × MarksStand s.now t.now }
    ensures { verdict_of result ≡ paths_verdict s.now t.now (path_count t.now) (first_path_at s.now) [] 0 (certificate_verdict whole (graph_of s.now) (cover_of s.now t.now) (pos (stated_price s.now t.now)) (answer_marks s.now t.now)) }
{
    let answer = Answer::of(s, t);
    let first = first_arcs(s);
    let roles = roles(s);
    let mut tallies = Tallies::none();
    read_paths(s, &first, &roles, t, answer.paths, &mut tallies)?;
    certificate_verdict(s, &first, &roles, t, &tallies, answer.price)
}

// Numbers 11 to 22, beside a graph form that reads.
fn answer_verdict(s: &[u8], t: &[u8]) -> Result<(), Refused>
    requires { Reads s.now }
    ensures { verdict_of result ≡ answer_verdict s.now t.now }
{
    header_verdict(s, t)?;
    marks_verdict(s, t)?;
    paths_verdict(s, t)
}

// Whether the answer's paths are a cover of the graph at the stated price and no cover is cheaper: the first refusal, where there is one.
pub fn check(graph: &[u8], answer: &[u8]) -> Result<(), Refused>
    ensures { verdict_of result ≡ check_verdict graph.now answer.now }
{
    read_graph(graph)?;
    answer_verdict(graph, answer)
}

// What asking for path k gives: the check's refusal, or 23 where there is no such path.
pub fn hand_out_verdict(graph: &[u8], answer: &[u8], k: usize) -> Result<(), Refused>
    ensures { verdict_of result ≡ hand_out_verdict graph.now answer.now k }
{
    check(graph, answer)?;
    if path_count(answer) <= k {
        return Err(Refused::new(Fault::NoSuchPath, 0));
    }
    Ok(())
}

// Where the record of path k of an answer t to the graph s stands, the first one's being at an offset.
fn path_at(s: &[u8], t: &[u8], from: usize, k: usize) -> usize
    requires { PathsStand s.now t.now (k + 1) from }
    ensures { (result ≡ path_at s.now t.now k from) × (path_end s.now t.now result ≤ length t.now) }
{
    let mut at = from;
    for _ in 0..k {
        at = path_end(s, t, at);
    }
    at
}

// Where in the answer the vertices of a path stand, and how many they are.
#[derive(Clone, Copy, Debug, PartialEq, Eq)]
pub struct PathPart {
    pub offset: usize,
    pub length: usize,
}

// Checks the answer, once, and finds the vertex bytes of path k in it.
pub fn find_path(graph: &[u8], answer: &[u8], k: usize) -> Result<PathPart, Refused>
    ensures { PartFound graph.now answer.now k (verdict_of result).number (verdict_of result).place (part_of result).offset (part_of result).length }
{
    hand_out_verdict(graph, answer, k)?;
    let at = path_at(graph, answer, first_path_at(graph), k);
    let offset = path_vertices_at(graph, at);
    let length = path_length(graph, answer, at);
    Ok(PathPart { offset, length })
}

// The vertex bytes of path k, a part of the answer; the empty part at its front where the answer is refused or has no path k.
pub fn hand_out<'a>(graph: &[u8], answer: &'a [u8], k: usize) -> &'a [u8]
    ensures bytes { result.now ≡ handed_out graph.now answer.now k }
    ensures place { (result.ref_ptr.0 ≡ answer.entry.ref_ptr.0) × (result.ref_ptr.1 ≡ answer.entry.ref_ptr.1 + handed_out_at graph.now answer.now k) }
{
    match find_path(graph, answer, k) {
        Ok(part) => &answer[part.offset..part.offset + part.length],
        Err(_) => &answer[..0],
    }
}
