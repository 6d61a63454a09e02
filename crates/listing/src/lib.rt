// The listing that the programs print, as bytes. The definitions that the contracts cite are in specs/, in document 01's words.
#![tactic(auto)]

mod lines;

ghost use Rattle.std.specs.Prelude.{◌≡◌, ◌≤◌, length};
ghost use Rattle.forms.specs.AnswerForm.{path_count};
ghost use Rattle.forms.specs.Refusals.{number_of};
ghost use Rattle.checker.specs.Check.{check_verdict};
ghost use Rattle.text.specs.Text.{TextFits, Puts};
ghost use Rattle.listing.specs.Lines.{refused_line};
ghost use Rattle.listing.specs.Listing.{path_lines, cover_listing, listing_of, longest_input, inputs_listing, longest_listing, listed_of, Lists};

use checker::check::check;
use checker::reader::read_graph;
use forms::fields::{
    first_path_at, path_count, path_end, path_vertices_at, path_weight, stated_price,
};
use forms::{Answer, Fault, Graph, Refused};
use lines::{
    bound_line_length, pair_line_length, path_line_length, put_bound_line, put_pair_line,
    put_path_line,
};

// No listing has more bytes: an output of so many takes every text that is listed.
pub const LONGEST_LISTING: usize = 58 + (10 + 3 * Graph::ROOM_VERTICES) * Answer::ROOM_PATHS;

// No longer input is looked at.
pub const LONGEST_INPUT: usize = 65_536;

// The lines of the paths of an accepted answer, from the very bytes that were checked.
fn put_paths(graph: &[u8], answer: &[u8], out: &mut [u8], at: usize) -> usize
    requires answer_value { (check_verdict graph.now answer.now).number ≡ 0 }
    requires text_fits { TextFits out.old at (path_lines graph.now answer.now (path_count answer.now) 0) }
    ensures { Puts out.old at (path_lines graph.now answer.now (path_count answer.now) 0) out.new result }
{
    let paths = path_count(answer);
    let mut path = first_path_at(graph);
    let mut end = at;
    for _ in 0..paths {
        let first = path_vertices_at(graph, path);
        let behind = path_end(graph, answer, path);
        end = put_path_line(out, end, path_weight(answer, path), &answer[first..behind]);
        path = behind;
    }
    end
}

// How many bytes these lines have: the same walk over the same bytes.
fn paths_length(graph: &[u8], answer: &[u8]) -> usize
    requires { (check_verdict graph.now answer.now).number ≡ 0 }
    ensures value { result ≡ length (path_lines graph.now answer.now (path_count answer.now) 0) }
    ensures small { result ≤ longest_listing }
{
    let count = path_count(answer);
    let mut path = first_path_at(graph);
    let mut bytes = 0;
    for _ in 0..count {
        let first = path_vertices_at(graph, path);
        let behind = path_end(graph, answer, path);
        bytes += path_line_length(path_weight(answer, path), &answer[first..behind]);
        path = behind;
    }
    bytes
}

// The listing of an accepted answer. Its stated price is both the price and the bound.
fn put_cover(graph: &[u8], answer: &[u8], out: &mut [u8]) -> usize
    requires answer_value { (check_verdict graph.now answer.now).number ≡ 0 }
    requires text_fits { TextFits out.old 0 (cover_listing graph.now answer.now) }
    ensures { Puts out.old 0 (cover_listing graph.now answer.now) out.new result }
{
    let count = path_count(answer);
    let price = stated_price(graph, answer);
    let first = put_pair_line(out, 0, b"cover ", count, price);
    let last = put_paths(graph, answer, out, first);
    put_bound_line(out, last, price)
}

// How many bytes this listing has.
fn cover_length(graph: &[u8], answer: &[u8]) -> usize
    requires { (check_verdict graph.now answer.now).number ≡ 0 }
    ensures { result ≡ length (cover_listing graph.now answer.now) }
{
    let count = path_count(answer);
    let price = stated_price(graph, answer);
    pair_line_length(b"cover ", count, price)
        + paths_length(graph, answer)
        + bound_line_length(price)
}

// Lists an accepted answer, where the output is long enough.
fn list_accepted(graph: &[u8], answer: &[u8], out: &mut [u8]) -> Result<usize, Refused>
    requires { (check_verdict graph.now answer.now).number ≡ 0 }
    ensures { Lists out.old (cover_listing graph.now answer.now) out.new (listed_of result) }
{
    if out.len() < cover_length(graph, answer) {
        return Err(Refused::new(Fault::ListingShort, 0));
    }
    Ok(put_cover(graph, answer, out))
}

// Lists an answer form for a graph form, at the front of `out`, and answers how many bytes were written. What is refused is listed too, by its line: that is no
// refusal of the call. An output that is shorter than the text is one. The pair is checked once, and what is listed are the bytes that were checked.
pub fn list_cover(graph: &[u8], answer: &[u8], out: &mut [u8]) -> Result<usize, Refused>
    ensures { Lists out.old (listing_of graph.now answer.now) out.new (listed_of result) }
{
    match check(graph, answer) {
        Ok(()) => list_accepted(graph, answer, out),
        Err(wrong) => list_refused(wrong, out),
    }
}

// Lists a refusal by its line.
pub fn list_refusal(number: usize, place: usize, out: &mut [u8]) -> Result<usize, Refused>
    ensures lists { Lists out.old (refused_line number place) out.new (listed_of result) }
    ensures limits { (LONGEST_LISTING ≡ longest_listing) × (LONGEST_INPUT ≡ longest_input) }
{
    if out.len() < pair_line_length(b"refused ", number, place) {
        return Err(Refused::new(Fault::ListingShort, 0));
    }
    Ok(put_pair_line(out, 0, b"refused ", number, place))
}

// The same for a refusal that is not yet told by its number.
fn list_refused(refused: Refused, out: &mut [u8]) -> Result<usize, Refused>
    ensures { Lists out.old (refused_line (number_of refused.fault) refused.place) out.new (listed_of result) }
{
    list_refusal(refused.fault.number(), refused.place, out)
}

// Lists what two inputs hold, of any length.
pub fn list_inputs(graph: &[u8], answer: &[u8], out: &mut [u8]) -> Result<usize, Refused>
    ensures { Lists out.old (inputs_listing graph.now answer.now) out.new (listed_of result) }
{
    let is_too_long = graph.len() > LONGEST_INPUT;
    if is_too_long {
        return list_refused(Refused::new(Fault::GraphLength, 0), out);
    }
    if answer.len() <= LONGEST_INPUT {
        return list_cover(graph, answer, out);
    }
    match read_graph(graph) {
        Ok(()) => list_refused(Refused::new(Fault::AnswerLength, 0), out),
        Err(refused) => list_refused(refused, out),
    }
}
