// Writing the answer form of a graph: numbers, marks, path records, and the whole form at the front of the output. What a version fixes comes from the forms.
#![tactic(auto)]

ghost use Rattle.std.specs.Prelude.{◌≡◌, ◌+◌, ◌*◌, ◌<◌, ◌≤◌, length, replicate};
ghost use Rattle.std.proofs.Math.IntN.{sub_ℕ};
ghost use Rattle.forms.specs.Layout.{count_bytes, max_path_length, longest_answer};
ghost use Rattle.forms.specs.Limits.{room_vertices};
ghost use Rattle.forms.specs.GraphForm.{vertex_count};
ghost use Rattle.forms.specs.AnswerForm.{in_mark_at, first_path_at, path_vertices_at};
ghost use Rattle.checker.specs.Encode.{bytes32, count_in, word32, mark_bytes, path_record, path_bytes, encode_answer};
ghost use Rattle.reads.specs.ReadTable.{row_length};
ghost use Rattle.network.specs.Network.{nth, base};
ghost use Rattle.paths.specs.Peel.{weighted_of, collected};
ghost use Rattle.writing.specs.Writing.{Placed, held_marks, Writable, longest_record, longest_records, PathsFit};

use forms::fields::{first_path_at, in_mark_at, out_mark_at, path_vertices_at, vertex_count};
use forms::layout::answer_version_of;
use forms::{Answer, Graph};
use network::BASE;
use paths::{Path, Paths};

// The marks of the vertices, into each and out of it, which are held with the network's base added.
#[derive(Drop)]
pub struct Marks {
    pub into: [u64; Graph::ROOM_VERTICES],
    pub outof: [u64; Graph::ROOM_VERTICES],
}

impl Marks {
    // No mark is known yet.
    pub fn empty() -> Marks
        ensures { (result.into ≡ replicate room_vertices 0) × (result.outof ≡ replicate room_vertices 0) }
    {
        Marks {
            into: [0; Graph::ROOM_VERTICES],
            outof: [0; Graph::ROOM_VERTICES],
        }
    }
}

// Puts bytes into the output at a place.
fn put(out: &mut [u8], place: usize, bytes: &[u8])
    requires { place + length bytes.now ≤ length out.old }
    ensures { Placed out.old place bytes.now out.new }
{
    out[place..place + bytes.len()].copy_from_slice(bytes);
}

// Puts a mark, which is held with the base added, as a signed number in two's complement.
fn put_mark(out: &mut [u8], place: usize, plus: u64)
    requires { (place + 4 ≤ length out.old) × (plus ≤ 2 * base) }
    ensures { Placed out.old place (bytes32 (word32 (sub_ℕ plus base))) out.new }
{
    let mark = (plus as u32).wrapping_sub(BASE as u32);
    put(out, place, &mark.to_be_bytes());
}

// Puts the two marks of each vertex.
fn put_marks(s: &[u8], out: &mut [u8], marks: &Marks)
    requires { (first_path_at s.now ≤ length out.old) × Writable s.now marks.now.into marks.now.outof }
    ensures { Placed out.old (in_mark_at s.now 0) (mark_bytes (held_marks (nth marks.now.into) (nth marks.now.outof)) (vertex_count s.now) 0) out.new }
{
    for v in 0..vertex_count(s) {
        put_mark(out, in_mark_at(s, v), marks.into[v]);
        put_mark(out, out_mark_at(s, v), marks.outof[v]);
    }
}

// Puts a count of vertices, in as many bytes as the version of the graph gives it.
fn put_count(s: &[u8], out: &mut [u8], place: usize, len: usize)
    requires { (place + count_bytes s.now ≤ length out.old) × (len ≤ max_path_length s.now) }
    ensures { Placed out.old place (count_in s.now len) out.new }
{
    out[place] = len as u8;
}

// Puts the record of a path: weight, number of vertices, vertices. Gives the place behind it.
fn put_path(s: &[u8], out: &mut [u8], place: usize, path: &Path) -> usize
    requires room { place + longest_record s.now ≤ length out.old }
    requires fits { (path.now.size ≤ max_path_length s.now) × (path.now.weight < 4_294_967_296) × (length path.now.row ≡ row_length) }
    ensures placed { Placed out.old place (path_record s.now (weighted_of path.now)) out.new }
    ensures value { result ≡ path_vertices_at s.now place + path.now.size }
{
    put(out, place, &(path.weight as u32).to_be_bytes());
    put_count(s, out, place + 4, path.size);
    let at = path_vertices_at(s, place);
    let vertices = path.vertices();
    put(out, at, vertices);
    at + path.size
}

// Puts the records of the paths behind the marks; gives the place behind them.
fn put_paths(s: &[u8], out: &mut [u8], paths: &Paths) -> usize
    requires { (first_path_at s.now + longest_records s.now paths.now.count ≤ length out.old) × PathsFit s.now paths.now }
    ensures placed { Placed out.old (first_path_at s.now) (path_bytes s.now (collected paths.now)) out.new }
    ensures value { (result ≡ first_path_at s.now + length (path_bytes s.now (collected paths.now))) × (result ≤ first_path_at s.now + longest_records s.now paths.now.count) }
{
    let mut end = first_path_at(s);
    for path in paths.as_slice() {
        end = put_path(s, out, end, path);
    }
    end
}

// Writes the answer form at the front of the output; gives its length, which is put last.
pub fn write_answer(s: &[u8], out: &mut [u8], price: u64, marks: &Marks, paths: &Paths) -> usize
    requires s_in_bounds { longest_answer s.now ≤ length out.old }
    requires writable { Writable s.now marks.now.into marks.now.outof }
    requires paths_fit { PathsFit s.now paths.now }
    ensures placed { Placed out.old 0 (encode_answer s.now price (held_marks (nth marks.now.into) (nth marks.now.outof)) (collected paths.now)) out.new }
    ensures value { result ≡ length (encode_answer s.now price (held_marks (nth marks.now.into) (nth marks.now.outof)) (collected paths.now)) }
{
    out[Answer::AT_VERSION] = answer_version_of(s) as u8;
    put(out, Answer::AT_PATHS, &(paths.count as u16).to_be_bytes());
    put(out, Answer::AT_PRICE, &price.to_be_bytes());
    put_marks(s, out, marks);
    let end = put_paths(s, out, paths);
    put(out, 0, &(end as u32).to_be_bytes());
    end
}
