// What the version of a graph form fixes, one function for each entry of specs/Layout. Each takes the graph form, of any length, and looks at nothing but its version,
// so none asks its caller for anything: a version that reads otherwise changes the function here and nothing above.
ghost use Rattle.std.specs.Prelude.{◌≡◌, ◌+◌, ◌<◌, ◌≤◌, length};
ghost use Rattle.forms.specs.Limits.{room_vertices, room_arcs, room_reads, room_read_length, room_paths};
ghost use Rattle.forms.specs.Layout.{version as version_of, max_vertices, max_arcs, max_reads, max_read_length, max_paths, max_weight, count_bytes, count_at, max_flag, vertex_length, answer_version_of, price_parts, max_path_length, longest_answer};

use crate::{Answer, Graph};

// A graph form's version; 0 where the form is too short to have one.
pub fn version(s: &[u8]) -> usize
    ensures value { result ≡ version_of s.now }
    ensures small { result < 256 }
{
    if s.len() <= Graph::AT_VERSION {
        return 0;
    }
    usize::from(s[Graph::AT_VERSION])
}

// How many vertices a graph may have.
pub fn max_vertices(s: &[u8]) -> usize
    ensures value { result ≡ max_vertices s.now }
    ensures room { result ≤ room_vertices }
{
    Graph::MAX_VERTICES
}

// How many arcs a graph may have.
pub fn max_arcs(s: &[u8]) -> usize
    ensures value { result ≡ max_arcs s.now }
    ensures room { result ≤ room_arcs }
{
    Graph::MAX_ARCS
}

// How many reads a graph may have.
pub fn max_reads(s: &[u8]) -> usize
    ensures value { result ≡ max_reads s.now }
    ensures room { result ≤ room_reads }
{
    Graph::MAX_READS
}

// How many vertices a read may have.
pub fn max_read_length(s: &[u8]) -> usize
    ensures value { result ≡ max_read_length s.now }
    ensures room { result ≤ room_read_length }
{
    Graph::MAX_READ
}

// How many paths an answer may have.
pub fn max_paths(s: &[u8]) -> usize
    ensures value { result ≡ max_paths s.now }
    ensures room { result ≤ room_paths }
{
    Answer::MAX_PATHS
}

// What the weights of an answer may total.
pub fn max_weight(s: &[u8]) -> usize
    ensures value { result ≡ max_weight s.now }
    ensures small { result < 4294967296 }
{
    Answer::MAX_WEIGHT
}

// In how many bytes a count of vertices stands.
pub fn count_bytes(s: &[u8]) -> usize
    ensures value { result ≡ count_bytes s.now }
    ensures small { (1 ≤ result) × (result ≤ 2) }
{
    1
}

// The count of vertices at an offset of a form t, which is the graph form s or an answer to it.
pub fn count_at(s: &[u8], t: &[u8], at: usize) -> usize
    requires { at + count_bytes s.now ≤ length t.now }
    ensures value { result ≡ count_at s.now t.now at }
    ensures small { result < 65536 }
{
    usize::from(t[at])
}

// The greatest flag byte.
pub fn max_flag(s: &[u8]) -> usize
    ensures { result ≡ max_flag s.now }
{
    3
}

// How long the record of a vertex is.
pub fn vertex_length(s: &[u8]) -> usize
    ensures value { result ≡ vertex_length s.now }
    ensures small { (5 ≤ result) × (result ≤ 13) }
{
    5
}

// The version of an answer to the graph.
pub fn answer_version_of(s: &[u8]) -> usize
    ensures value { result ≡ answer_version_of s.now }
    ensures small { result < 256 }
{
    1
}

// Of how many numbers a price and a mark are.
pub fn price_parts(s: &[u8]) -> usize
    ensures value { result ≡ price_parts s.now }
    ensures small { (1 ≤ result) × (result ≤ 2) }
{
    1
}

// How many vertices a path may have.
pub fn max_path_length(s: &[u8]) -> usize
    ensures value { result ≡ max_path_length s.now }
    ensures room { result ≤ room_vertices }
{
    Answer::MAX_PATH
}

// How long the longest answer to the graph is.
pub fn longest_answer(s: &[u8]) -> usize
    ensures value { result ≡ longest_answer s.now }
    ensures small { result < 4294967296 }
{
    Answer::LONGEST
}
