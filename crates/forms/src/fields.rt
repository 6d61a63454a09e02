// The fields of the two forms and the places of their records, one function each. What a version fixes comes from `layout`; a field that a version adds gets its function here.
ghost use Rattle.std.specs.Prelude.{◌≡◌, ◌+◌, ◌*◌, ◌<◌, ◌≤◌, length};
ghost use Rattle.forms.specs.Bytes.{be32 as number32};
ghost use Rattle.forms.specs.Layout.{count_bytes, vertex_length};
ghost use Rattle.forms.specs.GraphForm.{header_length, length_word, vertex_count, arc_count_at, arc_count, read_count_at, read_count, opening_price_at, opening_price, vertex_at, flags, vertex_demand, first_arc_at, arc_length, arc_at, arc_tail, arc_head, arc_cost, arc_demand, first_read_at, read_length, read_vertices_at, read_end};
ghost use Rattle.forms.specs.AnswerForm.{answer_length_word, answer_version, path_count, price_at, answer_header_length, stated_price, mark_part_length, mark_length, in_mark_at, out_mark_at, mark_parts, first_path_at, path_header_length, path_weight, path_length, path_vertices_at, path_end};

use crate::bytes::{be16, be32, be64};
use crate::layout::{count_at, count_bytes, price_parts, vertex_length};
use crate::{Answer, Graph};

// Where the number of arcs stands, as a refusal tells it.
pub fn arc_count_at(s: &[u8]) -> usize
    ensures value { result ≡ arc_count_at s.now }
    ensures small { result ≤ 7 }
{
    Graph::AT_VERTICES + count_bytes(s)
}

// Where the number of reads stands.
pub fn read_count_at(s: &[u8]) -> usize
    ensures value { result ≡ read_count_at s.now }
    ensures small { result ≤ 9 }
{
    arc_count_at(s) + 2
}

// Where the opening price stands.
pub fn opening_price_at(s: &[u8]) -> usize
    ensures value { result ≡ opening_price_at s.now }
    ensures small { result ≤ 10 }
{
    read_count_at(s) + 1
}

// How long a graph form's header is.
pub fn header_length(s: &[u8]) -> usize
    ensures value { result ≡ header_length s.now }
    ensures small { (13 ≤ result) × (result ≤ 14) }
{
    12 + count_bytes(s)
}

// The length that a graph form states.
pub fn length_word(s: &[u8]) -> usize
    requires { header_length s.now ≤ length s.now }
    ensures value { result ≡ length_word s.now }
    ensures small { result < 4294967296 }
{
    be32(s, 0)
}

// How many vertices a graph has.
pub fn vertex_count(s: &[u8]) -> usize
    requires { header_length s.now ≤ length s.now }
    ensures value { result ≡ vertex_count s.now }
    ensures small { result < 65536 }
{
    count_at(s, s, Graph::AT_VERTICES)
}

// How many arcs a graph has.
pub fn arc_count(s: &[u8]) -> usize
    requires { header_length s.now ≤ length s.now }
    ensures value { result ≡ arc_count s.now }
    ensures small { result < 65536 }
{
    be16(s, arc_count_at(s))
}

// How many reads a graph has.
pub fn read_count(s: &[u8]) -> usize
    requires { header_length s.now ≤ length s.now }
    ensures value { result ≡ read_count s.now }
    ensures small { result < 256 }
{
    usize::from(s[read_count_at(s)])
}

// The price of opening one more path.
pub fn opening_price(s: &[u8]) -> usize
    requires { header_length s.now ≤ length s.now }
    ensures value { result ≡ opening_price s.now }
    ensures small { result < 4294967296 }
{
    be32(s, opening_price_at(s))
}

// Where the record of vertex v stands.
pub fn vertex_at(s: &[u8], v: usize) -> usize
    requires { vertex_at s.now v < 18446744073709551616 }
    ensures { result ≡ vertex_at s.now v }
{
    header_length(s) + vertex_length(s) * v
}

// Where the record of vertex v ends.
pub fn vertex_end(s: &[u8], v: usize) -> usize
    requires { v < 65536 }
    ensures { result ≡ vertex_at s.now v + vertex_length s.now }
{
    vertex_at(s, v) + vertex_length(s)
}

// The flag byte of vertex v.
pub fn vertex_flags(s: &[u8], v: usize) -> usize
    requires { vertex_at s.now v + vertex_length s.now ≤ length s.now }
    ensures value { result ≡ flags s.now v }
    ensures small { result < 256 }
{
    usize::from(s[vertex_at(s, v)])
}

// The demand of vertex v.
pub fn vertex_demand(s: &[u8], v: usize) -> usize
    requires { vertex_at s.now v + vertex_length s.now ≤ length s.now }
    ensures value { result ≡ vertex_demand s.now v }
    ensures small { result < 4294967296 }
{
    be32(s, vertex_at(s, v) + 1)
}

// Where the record of the first arc stands: what the functions of an arc ask for as `base`, so that nothing in a loop over arcs depends on the version.
pub fn first_arc_at(s: &[u8]) -> usize
    requires { header_length s.now ≤ length s.now }
    ensures value { result ≡ first_arc_at s.now }
    ensures small { result < 1048576 }
{
    vertex_at(s, vertex_count(s))
}

// Where the record of arc a stands.
pub fn arc_at(s: &[u8], base: usize, a: usize) -> usize
    requires { (base ≡ first_arc_at s.now) × (arc_at s.now a < 18446744073709551616) }
    ensures { result ≡ arc_at s.now a }
{
    base + Graph::ARC * a
}

// The tail of arc a.
pub fn arc_tail(s: &[u8], base: usize, a: usize) -> usize
    requires { (base ≡ first_arc_at s.now) × (arc_at s.now a + arc_length ≤ length s.now) }
    ensures value { result ≡ arc_tail s.now (arc_at s.now a) }
    ensures small { result < 256 }
{
    usize::from(s[arc_at(s, base, a)])
}

// The head of arc a.
pub fn arc_head(s: &[u8], base: usize, a: usize) -> usize
    requires { (base ≡ first_arc_at s.now) × (arc_at s.now a + arc_length ≤ length s.now) }
    ensures value { result ≡ arc_head s.now (arc_at s.now a) }
    ensures small { result < 256 }
{
    usize::from(s[arc_at(s, base, a) + 1])
}

// Tail and head of arc a as one number, by which arcs are ordered.
pub fn arc_ends(s: &[u8], base: usize, a: usize) -> usize
    requires { (base ≡ first_arc_at s.now) × (arc_at s.now a + arc_length ≤ length s.now) }
    ensures value { result ≡ arc_tail s.now (arc_at s.now a) * 256 + arc_head s.now (arc_at s.now a) }
    ensures small { arc_head s.now (arc_at s.now a) < 256 }
{
    arc_tail(s, base, a) * 256 + arc_head(s, base, a)
}

// The cost of arc a.
pub fn arc_cost(s: &[u8], base: usize, a: usize) -> usize
    requires { (base ≡ first_arc_at s.now) × (arc_at s.now a + arc_length ≤ length s.now) }
    ensures value { result ≡ arc_cost s.now (arc_at s.now a) }
    ensures small { result < 4294967296 }
{
    be32(s, arc_at(s, base, a) + 2)
}

// The demand of arc a.
pub fn arc_demand(s: &[u8], base: usize, a: usize) -> usize
    requires { (base ≡ first_arc_at s.now) × (arc_at s.now a + arc_length ≤ length s.now) }
    ensures value { result ≡ arc_demand s.now (arc_at s.now a) }
    ensures small { result < 4294967296 }
{
    be32(s, arc_at(s, base, a) + 6)
}

// Where the record of the first read stands.
pub fn first_read_at(s: &[u8]) -> usize
    requires { header_length s.now ≤ length s.now }
    ensures { result ≡ first_read_at s.now }
{
    arc_at(s, first_arc_at(s), arc_count(s))
}

// How many vertices the read at an offset has.
pub fn read_length(s: &[u8], at: usize) -> usize
    requires { read_vertices_at s.now at ≤ length s.now }
    ensures value { result ≡ read_length s.now at }
    ensures small { result < 65536 }
{
    count_at(s, s, at)
}

// Where the vertices of the read at an offset stand: the end of its count.
pub fn read_vertices_at(s: &[u8], at: usize) -> usize
    requires { at + 2 < 18446744073709551616 }
    ensures { result ≡ read_vertices_at s.now at }
{
    at + count_bytes(s)
}

// Where the read at an offset ends.
pub fn read_end(s: &[u8], at: usize) -> usize
    requires { read_vertices_at s.now at ≤ length s.now }
    ensures { result ≡ read_end s.now at }
{
    read_vertices_at(s, at) + read_length(s, at)
}

// The length that an answer form states.
pub fn answer_length_word(t: &[u8]) -> usize
    requires { price_at ≤ length t.now }
    ensures value { result ≡ answer_length_word t.now }
    ensures small { result < 4294967296 }
{
    be32(t, 0)
}

// An answer form's version.
pub fn answer_version(t: &[u8]) -> usize
    requires { price_at ≤ length t.now }
    ensures value { result ≡ answer_version t.now }
    ensures small { result < 256 }
{
    usize::from(t[Answer::AT_VERSION])
}

// How many paths an answer has.
pub fn path_count(t: &[u8]) -> usize
    requires { price_at ≤ length t.now }
    ensures value { result ≡ path_count t.now }
    ensures small { result < 65536 }
{
    be16(t, Answer::AT_PATHS)
}

// The price that an answer states.
pub fn stated_price(s: &[u8], t: &[u8]) -> usize
    requires { answer_header_length s.now ≤ length t.now }
    ensures { result ≡ stated_price s.now t.now }
{
    be64(t, Answer::AT_PRICE)
}

// How long a mark is.
pub fn mark_length(s: &[u8]) -> usize
    ensures value { result ≡ mark_length s.now }
    ensures small { (4 ≤ result) × (result ≤ 8) }
{
    Answer::MARK_PART * price_parts(s)
}

// Where the in-mark of vertex v stands.
pub fn in_mark_at(s: &[u8], v: usize) -> usize
    requires { in_mark_at s.now v < 18446744073709551616 }
    ensures { result ≡ in_mark_at s.now v }
{
    let header = Answer::AT_PRICE + 8 * price_parts(s);
    header + 2 * mark_length(s) * v
}

// Where the out-mark of vertex v stands.
pub fn out_mark_at(s: &[u8], v: usize) -> usize
    requires { out_mark_at s.now v < 18446744073709551616 }
    ensures { result ≡ out_mark_at s.now v }
{
    in_mark_at(s, v) + mark_length(s)
}

// Of how many 4-byte numbers the marks of all vertices are.
pub fn mark_parts(s: &[u8]) -> usize
    requires { header_length s.now ≤ length s.now }
    ensures value { result ≡ mark_parts s.now }
    ensures small { result < 262144 }
{
    2 * price_parts(s) * vertex_count(s)
}

// The 32 bits of the part of a mark at an offset.
pub fn mark_bits(t: &[u8], at: usize) -> usize
    requires { at + mark_part_length ≤ length t.now }
    ensures value { result ≡ number32 t.now at }
    ensures small { result < 4294967296 }
{
    be32(t, at)
}

// Where the record of the first path stands.
pub fn first_path_at(s: &[u8]) -> usize
    requires { header_length s.now ≤ length s.now }
    ensures value { result ≡ first_path_at s.now }
    ensures small { (15 ≤ result) × (result < 2097152) }
{
    in_mark_at(s, vertex_count(s))
}

// The weight of the path at an offset.
pub fn path_weight(t: &[u8], at: usize) -> usize
    requires { at + 4 ≤ length t.now }
    ensures value { result ≡ path_weight t.now at }
    ensures small { result < 4294967296 }
{
    be32(t, at)
}

// How many vertices the path at an offset has.
pub fn path_length(s: &[u8], t: &[u8], at: usize) -> usize
    requires { path_vertices_at s.now at ≤ length t.now }
    ensures value { result ≡ path_length s.now t.now at }
    ensures small { result < 65536 }
{
    count_at(s, t, at + 4)
}

// Where the vertices of the path at an offset stand: the end of its weight and count.
pub fn path_vertices_at(s: &[u8], at: usize) -> usize
    requires { at + 6 < 18446744073709551616 }
    ensures { result ≡ path_vertices_at s.now at }
{
    at + 4 + count_bytes(s)
}

// Where the path at an offset ends.
pub fn path_end(s: &[u8], t: &[u8], at: usize) -> usize
    requires { path_vertices_at s.now at ≤ length t.now }
    ensures { result ≡ path_end s.now t.now at }
{
    path_vertices_at(s, at) + path_length(s, t, at)
}
