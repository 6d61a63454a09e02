// The lines of a listing: stored in a lent buffer from an index on, with the index behind what was stored returned, and measured before anything is stored.
ghost use Rattle.std.specs.Prelude.{◌≡◌, ◌≤◌, length};
ghost use Rattle.text.specs.Text.{TextFits, Puts};
ghost use Rattle.listing.specs.Lines.{pair_line, vertex_texts, path_line, bound_line};

use text::{number_length, put_number, put_text};

pub fn put_pair_line(out: &mut [u8], at: usize, word: &[u8], a: usize, b: usize) -> usize
    requires { TextFits out.old at (pair_line word.now a b) }
    ensures { Puts out.old at (pair_line word.now a b) out.new result }
{
    let first = put_text(out, at, word);
    let gap = put_number(out, first, a);
    out[gap] = b' ';
    let end = put_number(out, gap + 1, b);
    out[end] = b'\n';
    end + 1
}

// No word of a listing has more than eight letters, so the sum fits.
pub fn pair_line_length(word: &[u8], a: usize, b: usize) -> usize
    requires { length word.now ≤ 8 }
    ensures value { result ≡ length (pair_line word.now a b) }
    ensures small { result ≤ 50 }
{
    word.len() + number_length(a) + 1 + number_length(b) + 1
}

// A space and its number for each vertex.
fn put_vertices(out: &mut [u8], at: usize, vertices: &[u8]) -> usize
    requires { TextFits out.old at (vertex_texts vertices.now) }
    ensures { Puts out.old at (vertex_texts vertices.now) out.new result }
{
    let mut end = at;
    for &v in vertices {
        out[end] = b' ';
        end = put_number(out, end + 1, usize::from(v));
    }
    end
}

// No answer form has more vertices in a path, so the sum fits.
fn vertices_length(vertices: &[u8]) -> usize
    requires { length vertices.now ≤ 65_535 }
    ensures value { result ≡ length (vertex_texts vertices.now) }
    ensures small { result ≤ 1_376_235 }
{
    vertices
        .iter()
        .map(|&v| 1 + number_length(usize::from(v)))
        .sum()
}

pub fn put_path_line(out: &mut [u8], at: usize, weight: usize, vertices: &[u8]) -> usize
    requires { TextFits out.old at (path_line weight vertices.now) }
    ensures { Puts out.old at (path_line weight vertices.now) out.new result }
{
    let first = put_number(out, at, weight);
    let end = put_vertices(out, first, vertices);
    out[end] = b'\n';
    end + 1
}

pub fn path_line_length(weight: usize, vertices: &[u8]) -> usize
    requires { length vertices.now ≤ 65_535 }
    ensures { result ≡ length (path_line weight vertices.now) }
{
    number_length(weight) + vertices_length(vertices) + 1
}

pub fn put_bound_line(out: &mut [u8], at: usize, bound: usize) -> usize
    requires { TextFits out.old at (bound_line bound) }
    ensures { Puts out.old at (bound_line bound) out.new result }
{
    let first = put_text(out, at, b"bound ");
    let end = put_number(out, first, bound);
    out[end] = b'\n';
    end + 1
}

// The word has six bytes.
pub fn bound_line_length(bound: usize) -> usize
    ensures value { result ≡ length (bound_line bound) }
    ensures small { result ≤ 27 }
{
    6 + number_length(bound) + 1
}
