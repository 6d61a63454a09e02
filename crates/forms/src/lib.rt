// The two forms of document 01: their types with the limits, numbers in bytes, one function for each field and place, finding an arc, marks. What reads or checks a form stands above.
// The definitions that the contracts cite are in specs/, in document 01's words and order.
#![tactic(auto)]

pub mod arcs;
pub mod bytes;
pub mod fields;
pub mod layout;
pub mod marks;
pub mod refusals;
pub mod roles;

ghost use Rattle.std.specs.Prelude.{◌≡◌, List, ℕ, ◌≤◌, length};
ghost use Rattle.forms.specs.GraphFaults.{refusal};
ghost use Rattle.forms.specs.Limits.{max_opening, max_cost, max_demand, min_read_length, mark_limit, room_vertices, room_arcs, room_reads, room_paths};
ghost use Rattle.forms.specs.Layout.{version_at, newest, longest_graph};
ghost use Rattle.forms.specs.GraphForm.{header_length, vertex_count_at, arc_length};
ghost use Rattle.forms.specs.AnswerForm.{answer_version_at, path_count_at, price_at, answer_header_length, mark_part_length};
ghost use Rattle.forms.specs.GraphReads.{ArcsRight};
ghost use Rattle.forms.specs.Values.{empty_header, header_of, empty_graph, GraphIs, empty_answer, answer_of};

use crate::arcs::first_arcs;
use crate::fields::{arc_count, opening_price, path_count, read_count, stated_price, vertex_count};
pub use crate::refusals::{Fault, Refused};

// Number and place, as the definitions give them and the programs over stored vectors print them; both are 0 where nothing is refused.
#[derive(Clone, Copy, Debug, PartialEq, Eq)]
pub struct Verdict {
    pub number: usize,
    pub place: usize,
}

impl Verdict {
    pub fn new(number: usize, place: usize) -> Verdict
        ensures { result ≡ refusal number place }
    {
        Verdict { number, place }
    }
}

// The values of a graph form's header, once they are in range.
#[derive(Clone, Copy, Debug, PartialEq, Eq)]
pub struct Header {
    pub vertices: usize,
    pub arcs: usize,
    pub reads: usize,
    pub opening: usize,
}

impl Header {
    // The header of the graph with nothing in it.
    pub fn empty() -> Header
        ensures { result ≡ empty_header }
    {
        Header {
            vertices: 0,
            arcs: 0,
            reads: 0,
            opening: 0,
        }
    }

    // The header of a graph form.
    pub fn of(s: &[u8]) -> Header
        requires { header_length s.now ≤ length s.now }
        ensures { result ≡ header_of s.now }
    {
        Header {
            vertices: vertex_count(s),
            arcs: arc_count(s),
            reads: read_count(s),
            opening: opening_price(s),
        }
    }
}

// A graph form that reads: its header, and for each vertex the number of its first arc.
#[derive(Clone, Copy, Debug, PartialEq, Eq)]
pub struct Graph {
    pub header: Header,
    pub first: [u16; Graph::ROOM_VERTICES + 1],
}

impl Graph {
    // Document 01, "Numbers allowed". Those that a version fixes are given, as the definitions have them, by the functions of `layout`.
    pub const MAX_VERTICES: usize = 64;

    pub const MAX_ARCS: usize = 256;

    pub const MAX_READS: usize = 16;

    pub const MAX_OPENING: usize = 1_000_000_000;

    pub const MAX_COST: usize = 1_000_000;

    pub const MAX_DEMAND: usize = 1_000_000;

    pub const MIN_READ: usize = 2;

    pub const MAX_READ: usize = 16;
    // How many vertices, arcs and reads the tables have room for.
    pub const ROOM_VERTICES: usize = 64;

    pub const ROOM_ARCS: usize = 256;

    pub const ROOM_READS: usize = 16;
    // Document 01, "The two forms": the newest version, how long an arc's record and the longest form are, and where version and number of vertices stand.
    pub const NEWEST: usize = 1;

    pub const ARC: usize = 10;

    pub const LONGEST: usize = 3165;

    pub const AT_VERSION: usize = 4;

    pub const AT_VERTICES: usize = 5;

    // The graph with nothing in it. The numbers that are the same in every version are the definitions' own.
    pub fn empty() -> Graph
        ensures value { result ≡ empty_graph }
        ensures numbers { (Graph.MAX_OPENING ≡ max_opening) × (Graph.MAX_COST ≡ max_cost) × (Graph.MAX_DEMAND ≡ max_demand) × (Graph.MIN_READ ≡ min_read_length) }
        ensures rooms { (Graph.ROOM_VERTICES ≡ room_vertices) × (Graph.ROOM_ARCS ≡ room_arcs) × (Graph.ROOM_READS ≡ room_reads) }
        ensures places { (Graph.AT_VERSION ≡ version_at) × (Graph.AT_VERTICES ≡ vertex_count_at) × (Graph.ARC ≡ arc_length) × (Graph.NEWEST ≡ newest) }
        ensures longest { (s : List ℕ) → Graph.LONGEST ≡ longest_graph s }
    {
        Graph {
            header: Header::empty(),
            first: [0; Graph::ROOM_VERTICES + 1],
        }
    }

    // The header and the table of first arcs of a graph form.
    pub fn of(s: &[u8]) -> Graph
        requires { ArcsRight s.now }
        ensures { GraphIs s.now result }
    {
        Graph {
            header: Header::of(s),
            first: first_arcs(s),
        }
    }
}

// The values of an answer form's header.
#[derive(Clone, Copy, Debug, PartialEq, Eq)]
pub struct Answer {
    pub paths: usize,
    pub price: usize,
}

impl Answer {
    // Document 01, "Numbers allowed", "In an answer". Those that a version fixes are given by the functions of `layout`.
    pub const MAX_PATHS: usize = 464;

    pub const MAX_WEIGHT: usize = 320_000_016;

    pub const MARK_LIMIT: usize = 2_000_000_000;

    pub const MAX_PATH: usize = 64;
    // How many paths the tables have room for.
    pub const ROOM_PATHS: usize = 464;
    // Document 01, "The two forms": how long the longest form and a number of a mark are, and where version, number of paths and price stand.
    pub const LONGEST: usize = 32_543;

    pub const MARK_PART: usize = 4;

    pub const AT_VERSION: usize = 4;

    pub const AT_PATHS: usize = 5;

    pub const AT_PRICE: usize = 7;

    // The answer with nothing in it. The numbers that are the same in every version are the definitions' own.
    pub fn empty() -> Answer
        ensures value { result ≡ empty_answer }
        ensures numbers { (Answer.MARK_LIMIT ≡ mark_limit) × (Answer.ROOM_PATHS ≡ room_paths) }
        ensures places { (Answer.AT_VERSION ≡ answer_version_at) × (Answer.AT_PATHS ≡ path_count_at) × (Answer.AT_PRICE ≡ price_at) × (Answer.MARK_PART ≡ mark_part_length) }
    {
        Answer { paths: 0, price: 0 }
    }

    // The header of an answer form to the graph s.
    pub fn of(s: &[u8], t: &[u8]) -> Answer
        requires { answer_header_length s.now ≤ length t.now }
        ensures { result ≡ answer_of s.now t.now }
    {
        Answer {
            paths: path_count(t),
            price: stated_price(s, t),
        }
    }
}
