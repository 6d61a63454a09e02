// Which vertices are starts and ends: one table, made once for a call.
ghost use Rattle.std.specs.Prelude.{◌≡◌, ◌<◌};
ghost use Rattle.mathematics.specs.Graph.{is_start, is_end};
ghost use Rattle.forms.specs.Limits.{room_vertices};
ghost use Rattle.forms.specs.GraphOf.{graph_of};
ghost use Rattle.forms.specs.GraphReads.{Reads};
ghost use Rattle.forms.specs.Roles.{Roles};

use crate::Graph;
use crate::fields::{vertex_count, vertex_flags};

// What a vertex is in the graph: a start, an end, both or neither.
#[derive(Clone, Copy, Debug, PartialEq, Eq)]
pub struct Role {
    pub start: bool,
    pub end: bool,
}

impl Role {
    // What a vertex is that carries no flag, and what stands behind the last vertex.
    pub const NEITHER: Role = Role {
        start: false,
        end: false,
    };
}

// The role of each vertex of a form that reads.
pub fn roles(s: &[u8]) -> [Role; Graph::ROOM_VERTICES]
    requires { Reads s.now }
    ensures { Roles s.now result }
{
    let mut table = [Role::NEITHER; Graph::ROOM_VERTICES];
    for v in 0..vertex_count(s) {
        let flag = vertex_flags(s, v);
        table[v] = Role {
            start: flag % 2 == 1,
            end: flag / 2 == 1,
        };
    }
    table
}

// Whether vertex v is a start.
pub fn is_start(s: &[u8], roles: &[Role; Graph::ROOM_VERTICES], v: usize) -> bool
    requires { Roles s.now roles.now × (v < room_vertices) }
    ensures { result ≡ is_start (graph_of s.now) v }
{
    roles[v].start
}

// Whether vertex v is an end.
pub fn is_end(s: &[u8], roles: &[Role; Graph::ROOM_VERTICES], v: usize) -> bool
    requires { Roles s.now roles.now × (v < room_vertices) }
    ensures { result ≡ is_end (graph_of s.now) v }
{
    roles[v].end
}
