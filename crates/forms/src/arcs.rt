// Finding an arc by its ends: the table of first arcs, and the look at the arcs of one tail.
ghost use Rattle.std.specs.Prelude.{◌≡◌, ◌<◌, ◌≤◌};
ghost use Rattle.forms.specs.GraphOf.{arcs_of};
ghost use Rattle.forms.specs.GraphReads.{ArcsRight};
ghost use Rattle.forms.specs.ArcTable.{ArcsFrom, ArcTable, tails_below, arc_number};
ghost use Rattle.forms.specs.Limits.{room_vertices};

use crate::Graph;
use crate::fields::{arc_count, arc_head, arc_tail, first_arc_at};

// How many arcs have a tail below u, counted on from an arc before which all have one: arcs ascend by tail, so the first that has none ends the count.
fn arcs_below(s: &[u8], base: usize, count: usize, u: usize, from: usize) -> usize
    requires { ArcsFrom s.now base count × (from ≤ tails_below (arcs_of s.now) u) }
    ensures { result ≡ tails_below (arcs_of s.now) u }
{
    for a in from..count {
        if u <= arc_tail(s, base, a) {
            return a;
        }
    }
    count
}

// The table of first arcs: at u the number of arcs whose tail is below u. Arcs are passed once, since they ascend by tail.
pub fn first_arcs(s: &[u8]) -> [u16; Graph::ROOM_VERTICES + 1]
    requires { ArcsRight s.now }
    ensures { ArcTable s.now result }
{
    let base = first_arc_at(s);
    let count = arc_count(s);
    let mut first = [0u16; Graph::ROOM_VERTICES + 1];
    let mut below = 0;
    for (u, entry) in first.iter_mut().enumerate() {
        below = arcs_below(s, base, count, u, below);
        *entry = below as u16;
    }
    first
}

// The number of the arc from u to v, where there is one: a look at the arcs of tail u alone.
pub fn find_arc(
    s: &[u8],
    first: &[u16; Graph::ROOM_VERTICES + 1],
    u: usize,
    v: usize,
) -> Option<usize>
    requires { ArcTable s.now first.now × (u < room_vertices) }
    ensures { result ≡ arc_number (arcs_of s.now) u v }
{
    let base = first_arc_at(s);
    for a in usize::from(first[u])..usize::from(first[u + 1]) {
        if arc_head(s, base, a) == v {
            return Some(a);
        }
    }
    None
}
