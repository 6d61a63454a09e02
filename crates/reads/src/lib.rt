// Preparing the reads: a table of reads, a row each, lengths beside it. What a part of another is dropped; then the longest overlap is joined, while there is one.
// Kept: rows and lengths in two arrays, as document 01 names the form: "an array of arrays of vertex numbers as a local by value, lengths in a second array, for dropping and joining".
#![tactic(auto)]

ghost use Rattle.std.specs.Prelude.{◌≡◌, [], ◌+◌, ◌++◌, ◌<◌, ◌≤◌, ◌&&◌, length, take, set, ltb};
ghost use Rattle.mathematics.specs.Lists.{holds};
ghost use Rattle.mathematics.specs.Prepare.{drop_parts, overlap as overlap_of, longest as longest_of, without, join_at, prepare};
ghost use Rattle.reads.specs.ReadTable.{row_at, rows_of, Leaves, held_from, longer_from, gone, Marks, best_of, meeting, next_at, with_from, ReadHolds, RowHolds, TableHolds, Place, row_length};

mod meeting;

use meeting::Meeting;

// The size of the table: so many rows, a read each, and so many vertices at the most in a row, which a joined read can have. specs/ReadTable.antt has the same numbers.
pub const ROWS: usize = 16;

pub const ROW: usize = 64;

// The read of row i.
fn read_of<'a>(rows: &'a [[u8; ROW]; ROWS], lens: &[usize; ROWS], i: usize) -> &'a [u8]
    requires { RowHolds rows.now lens.now i }
    ensures value { result.now ≡ row_at rows.now lens.now i }
    ensures read { ReadHolds result.now }
{
    &rows[i][..lens[i]]
}

// Where v stands in a read, or would stand. A read is short: it takes no longer to pass its first vertices than to halve it.
fn place(read: &[u8], v: u8) -> usize
    ensures { Place read.now v result }
{
    read.iter().position(|x| v <= *x).unwrap_or(read.len())
}

// Whether inner is a consecutive part of outer.
fn is_part(outer: &[u8], inner: &[u8]) -> bool
    requires outer { ReadHolds outer.now }
    requires inner { ReadHolds inner.now }
    ensures { result ≡ holds outer.now inner.now }
{
    if outer.len() < inner.len() {
        return false;
    }
    if outer[outer.len() - 1] < inner[inner.len() - 1] {
        return false;
    }
    let p = place(outer, inner[0]);
    outer[p] == inner[0] && outer[p..].starts_with(inner)
}

// The length of the longest proper end of a that properly begins b, or 0.
fn overlap(a: &[u8], b: &[u8]) -> usize
    requires a { ReadHolds a.now }
    requires b { ReadHolds b.now }
    ensures { result ≡ overlap_of a.now b.now }
{
    let first = b[0];
    let last = a[a.len() - 1];
    if first <= a[0] || last < first || b[b.len() - 1] <= last {
        return 0;
    }
    let p = place(a, first);
    let end = &a[p..];
    if end[0] == first && end.len() < b.len() && b.starts_with(end) {
        end.len()
    } else {
        0
    }
}

// Whether inner is shorter than outer and a part of it.
fn is_longer(outer: &[u8], inner: &[u8]) -> bool
    requires outer { ReadHolds outer.now }
    requires inner { ReadHolds inner.now }
    ensures { result ≡ ltb (length inner.now) (length outer.now) && holds outer.now inner.now }
{
    inner.len() < outer.len() && is_part(outer, inner)
}

// Whether the read of row i is a part of a read of a lower row.
fn in_earlier(rows: &[[u8; ROW]; ROWS], lens: &[usize; ROWS], i: usize) -> bool
    requires { TableHolds rows.now lens.now (i + 1) }
    ensures { result ≡ held_from rows.now lens.now i 0 }
{
    let read = read_of(rows, lens, i);
    for j in 0..i {
        if is_part(read_of(rows, lens, j), read) {
            return true;
        }
    }
    false
}

// Whether the read of row i is a part of a longer read of a higher row.
fn in_later(rows: &[[u8; ROW]; ROWS], lens: &[usize; ROWS], count: usize, i: usize) -> bool
    requires table { TableHolds rows.now lens.now count }
    requires inside { i < count }
    ensures { result ≡ longer_from rows.now lens.now count i (i + 1) }
{
    let read = read_of(rows, lens, i);
    for j in i + 1..count {
        if is_longer(read_of(rows, lens, j), read) {
            return true;
        }
    }
    false
}

// Whether the read of row i is dropped.
fn is_gone(rows: &[[u8; ROW]; ROWS], lens: &[usize; ROWS], count: usize, i: usize) -> bool
    requires table { TableHolds rows.now lens.now count }
    requires inside { i < count }
    ensures { result ≡ gone rows.now lens.now count i }
{
    in_earlier(rows, lens, i) || in_later(rows, lens, count, i)
}

// The marks of the reads that are dropped.
fn marks(rows: &[[u8; ROW]; ROWS], lens: &[usize; ROWS], count: usize) -> [bool; ROWS]
    requires { TableHolds rows.now lens.now count }
    ensures { Marks rows.now lens.now count result }
{
    let mut marks = [false; ROWS];
    for i in 0..count {
        marks[i] = is_gone(rows, lens, count, i);
    }
    marks
}

// Moves the reads without a mark up to the front; gives how many they are.
fn move_up(
    rows: &mut [[u8; ROW]; ROWS],
    lens: &mut [usize; ROWS],
    count: usize,
    marks: &[bool; ROWS],
) -> usize
    requires table { TableHolds rows.old lens.old count }
    requires marked { Marks rows.old lens.old count marks.now }
    ensures { Leaves rows.new lens.new result (drop_parts [] (rows_of rows.old lens.old count)) }
{
    let mut kept = 0;
    for i in 0..count {
        if !marks[i] {
            rows[kept] = rows[i];
            lens[kept] = lens[i];
            kept += 1;
        }
    }
    kept
}

// Drops each read that is a consecutive part of another; of equal reads the lowest numbered stays. Gives how many reads are left.
fn drop_parts(rows: &mut [[u8; ROW]; ROWS], lens: &mut [usize; ROWS], count: usize) -> usize
    requires { TableHolds rows.old lens.old count }
    ensures { Leaves rows.new lens.new result (drop_parts [] (rows_of rows.old lens.old count)) }
{
    let gone = marks(rows, lens, count);
    move_up(rows, lens, count, &gone)
}

// How many vertices the best pair so far shares.
fn shared_by(best: Option<Meeting>) -> usize
    ensures { result ≡ (best_of best).shared }
{
    best.map_or(0, |m| m.shared)
}

// The longer of best and the overlap of the reads of rows i and j; best where they tie, or where i is j.
fn longer_of(
    rows: &[[u8; ROW]; ROWS],
    lens: &[usize; ROWS],
    i: usize,
    j: usize,
    best: Option<Meeting>,
) -> Option<Meeting>
    requires read_i { RowHolds rows.now lens.now i }
    requires read_j { RowHolds rows.now lens.now j }
    ensures { best_of result ≡ next_at rows.now lens.now i j (best_of best) }
{
    if i == j {
        return best;
    }
    let floor = shared_by(best);
    let a = read_of(rows, lens, i);
    let b = read_of(rows, lens, j);
    if a.len() <= floor || a[a.len() - 1 - floor] < b[0] {
        return best;
    }
    let shared = overlap(a, b);
    if floor < shared {
        return Some(Meeting { shared, i, j });
    }
    best
}

// The longest overlap with the read of row i as the first of the pair, or best.
fn longest_with(
    rows: &[[u8; ROW]; ROWS],
    lens: &[usize; ROWS],
    count: usize,
    i: usize,
    best: Option<Meeting>,
) -> Option<Meeting>
    requires table { TableHolds rows.now lens.now count }
    requires inside { i < count }
    ensures { best_of result ≡ with_from rows.now lens.now count i 0 (best_of best) }
{
    let mut found = best;
    for j in 0..count {
        found = longer_of(rows, lens, i, j, found);
    }
    found
}

// The pair with the longest overlap; of several the lowest i, then the lowest j. None where no two reads overlap.
fn longest(rows: &[[u8; ROW]; ROWS], lens: &[usize; ROWS], count: usize) -> Option<Meeting>
    requires { TableHolds rows.now lens.now count }
    ensures { best_of result ≡ longest_of (rows_of rows.now lens.now count) }
{
    let mut found = None;
    for i in 0..count {
        found = longest_with(rows, lens, count, i, found);
    }
    found
}

// A row with the read a at its front, and behind it the numbers of rest.
fn joined(a: &[u8], rest: &[u8]) -> [u8; ROW]
    requires { length a.now + length rest.now ≤ row_length }
    ensures { take (length a.now + length rest.now) result ≡ a.now ++ rest.now }
{
    let mut row = [0; ROW];
    let seam = a.len();
    row[..seam].copy_from_slice(a);
    row[seam..seam + rest.len()].copy_from_slice(rest);
    row
}

// Moves the rows behind row gap up by one.
fn close_gap(
    rows: &mut [[u8; ROW]; ROWS],
    lens: &mut [usize; ROWS],
    count: usize,
    gap: usize,
) -> usize
    requires table { TableHolds rows.old lens.old count }
    requires inside { gap < count }
    ensures left { Leaves rows.new lens.new result (without gap (rows_of rows.old lens.old count)) }
    ensures fewer { result + 1 ≡ count }
{
    rows.copy_within(gap + 1..count, gap);
    lens.copy_within(gap + 1..count, gap);
    count - 1
}

// Replaces the pair with the longest overlap by the joined read, in the lower of the two rows.
fn join_at(
    rows: &mut [[u8; ROW]; ROWS],
    lens: &mut [usize; ROWS],
    count: usize,
    m: Meeting,
) -> usize
    requires table { TableHolds rows.old lens.old count }
    requires longest { meeting m ≡ longest_of (rows_of rows.old lens.old count) }
    ensures left { Leaves rows.new lens.new result (join_at (meeting m) (rows_of rows.old lens.old count)) }
    ensures fewer { result + 1 ≡ count }
{
    let a = read_of(rows, lens, m.i);
    let b = read_of(rows, lens, m.j);
    let rest = &b[m.shared..];
    let row = joined(a, rest);
    let size = a.len() + rest.len();
    let low = m.i.min(m.j);
    rows[low] = row;
    lens[low] = size;
    close_gap(rows, lens, count, m.i.max(m.j))
}

// Prepares the reads: drops what is a part of another, then joins the longest overlap while there is one. Gives how many reads remain.
pub fn prepare_reads(rows: &mut [[u8; ROW]; ROWS], lens: &mut [usize; ROWS], count: usize) -> usize
    requires { TableHolds rows.old lens.old count }
    ensures { Leaves rows.new lens.new result (prepare (rows_of rows.old lens.old count)) }
{
    let mut n = drop_parts(rows, lens, count);
    while let Some(m) = longest(rows, lens, n) {
        n = join_at(rows, lens, n, m);
    }
    n
}
