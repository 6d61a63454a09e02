// The table of collected paths: strictly ascending, each with its weight. Walks come out nearly in order, so a new path is looked for from the end.
ghost use Rattle.std.specs.Prelude.{◌≡◌, ℕ, ◌+◌, ◌<◌, ◌≤◌, length, take};
ghost use Rattle.network.specs.Network.{most_edges, most_moved};
ghost use Rattle.reads.specs.ReadTable.{row_length};
ghost use Rattle.paths.specs.Peel.{RowFits, vertices_of, weighted_of, path_at, PathTable, Belongs, Spotted, Collected};

use network::EDGES;
use reads::ROW;
use std::cmp::Ordering;

// A collected path: its weight, and its vertices, which are the first `size` numbers of its row.
#[derive(Clone, Copy)]
pub struct Path {
    pub weight: u64,
    pub size: usize,
    pub row: [u8; ROW],
}

impl Path {
    // The path with these vertices.
    fn new(vertices: &[u8], weight: u64) -> Path
        requires { length vertices.now ≤ row_length }
        ensures weight { result.weight ≡ weight }
        ensures vertices { vertices_of result ≡ vertices.now }
        ensures fits { RowFits result.row result.size }
    {
        let mut row = [0u8; ROW];
        row[..vertices.len()].copy_from_slice(vertices);
        Path {
            weight,
            size: vertices.len(),
            row,
        }
    }

    // Its vertices.
    pub fn vertices(&self) -> &[u8]
        requires { RowFits self.now.row self.now.size }
        ensures { result.now ≡ vertices_of self.now }
    {
        &self.row[..self.size]
    }
}

// The paths that were collected: strictly ascending, each with its weight, in the first `count` rows.
#[derive(Drop)]
pub struct Paths {
    pub rows: [Path; EDGES],
    pub count: usize,
}

impl Paths {
    // No path is collected yet.
    pub fn empty() -> Paths
        ensures table { PathTable result }
        ensures none { result.count ≡ 0 }
    {
        let none = Path {
            weight: 0,
            size: 0,
            row: [0; ROW],
        };
        Paths {
            rows: [none; EDGES],
            count: 0,
        }
    }

    // The paths in order.
    pub fn as_slice(&self) -> &[Path]
        requires { self.now.count ≤ most_edges }
        ensures { result.now ≡ take self.now.count self.now.rows }
    {
        &self.rows[..self.count]
    }

    // The row that holds the path, or else, as an error, the row where it belongs.
    fn find(&self, vertices: &[u8]) -> Result<usize, usize>
        requires { PathTable self.now }
        ensures { Spotted self.now vertices.now result }
    {
        for i in (0..self.count).rev() {
            match vertices.cmp(self.rows[i].vertices()) {
                Ordering::Less => {}
                Ordering::Equal => return Ok(i),
                Ordering::Greater => return Err(i + 1),
            }
        }
        Err(0)
    }

    // Puts the path into row i, where it belongs: what stands there and behind moves one place on.
    fn put(&mut self, i: usize, path: Path)
        requires table { PathTable self.old × (self.old.count < most_edges) }
        requires fits { RowFits path.row path.size }
        requires belongs { Belongs self.old (vertices_of path) i }
        ensures { Collected (weighted_of path) self.old self.new }
    {
        self.rows.copy_within(i..self.count, i + 1);
        self.rows[i] = path;
        self.count += 1;
    }

    // Adds a weighted path to the table, which stays in order: as a new path, or to the weight of the same path.
    pub fn insert(&mut self, vertices: &[u8], weight: u64)
        requires short { length vertices.now ≤ row_length }
        requires table { PathTable self.old }
        requires room { (self.old.count < most_edges) × ((k : ℕ) → k < self.old.count → (path_at self.old k).weight + weight ≤ most_moved) }
        ensures { Collected (record { weight = weight; path = vertices.now }) self.old self.new }
    {
        match self.find(vertices) {
            Ok(i) => self.rows[i].weight += weight,
            Err(i) => self.put(i, Path::new(vertices, weight)),
        }
    }
}
