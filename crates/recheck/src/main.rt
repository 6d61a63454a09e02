// Lists the answer form in `cover.bin` for the graph form in `graph.bin`. Each file is read once, and what is listed comes from the bytes held.
#![tactic(auto)]

ghost use Rattle.io.specs.Counts.{IsPrefixLen};
ghost use Rattle.text.specs.Text.{Writes};
ghost use Rattle.listing.specs.Listing.{inputs_listing};

use listing::{LONGEST_INPUT, LONGEST_LISTING, list_inputs};
use std::fs::File;
use std::os::fd::AsRawFd;

// Standard output, by the number of its file.
const STDOUT_FILENO: i32 = 1;

// Reads the file of that name to the front of `buf` and answers how many bytes it has there. A file that can't be opened counts as empty.
fn load(rt: &HostRuntime, name: &str, buf: &mut [u8]) -> usize
    ensures { IsPrefixLen result buf.new }
{
    let Ok(file) = File::open(rt, name) else {
        return 0;
    };
    io::read_full(file.as_raw_fd(), buf)
}

// Writes the listing of the two inputs to the front of `text`, which takes every listing, and returns how many bytes it has.
fn recheck(graph: &[u8], answer: &[u8], text: &mut [u8; LONGEST_LISTING]) -> usize
    ensures { Writes text.old (inputs_listing graph.now answer.now) text.new result }
{
    list_inputs(graph, answer, text).unwrap_or(0)
}

fn main(rt: HostRuntime) {
    // One byte more than is looked at, so that a longer file is told apart.
    let mut graph = [0u8; LONGEST_INPUT + 1];
    let graph_length = load(&rt, "graph.bin", &mut graph);
    let mut answer = [0u8; LONGEST_INPUT + 1];
    let answer_length = load(&rt, "cover.bin", &mut answer);
    let mut text = [0u8; LONGEST_LISTING];
    let written = recheck(&graph[..graph_length], &answer[..answer_length], &mut text);
    io::write_all(STDOUT_FILENO, &text[..written]);
}
