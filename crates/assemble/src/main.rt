// Reads a graph form from standard input and lists the cover that the builder finds for it.
#![tactic(auto)]

ghost use Rattle.assemble.specs.Assemble.{Assembled};

use builder::build::build;
use forms::{Answer, Fault};
use listing::{LONGEST_INPUT, LONGEST_LISTING, list_cover, list_refusal};

// Standard input and output, by the numbers of their files.
const STDIN_FILENO: i32 = 0;

const STDOUT_FILENO: i32 = 1;

// Writes the listing to the front of `text`, which takes every listing, and returns how many bytes it has.
fn assemble(graph: &[u8], text: &mut [u8; LONGEST_LISTING]) -> usize
    ensures { Assembled graph.now text.old text.new result }
{
    if graph.len() > LONGEST_INPUT {
        return list_refusal(Fault::GraphLength.number(), 0, text).unwrap_or(0);
    }
    let mut answer = [0u8; Answer::LONGEST];
    match build(graph, &mut answer) {
        Ok(length) => list_cover(graph, &answer[..length], text).unwrap_or(0),
        Err(refused) => list_refusal(refused.fault.number(), refused.place, text).unwrap_or(0),
    }
}

fn main() {
    // One byte more than is looked at, so that a longer input is told apart.
    let mut graph = [0u8; LONGEST_INPUT + 1];
    let length = io::read_full(STDIN_FILENO, &mut graph);
    let mut text = [0u8; LONGEST_LISTING];
    let written = assemble(&graph[..length], &mut text);
    io::write_all(STDOUT_FILENO, &text[..written]);
}
