// Reads a graph form from standard input and writes the answer form that the builder makes to standard output, for a file `cover.bin`.
// A refusal writes nothing there: its line goes to standard error.
#![tactic(auto)]

ghost use Rattle.answer.specs.Answered.{Answered};

use builder::build::build;
use forms::{Answer, Fault};
use listing::{LONGEST_INPUT, LONGEST_LISTING, list_refusal};

// Standard input, output and error, by the numbers of their files.
const STDIN_FILENO: i32 = 0;

const STDOUT_FILENO: i32 = 1;

const STDERR_FILENO: i32 = 2;

// How many bytes go to standard output, and how many to standard error.
#[derive(Clone, Copy, Debug, PartialEq, Eq)]
struct Written {
    form: usize,
    line: usize,
}

// Writes the answer form to the front of `out`, or the refusal's line to the front of `err`, which takes every line.
fn answer(graph: &[u8], out: &mut [u8; Answer::LONGEST], err: &mut [u8; LONGEST_LISTING]) -> Written
    ensures { Answered graph.now out.old out.new err.old err.new result }
{
    if graph.len() > LONGEST_INPUT {
        let line = list_refusal(Fault::GraphLength.number(), 0, err).unwrap_or(0);
        return Written { form: 0, line };
    }
    match build(graph, out) {
        Ok(form) => Written { form, line: 0 },
        Err(refused) => {
            let line = list_refusal(refused.fault.number(), refused.place, err).unwrap_or(0);
            Written { form: 0, line }
        }
    }
}

fn main() {
    // One byte more than is looked at, so that a longer input is told apart.
    let mut graph = [0u8; LONGEST_INPUT + 1];
    let length = io::read_full(STDIN_FILENO, &mut graph);
    let mut out = [0u8; Answer::LONGEST];
    let mut err = [0u8; LONGEST_LISTING];
    let written = answer(&graph[..length], &mut out, &mut err);
    let form = written.form;
    let line = written.line;
    io::write_all(STDOUT_FILENO, &out[..form]);
    io::write_all(STDERR_FILENO, &err[..line]);
}
