// The library's calls for programs in C and Rust: functions on byte slices and numbers under plain names. From outside a slice is a
// pointer and a length. Number and place are answered by value, so that only an output is lent to be changed.
#![tactic(auto)]

ghost use Rattle.std.specs.Prelude.{◌≡◌};
ghost use Rattle.forms.specs.GraphFaults.{refusal, graph_verdict};
ghost use Rattle.forms.specs.Refusals.{number_of, verdict_of};
ghost use Rattle.checker.specs.Check.{check_verdict};
ghost use Rattle.checker.specs.HandedOut.{PartFound};
ghost use Rattle.builder.specs.Build.{BuildPromise};
ghost use Rattle.coverage.specs.Demands.{DemandsPromise};

use checker::check::PathPart;
use forms::Refused;

// Kept: the C interface needs these four structs, each with the refusal's number beside what it holds.
// Number and place of what is refused; both are 0 where nothing is.
#[repr(C)]
#[derive(Clone, Copy, Debug, PartialEq, Eq)]
pub struct Refusal {
    pub number: u64,
    pub place: u64,
}

// The same, and the part of the answer that holds the vertices of a path: where it begins and how many bytes it has. The part is empty and
// at the answer's front, both are 0, where the path is refused.
#[repr(C)]
#[derive(Clone, Copy, Debug, PartialEq, Eq)]
pub struct HandedOutPart {
    pub number: u64,
    pub place: u64,
    pub offset: u64,
    pub length: u64,
}

// Number and place, and how many bytes of an answer form were written: 0 where the graph or the output is refused.
#[repr(C)]
#[derive(Clone, Copy, Debug, PartialEq, Eq)]
pub struct BuiltForm {
    pub number: u64,
    pub place: u64,
    pub written: u64,
}

impl From<Refused> for Refusal {
    ghost from_gives = { λ e r. refusal r.number r.place ≡ refusal (number_of e.fault) e.place };

    fn from(refused: Refused) -> Refusal {
        Refusal {
            number: refused.fault.number() as u64,
            place: refused.place as u64,
        }
    }
}

// Number and place, for what a call answered.
fn told<T: Copy>(answer: Result<T, Refused>) -> Refusal
    ensures { refusal result.number result.place ≡ verdict_of answer }
{
    match answer {
        Ok(_) => Refusal {
            number: 0,
            place: 0,
        },
        Err(refused) => Refusal::from(refused),
    }
}

// Reads a graph form: numbers 1 to 7.
#[unsafe(no_mangle)]
pub extern "C" fn read_graph_form(graph: &[u8]) -> Refusal
    ensures { refusal result.number result.place ≡ graph_verdict graph.now }
{
    told(checker::reader::read_graph(graph))
}

// Checks an answer form against a graph form: numbers 1 to 7 and 11 to 22.
#[unsafe(no_mangle)]
pub extern "C" fn check_answer_form(graph: &[u8], answer: &[u8]) -> Refusal
    ensures { refusal result.number result.place ≡ check_verdict graph.now answer.now }
{
    told(checker::check::check(graph, answer))
}

// Hands out path k by its place in the answer that the caller holds: numbers 1 to 7 and 11 to 23.
#[unsafe(no_mangle)]
pub extern "C" fn hand_out_path(graph: &[u8], answer: &[u8], k: u64) -> HandedOutPart
    ensures { PartFound graph.now answer.now k result.number result.place result.offset result.length }
{
    let found = checker::check::find_path(graph, answer, k as usize);
    let Refusal { number, place } = told(found);
    let part = found.unwrap_or(PathPart {
        offset: 0,
        length: 0,
    });
    HandedOutPart {
        number,
        place,
        offset: part.offset as u64,
        length: part.length as u64,
    }
}

// Writes the answer form of a lowest-price cover at the front of the output: numbers 1 to 9.
#[unsafe(no_mangle)]
pub extern "C" fn build_answer_form(graph: &[u8], out: &mut [u8]) -> BuiltForm
    ensures { BuildPromise graph.now out.old out.new (record { number = result.number; place = result.place; written = result.written }) }
{
    let built = builder::build::build(graph, out);
    let Refusal { number, place } = told(built);
    BuiltForm {
        number,
        place,
        written: built.unwrap_or(0) as u64,
    }
}

// Number and place, and how many entries of a lent list were written: 0 where something is refused.
#[repr(C)]
#[derive(Clone, Copy, Debug, PartialEq, Eq)]
pub struct FilledList {
    pub number: u64,
    pub place: u64,
    pub written: u64,
}

// Writes the demand of each exon, the whole part of its bases by its length, to the lent list: numbers 30, 32 and 33.
#[unsafe(no_mangle)]
pub extern "C" fn demands_from_counts(
    bases: &[u32],
    lengths: &[u32],
    demands: &mut [u32],
) -> FilledList
    ensures { DemandsPromise bases.now lengths.now demands.old demands.new (record { number = result.number; place = result.place; written = result.written }) }
{
    let filled = coverage::demands(bases, lengths, demands);
    let Refusal { number, place } = told(filled);
    FilledList {
        number,
        place,
        written: filled.unwrap_or(0) as u64,
    }
}
