// Runs stored graph forms through the builder, and what it writes through the check. Standard input holds records, each a length of four
// bytes, high byte first, and that many bytes of a form. For each the program prints a line: number and place from the builder, the price
// that stands in its output, 1 where it says that it wrote bytes and 0 elsewhere, the check's number of those bytes; then number, place
// and count of bytes from the builder with an output that is one byte too short. How long an answer is, is the builder's choice. Then it
// prints the same line again, from a builder whose guess of the flow always fails.
#![tactic(auto)]

use builder::build::{FUEL, build_within};
use checker::Answer;
use checker::check::check;
use forms::fields::stated_price;

// On a refusal the output stays as it was, so the price that stands there is 0.
fn print_built(graph: &[u8], fuel: usize) {
    let mut out = [0u8; Answer::LONGEST];
    let built = build_within(graph, &mut out, fuel);
    let verdict = records::verdict(&built);
    let written = built.unwrap_or(0);
    let checked = records::verdict(&check(graph, &out[..written]));
    records::print_first(verdict.number);
    records::print_next(verdict.place);
    records::print_next(stated_price(graph, &out));
    records::print_next(usize::from(written != 0));
    records::print_next(checked.number);
}

fn print_short(graph: &[u8], fuel: usize) {
    let mut out = [0u8; Answer::LONGEST - 1];
    let built = build_within(graph, &mut out, fuel);
    let verdict = records::verdict(&built);
    records::print_next(verdict.number);
    records::print_next(verdict.place);
    records::print_next(built.unwrap_or(0));
}

fn print_line(graph: &[u8], fuel: usize) {
    print_built(graph, fuel);
    print_short(graph, fuel);
    records::end_line();
}

// Runs the form that comes next, where there is one.
fn run_form() -> Option<()> {
    // No stored form is longer. The longest that reads has 3,165 bytes.
    let mut buffer = io::buffer();
    let form = records::read_string(&mut buffer)?;
    print_line(form, FUEL);
    print_line(form, 0);
    Some(())
}

fn main() {
    records::run_all(run_form);
}
