// Runs stored graph forms through the reader. Standard input holds records, each a length of four bytes, high byte first, and
// that many bytes of a form; for each the program prints the number and the place that the reader answers.
#![tactic(auto)]

// Runs the form that comes next, where there is one.
fn run_form() -> Option<()> {
    // No stored form is longer. The longest that reads has 3,165 bytes.
    let mut buffer = io::buffer();
    let form = records::read_string(&mut buffer)?;
    let verdict = records::verdict(&checker::reader::read_graph(form));
    records::print_first(verdict.number);
    records::print_next(verdict.place);
    records::end_line();
    Some(())
}

fn main() {
    records::run_all(run_form);
}
