// Runs stored pairs of a graph form and an answer form through the check and the hand-out. Standard input holds groups: a graph form
// (its length in four bytes, then its bytes), the number of answers to it (four bytes), and each answer: its form in the same way and
// the number of a path (eight bytes). For each answer the program prints a line: number and place from the check, number and place from
// the sister call of the hand-out, and the vertices that are handed out.
#![tactic(auto)]

fn print_answers(graph: &[u8], answer: &[u8], k: usize) {
    let checked = records::verdict(&checker::check::check(graph, answer));
    records::print_first(checked.number);
    records::print_next(checked.place);
    let sister = records::verdict(&checker::check::hand_out_verdict(graph, answer, k));
    records::print_next(sister.number);
    records::print_next(sister.place);
    records::print_bytes(checker::check::hand_out(graph, answer, k));
    records::end_line();
}

// Runs the answer that comes next, where there is one.
fn run_answer(graph: &[u8]) -> Option<()> {
    // No stored form is longer. The longest that a graph allows has 32,543 bytes.
    let mut buffer = io::large_buffer();
    let answer = records::read_string(&mut buffer)?;
    let k = records::read_eight()?;
    print_answers(graph, answer, k as usize);
    Some(())
}

// Runs the group that comes next, where there is one with all its answers.
fn run_group() -> Option<()> {
    let mut buffer = io::buffer();
    let graph = records::read_string(&mut buffer)?;
    let count = records::read_four()?;
    for _ in 0..count {
        run_answer(graph)?;
    }
    Some(())
}

fn main() {
    records::run_all(run_group);
}
