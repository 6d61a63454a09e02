// Runs stored base counts through the demand maker. Standard input holds records: how many bases, lengths and lent entries there are, four
// bytes each, high byte first, then the bases and the lengths, four bytes each. For each the program prints number, place, how many demands
// were written, and every entry of the lent list, which held 77 in each.
#![tactic(auto)]

ghost use Rattle.io.specs.Counts.{IsPrefixLen};

// No stored list is longer.
const MANY: usize = 300;

// Reads `count` numbers to the front of the list, fewer where the input ends or the list is too short, and answers how many.
fn read_numbers(list: &mut [u32], count: usize) -> usize
    ensures { IsPrefixLen result list.new }
{
    for (i, number) in list.iter_mut().take(count).enumerate() {
        let Some(read) = records::read_four() else {
            return i;
        };
        *number = read;
    }
    count.min(list.len())
}

fn print_list(list: &[u32]) {
    for &number in list {
        records::print_next(number as usize);
    }
}

fn run_counts(bases: &[u32], lengths: &[u32], lent: &mut [u32]) {
    let filled = coverage::demands(bases, lengths, lent);
    let verdict = records::verdict(&filled);
    records::print_first(verdict.number);
    records::print_next(verdict.place);
    records::print_next(filled.unwrap_or(0));
    print_list(lent);
    records::end_line();
}

// Runs the record that comes next, where there is one.
fn run_record() -> Option<()> {
    let many_bases = records::read_four()? as usize;
    let many_lengths = records::read_four()? as usize;
    let room = records::read_four()? as usize;
    if room > MANY {
        return None;
    }
    let mut bases = [0u32; MANY];
    let mut lengths = [0u32; MANY];
    let mut lent = [77u32; MANY];
    let held_bases = read_numbers(&mut bases, many_bases);
    let held_lengths = read_numbers(&mut lengths, many_lengths);
    run_counts(
        &bases[..held_bases],
        &lengths[..held_lengths],
        &mut lent[..room],
    );
    Some(())
}

fn main() {
    records::run_all(run_record);
}
