// Prints the demands of exons from their base counts, one to a line, or one line `refused`, number and place. Standard input holds for each
// exon the bases aligned and its length, four bytes each, high byte first.
#![tactic(auto)]

ghost use Rattle.std.specs.Prelude.{◌<◌, ◌≤◌, length};
ghost use Rattle.io.specs.Counts.{IsPrefixLen};

use forms::Refused;

// Standard output, by the number of its file.
const STDOUT_FILENO: i32 = 1;

// The buffer's 4,096 bytes are 512 exons: more than the 256 that are taken, so that a longer input is refused too.
const EXON: usize = 8;

const EXONS: usize = 512;

// Fills the list from the numbers that stand in the table at `first` and every eight bytes on, and answers how many there are.
fn column(table: &[u8], first: usize, list: &mut [u32]) -> usize
    requires { (first < 8) × (length list.old ≤ 512) }
    ensures { IsPrefixLen result list.new }
{
    for (i, number) in list.iter_mut().enumerate() {
        let at = i * EXON + first;
        if table.len() <= at + 3 {
            return i;
        }
        *number = u32::from_be_bytes([table[at], table[at + 1], table[at + 2], table[at + 3]]);
    }
    list.len()
}

fn print_demands(demands: &[u32]) {
    for &demand in demands {
        io::print_decimal(STDOUT_FILENO, u64::from(demand));
        io::write_all(STDOUT_FILENO, b"\n");
    }
}

fn print_refusal(refused: Refused) {
    io::write_all(STDOUT_FILENO, b"refused ");
    io::print_decimal(STDOUT_FILENO, refused.fault.number() as u64);
    io::write_all(STDOUT_FILENO, b" ");
    io::print_decimal(STDOUT_FILENO, refused.place as u64);
    io::write_all(STDOUT_FILENO, b"\n");
}

fn print_answer(bases: &[u32], lengths: &[u32], demands: &mut [u32]) {
    match coverage::demands(bases, lengths, demands) {
        Ok(_) => print_demands(demands),
        Err(refused) => print_refusal(refused),
    }
}

// Prints the demands of a table. The lent list has an entry for each exon that begins in it, so that an exon that is cut short makes the
// lists unequal.
fn print_table(table: &[u8])
    requires { length table.now ≤ 4096 }
{
    let mut bases = [0u32; EXONS];
    let mut lengths = [0u32; EXONS];
    let mut demands = [0u32; EXONS];
    let many_bases = column(table, 0, &mut bases);
    let many_lengths = column(table, 4, &mut lengths);
    let begun = (table.len() + 7) / EXON;
    print_answer(
        &bases[..many_bases],
        &lengths[..many_lengths],
        &mut demands[..begun],
    );
}

fn main() {
    let mut table = io::buffer();
    let got = io::read_full(0, &mut table);
    print_table(&table[..got]);
}
