// What the programs over stored vectors share: they read numbers and byte strings from standard input, and print numbers. No contract
// can say what is read, so none says more than what a caller needs to go on.
#![tactic(auto)]

ghost use Rattle.std.specs.Prelude.{◌≡◌, ◌≤◌, length, IfSome};
ghost use Rattle.forms.specs.Refusals.{verdict_of};

use forms::{Refused, Verdict};

// The next N bytes, where there are so many.
fn read_array<const N: usize>() -> Option<[u8; N]> {
    let mut bytes = [0u8; N];
    if io::read_full(0, &mut bytes) != N {
        return None;
    }
    Some(bytes)
}

// The number that the next four bytes hold, high byte first.
pub fn read_four() -> Option<u32> {
    Some(u32::from_be_bytes(read_array()?))
}

// The number that the next eight bytes hold, high byte first.
pub fn read_eight() -> Option<u64> {
    Some(u64::from_be_bytes(read_array()?))
}

// Reads a byte string to the front of `buf`, its length in four bytes before it, and hands it out. There is none where the input ends
// before its end, and none where `buf` is too short.
pub fn read_string(buf: &mut [u8]) -> Option<&[u8]>
    ensures { IfSome result (λ string. length string.now ≤ length buf.old) }
{
    let length = read_four()? as usize;
    if length > buf.len() {
        return None;
    }
    let string = &mut buf[..length];
    if io::read_full(0, string) != length {
        return None;
    }
    Some(string)
}

// Runs what stands in the input, one after the other, until `run` says by a None that it has ended. A proved loop has to end, and nothing says that the
// input does. So the loop counts its turns, up to a number that no run uses up.
pub fn run_all<F: FnMut() -> Option<()>>(mut run: F)
    requires { F.IsAlwaysCallable run }
{
    for _ in 0..u64::MAX {
        if run().is_none() {
            return;
        }
    }
}

// Number and place of what a call answers; both are 0 where nothing is refused.
pub fn verdict<T>(answer: &Result<T, Refused>) -> Verdict
    ensures { result ≡ verdict_of answer.now }
{
    match answer {
        Ok(_) => Verdict::new(0, 0),
        Err(refused) => Verdict::from(*refused),
    }
}

// Prints a line's first number.
pub fn print_first(number: usize) {
    io::print_decimal(1, number as u64);
}

// Prints a further number of a line.
pub fn print_next(number: usize) {
    io::write_all(1, b" ");
    io::print_decimal(1, number as u64);
}

// Prints the bytes of a part, as further numbers of a line.
pub fn print_bytes(part: &[u8]) {
    for &byte in part {
        print_next(usize::from(byte));
    }
}

pub fn end_line() {
    io::write_all(1, b"\n");
}
