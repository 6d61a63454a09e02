// Words and numbers as text, in a lent buffer: stored from an index on, and measured before anything is stored. It knows no form and no listing.
#![tactic(auto)]

ghost use Rattle.std.specs.Prelude.{◌≡◌, ◌≤◌, length};
ghost use Rattle.text.specs.Text.{decimal, TextFits, Puts};

// Stores a text and returns the index behind it.
pub fn put_text(out: &mut [u8], at: usize, text: &[u8]) -> usize
    requires { TextFits out.old at text.now }
    ensures { Puts out.old at text.now out.new result }
{
    let end = at + text.len();
    out[at..end].copy_from_slice(text);
    end
}

// Stores a number and returns the index behind it. The digits are found from the last to the first.
pub fn put_number(out: &mut [u8], at: usize, n: usize) -> usize
    requires { TextFits out.old at (decimal n) }
    ensures { Puts out.old at (decimal n) out.new result }
{
    let end = at + number_length(n);
    let mut rest = n;
    for place in (at..end).rev() {
        out[place] = b'0' + (rest % 10) as u8;
        rest /= 10;
    }
    end
}

// How many bytes a number's text has: one digit for 0, as for 1, and no more than twenty for any number of the machine.
pub fn number_length(n: usize) -> usize
    ensures value { result ≡ length (decimal n) }
    ensures small { result ≤ 20 }
{
    n.max(1).ilog10() as usize + 1
}
