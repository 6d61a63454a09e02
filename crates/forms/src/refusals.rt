// Why an input is turned down, and where. Documents 01 and 02 number the reasons; here each has a name beside its number.
ghost use Rattle.std.specs.Prelude.{◌≡◌};
ghost use Rattle.forms.specs.GraphFaults.{refusal};
ghost use Rattle.forms.specs.Refusals.{number_of};

use crate::Verdict;

// What is wrong with an input.
#[derive(Clone, Copy, Debug, PartialEq, Eq)]
pub enum Fault {
    // A graph form: its length, version and counts, a number out of range, a record that runs past the end (or bytes behind the last), an arc, a read.
    GraphLength = 1,
    GraphVersion = 2,
    GraphCount = 3,
    GraphNumber = 4,
    GraphEnd = 5,
    Arc = 6,
    Read = 7,
    // What the builder answers: an item that lies on no path, an output without room.
    OnNoPath = 8,
    OutputShort = 9,
    // An answer form: its length, version and number of paths, a mark out of range, a record that runs past the end (or bytes behind the last), a path
    // that is none of the graph, its weight, its place in the order.
    AnswerLength = 11,
    AnswerVersion = 12,
    PathCount = 13,
    Mark = 14,
    AnswerEnd = 15,
    Path = 16,
    Weight = 17,
    Order = 18,
    // The certificate: a demand or a read that is not met, the price, a slack below 0, the bound.
    Unmet = 19,
    Price = 20,
    Slack = 21,
    Bound = 22,
    // The hand-out: no such path.
    NoSuchPath = 23,
    // A listing: an output without room.
    ListingShort = 29,
    // Coverage: the lists' lengths, an exon's length, a demand out of range.
    ListLengths = 30,
    ExonLength = 32,
    ExonDemand = 33,
}

impl Fault {
    // The number that document 01 or 02 gives it.
    pub fn number(self) -> usize
        ensures { result ≡ number_of self }
    {
        self as usize
    }
}

// A refusal: what is wrong, and its place: an offset, or the number of an item, as document 01 says beside the number.
#[derive(Clone, Copy, Debug, PartialEq, Eq)]
pub struct Refused {
    pub fault: Fault,
    pub place: usize,
}

impl Refused {
    // The error of a call that finds a fault at a place.
    pub fn new(fault: Fault, place: usize) -> Refused
        ensures { (result.fault ≡ fault) × (result.place ≡ place) }
    {
        Refused { fault, place }
    }
}

impl From<Refused> for Verdict {
    ghost from_gives = { λ e r. r ≡ refusal (number_of e.fault) e.place };

    fn from(refused: Refused) -> Verdict {
        Verdict {
            number: refused.fault.number(),
            place: refused.place,
        }
    }
}
