// Two reads that overlap.
#![tactic(auto)]

ghost use Rattle.std.specs.Prelude.{◌≤◌};

// A pair of reads, by their rows, and how many vertices they share: the length of their overlap.
#[derive(Clone, Copy, Debug, PartialEq, Eq)]
pub(crate) struct Meeting {
    pub(crate) shared: usize,
    pub(crate) i: usize,
    pub(crate) j: usize,
    ghost some: { 1 ≤ shared },
}
