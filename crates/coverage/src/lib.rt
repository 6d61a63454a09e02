// Coverage from base counts: an exon's demand is the whole part of its average coverage, bases aligned by length.
#![tactic(auto)]

ghost use Rattle.std.specs.Prelude.{◌≡◌, ℕ, ◌/◌, ◌<◌, length};
ghost use Rattle.forms.specs.GraphFaults.{first_fault};
ghost use Rattle.forms.specs.Refusals.{verdict_of, fault_of};
ghost use Rattle.coverage.specs.Limits.{max_bases, min_length, max_length, min_exons, max_exons};
ghost use Rattle.coverage.specs.Depth.{coverage_of, Recorded};
ghost use Rattle.coverage.specs.Demands.{one_length, exon_fault, fault_of as fault_at, quotients, filled_of, DemandsPromise};

use forms::{Fault, Graph, Refused};

// The average coverage of an exon, beside the two counts that it is made of.
#[derive(Clone, Copy, Debug, PartialEq)]
pub struct Coverage {
    pub depth: f64,
    pub bases: u32,
    pub length: u32,
}

impl Coverage {
    // Document 02, #110: the ranges.
    pub const MAX_BASES: u32 = 4_294_967_295;

    pub const MIN_LENGTH: u32 = 1;

    pub const MAX_LENGTH: u32 = 1_000_000;

    pub const MIN_EXONS: usize = 1;

    pub const MAX_EXONS: usize = 256;

    // One division. The ranges are the definitions' own.
    pub fn new(bases: u32, length: u32) -> Coverage
        ensures value { result ≡ coverage_of bases length }
        ensures counts { (Coverage.MAX_BASES ≡ max_bases) × (Coverage.MIN_LENGTH ≡ min_length) × (Coverage.MAX_LENGTH ≡ max_length) }
        ensures lists { (Coverage.MIN_EXONS ≡ min_exons) × (Coverage.MAX_EXONS ≡ max_exons) }
    {
        Coverage {
            depth: (bases as f64) / (length as f64),
            bases,
            length,
        }
    }
}

// The demand maker: the whole part of the coverage.
fn demand_of(c: Coverage) -> u32
    requires { Recorded c }
    ensures { result ≡ c.bases / c.length }
{
    std::num::truncating_f64_to_u64(c.depth) as u32
}

// What is wrong with the counts of an exon: its length, or else its demand.
fn exon_fault(bases: u32, length: u32) -> Result<(), Fault>
    ensures { fault_of result ≡ exon_fault bases length }
{
    if length < Coverage::MIN_LENGTH || Coverage::MAX_LENGTH < length {
        return Err(Fault::ExonLength);
    }
    if Graph::MAX_DEMAND < demand_of(Coverage::new(bases, length)) as usize {
        return Err(Fault::ExonDemand);
    }
    Ok(())
}

// The first faulty exon.
fn exons_verdict(bases: &[u32], lengths: &[u32]) -> Result<(), Refused>
    requires { length lengths.now ≡ length bases.now }
    ensures { verdict_of result ≡ first_fault (fault_at bases.now lengths.now) (λ exon. exon) (length bases.now) 0 }
{
    for exon in 0..bases.len() {
        if let Err(fault) = exon_fault(bases[exon], lengths[exon]) {
            return Err(Refused::new(fault, exon));
        }
    }
    Ok(())
}

#[tactic(auto, unfolding(crate::specs::Demands::one_length))]
fn one_length(bases: usize, lengths: usize, demands: usize) -> bool
    ensures { result ≡ one_length bases lengths demands }
{
    lengths == bases
        && demands == bases
        && Coverage::MIN_EXONS <= bases
        && bases <= Coverage::MAX_EXONS
}

// Writes each exon's demand, once every exon is right.
fn write_demands(bases: &[u32], lengths: &[u32], demands: &mut [u32])
    requires { (length lengths.now ≡ length bases.now) × (length demands.old ≡ length bases.now) × ((exon : ℕ) → exon < length bases.now → fault_at bases.now lengths.now exon ≡ 0) }
    ensures { demands.new ≡ quotients bases.now lengths.now }
{
    for (exon, demand) in demands.iter_mut().enumerate() {
        *demand = demand_of(Coverage::new(bases[exon], lengths[exon]));
    }
}

// Writes the demand of each exon, the whole part of its bases by its length, to the lent list, and answers how many it wrote: numbers 30,
// 32 and 33. All exons are judged before the first demand is written, so that a refusal changes nothing.
pub fn demands(bases: &[u32], lengths: &[u32], demands: &mut [u32]) -> Result<usize, Refused>
    ensures { DemandsPromise bases.now lengths.now demands.old demands.new (filled_of result) }
{
    if !one_length(bases.len(), lengths.len(), demands.len()) {
        return Err(Refused::new(Fault::ListLengths, 0));
    }
    exons_verdict(bases, lengths)?;
    write_demands(bases, lengths, demands);
    Ok(bases.len())
}
