// The yearly pairs: how they are entered, and what they say of the method.
ghost use Rattle.std.specs.Prelude.{◌≡◌, ◌≤◌, [], OnErr};
ghost use Rattle.model.specs.Operating.{is_year, pair_answer, pair_in_range, pairs_after};
ghost use Rattle.model.specs.Plain.{any};
ghost use Rattle.method.specs.Pairs.{pairs_of, yearly_sums, years_answer};

use super::super::refusals::refusal;
use super::{Simple, YEARS};
use arrayvec::ArrayVec;
use model::{MethodFault, Rule, YearlyPair};

// The highest number of a year.
const LAST_YEAR: u8 = 4;

// The most generation of a year, in GWh.
const MOST: u32 = 4_000_000;

fn in_range(pair: &YearlyPair) -> bool
    ensures { result ≡ pair_in_range pair.now }
{
    pair.year <= LAST_YEAR && pair.all <= MOST && pair.low_cost <= pair.all
}

impl Simple {
    pub fn new() -> Simple
        ensures { pairs_of result ≡ [] }
    {
        Simple {
            pairs: ArrayVec::new(),
        }
    }

    // A pair of the year stands.
    fn has_year(&self, year: u8) -> bool
        ensures { result ≡ any (is_year year) (pairs_of self.now) }
    {
        self.pairs.iter().any(|pair| pair.year == year)
    }

    fn check(&self, pair: &YearlyPair) -> Result<(), MethodFault>
        ensures { result ≡ pair_answer (pairs_of self.now) pair.now }
    {
        if !in_range(pair) {
            return Err(refusal(Rule::OutOfRange, u32::from(pair.year)));
        }
        if self.has_year(pair.year) {
            return Err(refusal(Rule::AlreadyStands, u32::from(pair.year)));
        }
        Ok(())
    }

    // Takes in the pair of a year.
    pub fn enter(&mut self, pair: YearlyPair) -> Result<(), MethodFault>
        ensures answer { result ≡ pair_answer (pairs_of self.old) pair }
        ensures pairs { pairs_of self.new ≡ pairs_after (pairs_of self.old) pair }
        ensures refusal { OnErr result (self.new ≡ self.old) }
    {
        self.check(&pair)?;
        self.pairs.push(pair);
        Ok(())
    }

    // Low-cost generation and all generation over the years, in GWh. (One loop over both columns: a rule of the project.)
    fn sums(&self) -> (u64, u64)
        ensures value { result ≡ yearly_sums (pairs_of self.now) }
        ensures bound { result.0 ≤ 20000000 }
    {
        let mut low_cost: u64 = 0;
        let mut all: u64 = 0;
        for pair in self.pairs.iter() {
            low_cost += u64::from(pair.low_cost);
            all += u64::from(pair.all);
        }
        (low_cost, all)
    }

    // Refuses while a year is missing, and where low-cost generation is half of all generation or more.
    pub(super) fn check_years(&self) -> Result<(), MethodFault>
        ensures { result ≡ years_answer (pairs_of self.now) }
    {
        if let Some(year) = (0..YEARS as u8).find(|year| !self.has_year(*year)) {
            return Err(refusal(Rule::Missing, u32::from(year)));
        }
        let (low_cost, all) = self.sums();
        if 2 * low_cost >= all {
            return Err(refusal(Rule::MethodClosed, 0));
        }
        Ok(())
    }
}
