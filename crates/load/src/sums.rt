// The sum of two load years, hour by hour.
ghost use Rattle.std.specs.Prelude.{◌≡◌};
ghost use Rattle.model.specs.LoadYears.{sum_year};
ghost use Rattle.load.specs.Ranging.{summed-ranged};

use super::LoadYear;
use super::limits::{MOST_LOAD, refusal};
use model::{LoadFault, Rule};

#[derive(Drop)]
pub struct LoadSum<A, B> {
    first: A,
    second: B,
}

impl<A, B> LoadSum<A, B> {
    pub fn new(first: A, second: B) -> LoadSum<A, B>
        ensures { (result.first ≡ first) × (result.second ≡ second) }
    {
        LoadSum { first, second }
    }

    pub fn into_parts(self) -> (A, B)
        ensures { (result.0 ≡ self.first) × (result.1 ≡ self.second) }
    {
        (self.first, self.second)
    }
}

impl<A: LoadYear, B: LoadYear> LoadYear for LoadSum<A, B> {
    ghost year = { λ s. sum_year (A.LoadYear.year s.first) (B.LoadYear.year s.second) };

    ghost ranged = { λ y h. summed-ranged h _ _ (A.LoadYear.ranged y.first h) (B.LoadYear.ranged y.second h) };

    // A fault of a side is handed on as it is.
    fn load(&self, hour: u32) -> Result<u32, LoadFault> {
        let first = self.first.load(hour)?;
        let second = self.second.load(hour)?;
        let sum = first + second;
        if sum > MOST_LOAD {
            return Err(refusal(Rule::LoadTooHigh, hour));
        }
        Ok(sum)
    }
}
