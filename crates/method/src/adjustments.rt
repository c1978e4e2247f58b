// The simple adjusted method: in the low-cost hours of a load year the low-cost units are at the margin, and in its other hours
// the rest.
ghost use Rattle.std.specs.Borrow.{follows, sem};
ghost use Rattle.std.specs.Prelude.{◌≡◌, false};
ghost use Rattle.model.specs.LoadYears.{year_hours};
ghost use Rattle.model.specs.Operating.{adjusted_answer, adjusted_meaning};
ghost use Rattle.method.specs.contracts.adjustments.Adjusted.{the_row};
ghost use Rattle.std.proofs.Common.{arith, rules};
ghost use Rattle.method.specs.Adjusting.{adjusted-fair, adjusted-near};

use super::groups::mean;
use super::refusals::refusal;
use super::{Method, group_sums, weighted_mean};
use load::{HOURS, LoadYear, low_cost_hours, read_year, total_load};
use model::{MethodFault, Rule};
use register::Register;

// Over a load year of any kind.
#[derive(Drop)]
pub struct Adjusted<L> {
    year: L,
}

impl<L> Adjusted<L> {
    pub fn new(year: L) -> Adjusted<L>
        ensures { result.year ≡ year }
    {
        Adjusted { year }
    }

    pub fn year(&self) -> &L
        ensures { result.now ≡ self.now.year }
    {
        &self.year
    }

    // To take more into the year.
    pub fn year_mut(&mut self) -> &mut L
        ensures* follows { sem 𝓛 (follows (the_row L.row) L.row self.entry.ghost_name result.ghost_name (λ y. record { year = y })) }
        ensures value { result.now ≡ self.old.year }
    {
        &mut self.year
    }

    pub fn into_year(self) -> L
        ensures { result ≡ self.year }
    {
        self.year
    }
}

impl<L: LoadYear> Method for Adjusted<L> {
    const DISTANCE: u32 = 3;

    ghost DISTANCE = { 3 };

    const STANDS_ALONE: bool = false;

    ghost STANDS_ALONE = { false };

    ghost meaning = { λ m us. adjusted_meaning year_hours (L.LoadYear.year m.year) us };

    ghost may = { λ m us a. a ≡ adjusted_answer year_hours (L.LoadYear.year m.year) us };

    ghost fair = { λ m us ss h falls few e. adjusted-fair year_hours (omega arith) (L.LoadYear.year m.year) us ss h e };

    ghost near = { λ m us ss a h falls few e is. adjusted-near year_hours (omega arith) (L.LoadYear.year m.year) us ss h e a is };

    ghost close = { Prim.search rules };

    fn operating_margin<R: Register>(&self, register: &mut R) -> Result<u32, MethodFault> {
        let (low_cost, other) = group_sums(register)?;
        let loads = read_year(&self.year)?;
        if low_cost.1 > total_load(&loads) {
            return Err(refusal(Rule::LowCostAboveLoad, 0));
        }
        let others_mean = mean(other).ok_or(refusal(Rule::NoShare, 0))?;
        let low_cost_mean = mean(low_cost).unwrap_or(0);
        // Each mean has the hours that its units are at the margin as its weight.
        let low_cost_hours = low_cost_hours(&loads, low_cost.1) as u16;
        let other_hours = HOURS as u16 - low_cost_hours;
        Ok(weighted_mean((other_hours, others_mean), (low_cost_hours, low_cost_mean)).unwrap())
    }
}
