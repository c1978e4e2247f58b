// The simple method: the units that are not low-cost share by their generation. It is open while low-cost generation was less
// than half of all generation over five years, of which each has its pair of figures.
ghost use Rattle.std.specs.Prelude.{ℕ, ◌≤◌, count_by};
ghost use Rattle.std.specs.List.{AllPass};
ghost use Rattle.model.specs.Operating.{is_year, pair_in_range};

use arrayvec::ArrayVec;
use model::YearlyPair;

mod margin;
mod pairs;

// The years that need a pair, numbered from 0.
const YEARS: usize = 5;

#[derive(Drop)]
pub struct Simple {
    // In order of entry.
    pairs: ArrayVec<YearlyPair, YEARS>,
    ghost ranged: { AllPass pair_in_range pairs.items },
    // No two pairs are of one year, so that there is always room for one of another year.
    ghost apart: { (y : ℕ) → count_by (is_year y) pairs.items ≤ 1 },
}
