// What a year's loads come to: the total load and the low-cost hours.
ghost use Rattle.std.specs.Prelude.{◌≡◌, sum_by};
ghost use Rattle.model.specs.LoadYears.{low_cost_hours};

use super::HOURS;

// In MWh.
pub fn total_load(loads: &[u32; HOURS]) -> u64
    ensures { result ≡ sum_by (λ l. l) loads.now }
{
    loads.iter().map(|load| u64::from(*load)).sum()
}

// How many hours are low-cost: the energy under the load curve up to the hour's own load is less than the low-cost
// generation, in MWh. An hour is left as soon as its energy reaches that, so the sum is exact wherever an hour counts. (Two
// nested loops with a label, and no chain: a rule of the project.)
pub fn low_cost_hours(loads: &[u32], low_cost: u64) -> usize
    ensures { result ≡ low_cost_hours loads.now low_cost }
{
    let mut count = 0;
    'hour: for &own in loads {
        let mut below: u64 = 0;
        for &load in loads {
            below = below.saturating_add(u64::from(load.min(own)));
            if below >= low_cost {
                continue 'hour;
            }
        }
        count += 1;
    }
    count
}
