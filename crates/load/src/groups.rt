// A load year from groups of six hours, taken in one by one.
ghost use Rattle.std.specs.Prelude.{◌≡◌, ℕ, ◌/◌, true, vec_len};
ghost use Rattle.model.specs.LoadYears.{year_hours, ReachedYear, is_load, load};
ghost use Rattle.load.specs.Tables.{table_year};

use super::HOURS;

mod entries;
mod years;

// The hours of a group.
const GROUP_HOURS: usize = 6;

// The groups of a year.
const GROUPS: usize = HOURS / GROUP_HOURS;

// The table has a place for each group from the start, so that no later call allocates.
#[derive(Drop)]
pub struct LoadGroups {
    // At the place of each group that was taken in its loads, in hour order.
    groups: Vec<Option<[u32; GROUP_HOURS]>>,
    ghost whole: { vec_len groups ≡ year_hours / 6 },
    ghost ranged: { (h n : ℕ) → table_year year_hours groups.items h ≡ load n → is_load n ≡ true },
    ghost reached: { ReachedYear year_hours (table_year year_hours groups.items) },
}
