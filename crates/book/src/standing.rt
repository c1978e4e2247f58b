// A unit that stands in a year book, with what it has burned.
ghost use Rattle.std.specs.Prelude.{◌≡◌, ◌*◌, ◌≤◌, true, take, sum_by};
ghost use Rattle.std.specs.List.{All};
ghost use Rattle.model.specs.Calendar.{is_day};
ghost use Rattle.model.specs.Plain.{unit_in_range};
ghost use Rattle.model.specs.Units.{burned};
ghost use Rattle.book.specs.Burns.{Fits};

use model::{Burn, UnitEntry};

mod burning;
mod emissions;
mod parts;

pub(crate) use parts::home_class;

// An array with a count, and no `ArrayVec`: a unit is `Copy`, for whoever takes it out of `Book::units`.
#[derive(Clone, Copy)]
pub struct StandingUnit {
    entry: UnitEntry,
    // In order of entry; the places from `count` on are free.
    burns: [Burn; 4],
    count: usize,
    ghost coded: { 1 ≤ entry.code },
    ghost short: { entry.code ≤ 65535 },
    ghost dated: { is_day entry.day ≡ true },
    ghost ranged: { unit_in_range entry ≡ true },
    ghost few: { count ≤ 4 },
    // A free place holds the default, which fits too.
    ghost fitting: { All Fits burns },
    // Burned fuel alone makes at most 10,000,000 g for each MWh. (The burns count thousandths.)
    ghost capped: { entry.efficiency ≡ 0 → sum_by burned (take count burns) ≤ 10000000000 * entry.generation },
}
