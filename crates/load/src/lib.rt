// Load years: for each hour of a year a load in MW, or a fault.
#![tactic(auto)]

ghost use Rattle.std.specs.Prelude.{◌≡◌, ℕ, true};
ghost use Rattle.model.specs.LoadYears.{Hour, hour_answer, is_load, load};

use model::LoadFault;

mod limits;

pub use limits::is_load;

mod lists;

pub use lists::LoadList;

mod groups;

pub use groups::LoadGroups;

mod sums;

pub use sums::LoadSum;

mod hours;

pub use hours::{low_cost_hours, total_load};

mod reading;

pub use reading::read_year;

// The hours of a year.
pub const HOURS: usize = 8_760;

pub trait LoadYear {
    // What it says of each hour, counted from 0.
    ghost year: { Self → ℕ → Hour };

    // The load of the hour in MW, or its fault.
    fn load(&self, hour: u32) -> Result<u32, LoadFault>
        ensures { result ≡ hour_answer (year self.now hour) };

    ghost ranged: { (y : Self) (h n : ℕ) → year y h ≡ load n → is_load n ≡ true };
}
