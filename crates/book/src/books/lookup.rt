// Where fuels and units stand.
ghost use Rattle.std.specs.Prelude.{◌≡◌, is_some, IfSome, Decides};
ghost use Rattle.model.specs.Plain.{Before, any, fuel_of, is_fuel, is_unit};
ghost use Rattle.book.specs.Seen.{seen};
ghost use Rattle.book.specs.Standing.{GoesTo, StandsAt, fresh};

use super::Book;
use model::{Fuel, UnitEntry};
use std::cmp::Reverse;

// The first stands before the second: it is newer, or of the same day with the lower code.
fn is_before(first: UnitEntry, second: UnitEntry) -> bool
    ensures { Decides result (Before (fresh first) (fresh second)) }
{
    (Reverse(first.day), first.code) < (Reverse(second.day), second.code)
}

impl Book {
    // The fuel with the code.
    pub(super) fn find_fuel(&self, code: u16) -> Option<Fuel>
        ensures test { is_some result ≡ any (is_fuel code) (seen self.now).fuels }
        ensures value { IfSome result (λ fuel. fuel ≡ fuel_of code (seen self.now).fuels) }
    {
        self.fuels.iter().find(|fuel| fuel.code == code).copied()
    }

    // The place of the unit with the code.
    pub(super) fn find_unit(&self, code: u16) -> Option<usize>
        ensures test { is_some result ≡ any (is_unit code) (seen self.now).units }
        ensures place { IfSome result (λ i. StandsAt code (seen self.now).units i) }
    {
        self.units.iter().position(|unit| unit.entry().code == code)
    }

    // The place for a new unit: behind all that stand before it.
    pub(super) fn place(&self, added: UnitEntry) -> usize
        ensures { GoesTo added (seen self.now).units result }
    {
        self.units
            .partition_point(|unit| is_before(unit.entry(), added))
    }
}
