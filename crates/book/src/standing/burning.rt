// A unit's burns.
ghost use Rattle.std.specs.Prelude.{◌≡◌, ◌<◌, ◌≤◌, false, [], ◌∷◌, ◌++◌, length, sum_by, nat_le};
ghost use Rattle.model.specs.Plain.{any, burns_fuel, exceeds};
ghost use Rattle.model.specs.Units.{burned};
ghost use Rattle.book.specs.Burns.{Fits};
ghost use Rattle.book.specs.Standing.{standing};

use super::StandingUnit;
use model::Burn;

// The most thousandths of a gram that a unit without an efficiency may emit for each MWh.
const MOST: u64 = 10_000_000_000;

// The thousandths of a gram from a burn. Its bounds are asked here: `burns` lends plain burns, so no type of their own could carry them.
pub(crate) fn thousandths(burn: &Burn) -> u64
    requires { Fits burn.now }
    ensures value { result ≡ burned burn.now }
    ensures bound { result ≤ 320000000000000000 }
{
    u64::from(burn.quantity)
        * u64::from(burn.fuel.heat_content)
        * u64::from(burn.fuel.carbon_factor)
}

impl StandingUnit {
    // Some burn is of the fuel with this code.
    pub(crate) fn burns_fuel(&self, code: u16) -> bool
        ensures { result ≡ any (burns_fuel code) (standing self.now).burns }
    {
        self.burns().iter().any(|burn| burn.fuel.code == code)
    }

    // No place is left for a burn.
    pub(crate) fn is_full(&self) -> bool
        ensures { result ≡ nat_le 4 (length (standing self.now).burns) }
    {
        self.burns().len() == self.burns.len()
    }

    // The thousandths of a gram from all burns.
    pub(crate) fn burned(&self) -> u64
        ensures value { result ≡ sum_by burned (standing self.now).burns }
        ensures bound { result ≤ 1280000000000000000 }
    {
        self.burns().iter().map(thousandths).sum()
    }

    // With this burn too, a unit without an efficiency would emit more than the limit.
    pub(crate) fn exceeds(&self, burn: &Burn) -> bool
        requires { Fits burn.now }
        ensures { result ≡ exceeds (standing self.now) burn.now }
    {
        self.entry.efficiency == 0
            && MOST * u64::from(self.entry.generation) < self.burned() + thousandths(burn)
    }

    pub(crate) fn add_burn(&mut self, burn: Burn)
        requires fits { Fits burn }
        requires room { length (standing self.old).burns < 4 }
        requires capped { exceeds (standing self.old) burn ≡ false }
        ensures { standing self.new ≡ record { entry = (standing self.old).entry; burns = (standing self.old).burns ++ burn ∷ [] } }
    {
        self.burns[self.count] = burn;
        self.count += 1;
    }
}
