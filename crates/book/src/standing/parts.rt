// What a unit is made of: its entry and its burns.
ghost use Rattle.std.specs.Prelude.{◌≡◌, ◌<◌, ◌≤◌, true, length, MatchOption};
ghost use Rattle.std.specs.List.{All};
ghost use Rattle.model.specs.Calendar.{is_day};
ghost use Rattle.model.specs.Classes.{numbered_class};
ghost use Rattle.model.specs.Plain.{unit_in_range};
ghost use Rattle.book.specs.Burns.{Fits};
ghost use Rattle.book.specs.Standing.{fresh, standing};

use super::StandingUnit;
use model::{Burn, Class, UnitEntry};

// The class of a home unit, if the entry's number tells one.
pub(crate) fn home_class(entry: &UnitEntry) -> Option<Class>
    ensures { MatchOption result (3 < entry.now.class) (λ class. (entry.now.class ≤ 3) × (numbered_class entry.now.class ≡ Some class)) }
{
    Class::try_from(entry.class)
        .ok()
        .filter(|class| class.is_home())
}

impl StandingUnit {
    // A unit as it is entered, without burns.
    pub(crate) fn new(entry: UnitEntry) -> StandingUnit
        requires coded { 1 ≤ entry.code }
        requires dated { is_day entry.day ≡ true }
        requires ranged { unit_in_range entry ≡ true }
        ensures { standing result ≡ fresh entry }
    {
        StandingUnit {
            entry,
            burns: [Burn::default(); 4],
            count: 0,
        }
    }

    pub fn entry(&self) -> UnitEntry
        ensures { result ≡ (standing self.now).entry }
    {
        self.entry
    }

    // The burns in order of entry.
    pub fn burns(&self) -> &[Burn]
        ensures value { result.now ≡ (standing self.now).burns }
        ensures few { length result.now ≤ 4 }
        ensures fits { All Fits result.now }
    {
        &self.burns[..self.count]
    }
}
