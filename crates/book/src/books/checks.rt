// What a book refuses, and in which order. A check looks and changes nothing.
ghost use Rattle.std.specs.Prelude.{◌≡◌, Err, MatchResult};
ghost use Rattle.model.specs.declared.events.Event.TheVariants.{EnterBurn, EnterFuel, EnterUnit, Strike};
ghost use Rattle.model.specs.Plain.{book_fault, efficiency_in_range, fuel_in_range, unit_in_range, verdict};
ghost use Rattle.book.specs.Burns.{Fits};
ghost use Rattle.book.specs.Seen.{seen};
ghost use Rattle.book.specs.Standing.{TakesBurn, TakesStrike};

use super::{Book, FUELS, UNITS};
use crate::standing::home_class;
use model::{
    BookFault, Burn, BurnEntry, Day, Fault, Fuel, Layer, MOST_GENERATION, Rule, UnitEntry,
};

// The most fuel units in a burn.
const QUANTITY: u32 = 10_000_000;

// A burn that may be entered, and the place of its unit.
#[derive(Clone, Copy)]
pub(super) struct Accepted {
    pub place: usize,
    pub burn: Burn,
    ghost fits: { Fits burn },
}

// Each layer has its own: one for all would need a trait with an impl as long as this for each fault type.
fn refusal(rule: Rule, code: u16) -> BookFault
    ensures { result ≡ record { fault = book_fault rule code } }
{
    BookFault {
        fault: Fault::new(rule, Layer::Book, u32::from(code)),
    }
}

fn fuel_in_range(fuel: &Fuel) -> bool
    ensures { result ≡ fuel_in_range fuel.now }
{
    (1..=100_000).contains(&fuel.heat_content) && fuel.carbon_factor <= 320_000
}

// None, or 116 to 1,000 per mille.
fn efficiency_in_range(efficiency: u16) -> bool
    ensures { result ≡ efficiency_in_range efficiency }
{
    matches!(efficiency, 0 | 116..=1_000)
}

// A home unit's class, a generation and two efficiencies.
fn unit_in_range(entry: &UnitEntry) -> bool
    ensures { result ≡ unit_in_range entry.now }
{
    home_class(entry).is_some()
        && (1..=MOST_GENERATION).contains(&entry.generation)
        && efficiency_in_range(entry.efficiency)
        && efficiency_in_range(entry.default_efficiency)
}

impl Book {
    pub(super) fn check_fuel(&self, fuel: &Fuel) -> Result<(), BookFault>
        ensures { result ≡ verdict (seen self.now) (EnterFuel fuel.now) }
    {
        if fuel.code == 0 {
            return Err(refusal(Rule::ZeroCode, fuel.code));
        }
        if !fuel_in_range(fuel) {
            return Err(refusal(Rule::OutOfRange, fuel.code));
        }
        if self.find_fuel(fuel.code).is_some() {
            return Err(refusal(Rule::AlreadyStands, fuel.code));
        }
        if self.fuels.len() >= FUELS {
            return Err(refusal(Rule::TableFull, fuel.code));
        }
        Ok(())
    }

    pub(super) fn check_unit(&self, entry: &UnitEntry) -> Result<(), BookFault>
        ensures { result ≡ verdict (seen self.now) (EnterUnit entry.now) }
    {
        if entry.code == 0 {
            return Err(refusal(Rule::ZeroCode, entry.code));
        }
        if Day::new(entry.day).is_none() {
            return Err(refusal(Rule::NoSuchDay, entry.code));
        }
        if !unit_in_range(entry) {
            return Err(refusal(Rule::OutOfRange, entry.code));
        }
        if self.find_unit(entry.code).is_some() {
            return Err(refusal(Rule::AlreadyStands, entry.code));
        }
        if self.units.len() >= UNITS {
            return Err(refusal(Rule::TableFull, entry.code));
        }
        Ok(())
    }

    // A unit that is absent has no burns, so that it may be looked up before its burns are.
    pub(super) fn check_burn(&self, entry: &BurnEntry) -> Result<Accepted, BookFault>
        ensures { MatchResult result (λ a. TakesBurn (seen self.now) entry.now a.place a.burn) (λ fault. Err fault ≡ verdict (seen self.now) (EnterBurn entry.now)) }
    {
        if entry.unit == 0 || entry.fuel == 0 {
            return Err(refusal(Rule::ZeroCode, entry.unit));
        }
        if entry.quantity > QUANTITY {
            return Err(refusal(Rule::OutOfRange, entry.unit));
        }
        let Some(place) = self.find_unit(entry.unit) else {
            return Err(refusal(Rule::NotStanding, entry.unit));
        };
        let unit = &self.units[place];
        if unit.burns_fuel(entry.fuel) {
            return Err(refusal(Rule::AlreadyStands, entry.unit));
        }
        let Some(fuel) = self.find_fuel(entry.fuel) else {
            return Err(refusal(Rule::NotStanding, entry.fuel));
        };
        if unit.is_full() {
            return Err(refusal(Rule::TableFull, entry.unit));
        }
        let quantity = entry.quantity;
        let accepted = Accepted {
            place,
            burn: Burn { fuel, quantity },
        };
        if unit.exceeds(&accepted.burn) {
            return Err(refusal(Rule::EmissionTooHigh, entry.unit));
        }
        Ok(accepted)
    }

    pub(super) fn check_strike(&self, code: u16) -> Result<usize, BookFault>
        ensures { MatchResult result (λ place. TakesStrike (seen self.now) code place) (λ fault. Err fault ≡ verdict (seen self.now) (Strike code)) }
    {
        if code == 0 {
            return Err(refusal(Rule::ZeroCode, code));
        }
        self.find_unit(code).ok_or(refusal(Rule::NotStanding, code))
    }
}
