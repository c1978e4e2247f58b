// Entries and strikes. One that is accepted restarts the walk; one that is refused changes nothing.
ghost use Rattle.std.specs.Prelude.{◌≡◌, [], IfOk};
ghost use Rattle.model.specs.declared.events.Event.TheVariants.{EnterBurn, EnterFuel, EnterUnit, Strike};
ghost use Rattle.model.specs.Plain.{empty};
ghost use Rattle.book.specs.Seen.{After, Entered, Restarted, seen};

use super::super::StandingUnit;
use super::{Book, FUELS, UNITS};
use model::{BookFault, BurnEntry, Fuel, UnitEntry};
use std::alloc::{AllocError, Global};

impl Book {
    pub fn new(heap: Global) -> Result<Book, AllocError>
        ensures empty { IfOk result (λ book. seen book ≡ empty) }
        ensures after { IfOk result (λ book. After [] book) }
        ensures restarted { IfOk result (λ book. Restarted book) }
    {
        let fuels = Vec::with_capacity(heap, FUELS)?;
        let units = Vec::with_capacity(heap, UNITS)?;
        Ok(Book {
            fuels,
            units,
            at: 0,
        })
    }

    pub fn enter_fuel(&mut self, fuel: Fuel) -> Result<(), BookFault>
        ensures { Entered (EnterFuel fuel) self.old self.new result }
    {
        self.check_fuel(&fuel)?;
        self.fuels.push_reserved(fuel);
        self.at = 0;
        Ok(())
    }

    pub fn enter_unit(&mut self, entry: UnitEntry) -> Result<(), BookFault>
        ensures { Entered (EnterUnit entry) self.old self.new result }
    {
        self.check_unit(&entry)?;
        let at = self.place(entry);
        // The room is reserved.
        self.units.insert(at, StandingUnit::new(entry)).unwrap();
        self.at = 0;
        Ok(())
    }

    pub fn enter_burn(&mut self, entry: BurnEntry) -> Result<(), BookFault>
        ensures { Entered (EnterBurn entry) self.old self.new result }
    {
        let accepted = self.check_burn(&entry)?;
        let mut unit = self.units[accepted.place];
        unit.add_burn(accepted.burn);
        self.units[accepted.place] = unit;
        self.at = 0;
        Ok(())
    }

    // Removes the unit with its burns.
    pub fn strike(&mut self, code: u16) -> Result<(), BookFault>
        ensures { Entered (Strike code) self.old self.new result }
    {
        let place = self.check_strike(code)?;
        let _ = self.units.remove(place);
        self.at = 0;
        Ok(())
    }
}
