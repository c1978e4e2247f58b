// What stands in a book.
ghost use Rattle.std.specs.Prelude.{◌≡◌, map};
ghost use Rattle.book.specs.Seen.{seen};
ghost use Rattle.book.specs.Standing.{standing};

use super::super::StandingUnit;
use super::Book;
use model::Fuel;

impl Book {
    // The fuels in order of entry.
    pub fn fuels(&self) -> &[Fuel]
        ensures { result.now ≡ (seen self.now).fuels }
    {
        &self.fuels
    }

    // The units, newest first.
    pub fn units(&self) -> &[StandingUnit]
        ensures { map standing result.now ≡ (seen self.now).units }
    {
        &self.units
    }
}
