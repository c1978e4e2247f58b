// A year book as a register: its units, newest first.
ghost use Rattle.std.specs.Prelude.{◌≡◌};
ghost use Rattle.model.specs.declared.events.Event.TheVariants.{Next, Restart};
ghost use Rattle.model.specs.Course.{answered, tail, told_course};
ghost use Rattle.model.specs.History.{listed, year_book};
ghost use Rattle.book.specs.Seen.{Lives, coming, seen};
ghost use Rattle.book.specs.Ranges.{ranged-units};
ghost use Rattle.model.proofs.Sounds.{falling-ordered, reached-ordered};

use super::Book;
use model::{PowerUnit, RegisterFault};
use register::Register;

impl Register for Book {
    ghost contents = { λ b. year_book (seen b) };

    ghost coming = { λ b. coming b };

    ghost ranged = { λ b. ranged-units b.units.items };

    ghost falling = { λ b. falling-ordered (seen b).units (reached-ordered (seen b) b.reached) };

    ghost alive = { λ b. b.reached };

    fn restart(&mut self)
        ensures contents { year_book (seen self.new) ≡ year_book (seen self.old) }
        ensures coming { coming self.new ≡ told_course (listed (year_book (seen self.old))) }
        ensures life { Lives Restart self.old self.new }
    {
        self.at = 0;
    }

    fn next(&mut self) -> Result<Option<PowerUnit>, RegisterFault>
        ensures contents { year_book (seen self.new) ≡ year_book (seen self.old) }
        ensures units { (coming self.new).units ≡ tail (coming self.old).units }
        ensures ending { (coming self.new).ending ≡ (coming self.old).ending }
        ensures answer { result ≡ answered (coming self.old).units (coming self.old).ending }
        ensures life { Lives Next self.old self.new }
    {
        let Some(unit) = self.units.get(self.at) else {
            return Ok(None);
        };
        let told = PowerUnit::from(unit);
        self.at += 1;
        Ok(Some(told))
    }
}
