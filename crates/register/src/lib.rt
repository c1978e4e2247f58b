// A register: a list of power units, newest first, that can be walked again and again.
#![tactic(auto)]

ghost use Rattle.std.specs.Prelude.{◌≡◌, ℕ, List, []};
ghost use Rattle.model.specs.Course.{Course, answered, tail, told_course};
ghost use Rattle.model.specs.History.{Alive, Composition, listed};
ghost use Rattle.model.specs.Units.{Falling, Ranged};
ghost use Rattle.model.specs.declared.units.PowerUnit.{PowerUnit};

use model::{PowerUnit, RegisterFault};

pub trait Register {
    // What the register is made of: `listed` of it is the whole list, exact, and how it ends.
    ghost contents: { Self → Composition };

    // What is still to come, as it will be told, and how that ends.
    ghost coming: { Self → Course PowerUnit };

    // Makes the whole list still to come.
    fn restart(&mut self)
        ensures contents { contents self.new ≡ contents self.old }
        ensures coming { coming self.new ≡ told_course (listed (contents self.old)) };

    // The first unit still to come, which is then dropped; at the end none, or the fault, every time.
    fn next(&mut self) -> Result<Option<PowerUnit>, RegisterFault>
        ensures contents { contents self.new ≡ contents self.old }
        ensures units { (coming self.new).units ≡ tail (coming self.old).units }
        ensures ending { (coming self.new).ending ≡ (coming self.old).ending }
        ensures answer { result ≡ answered (coming self.old).units (coming self.old).ending };

    ghost ranged: { (r : Self) → Ranged (listed (contents r)).units };

    ghost falling: { (r : Self) → Falling (listed (contents r)).units };

    // Each year book inside is one after some journal of its own.
    ghost alive: { (r : Self) → Alive (contents r) };
}

mod walks;

pub use walks::{Fold, Passing, walk};
