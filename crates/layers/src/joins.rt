// Two registers as one: merged by day, newest first, the first side ahead on equal days.
ghost use Rattle.std.specs.Prelude.{◌≡◌, None};
ghost use Rattle.model.specs.Course.{told_course};
ghost use Rattle.model.specs.History.{join, listed};
ghost use Rattle.layers.specs.Ahead.{Peeked, join_coming};
ghost use Rattle.model.specs.Units.{InRange};
ghost use Rattle.model.proofs.Merging.{all-merged, falling-merged};
ghost use Rattle.std.proofs.Common.{rules};

use model::{PowerUnit, RegisterFault, Side};
use register::Register;

// A side's end is not held: at its end it is asked again, since it answers the same every time.
#[derive(Drop)]
pub struct Join<A, B> {
    first: A,
    second: B,
    // The unit that was read from a side and not told yet.
    first_ahead: Option<PowerUnit>,
    second_ahead: Option<PowerUnit>,
}

// The unit ahead of a side, read where none is waiting.
fn peek<R: Register>(
    register: &mut R,
    ahead: Option<PowerUnit>,
    side: Side,
) -> Result<Option<PowerUnit>, RegisterFault>
    ensures contents { R.Register.contents register.new ≡ R.Register.contents register.old }
    ensures peeked { Peeked side ahead (R.Register.coming register.old) result (R.Register.coming register.new) }
{
    match ahead {
        Some(unit) => Ok(Some(unit)),
        None => register.next().map_err(|below| RegisterFault {
            fault: below.fault.through(side),
        }),
    }
}

impl<A: Register, B: Register> Join<A, B> {
    // Restarts both.
    pub fn new(mut first: A, mut second: B) -> Join<A, B>
        ensures contents { join (A.Register.contents result.first) (B.Register.contents result.second) ≡ join (A.Register.contents first) (B.Register.contents second) }
        ensures coming { join_coming result.first_ahead (A.Register.coming result.first) result.second_ahead (B.Register.coming result.second) ≡ told_course (listed (join (A.Register.contents first) (B.Register.contents second))) }
    {
        first.restart();
        second.restart();
        Join {
            first,
            second,
            first_ahead: None,
            second_ahead: None,
        }
    }
}

impl<A, B> Join<A, B> {
    pub fn into_parts(self) -> (A, B)
        ensures { (result.0 ≡ self.first) × (result.1 ≡ self.second) }
    {
        (self.first, self.second)
    }
}

impl<A: Register, B: Register> Register for Join<A, B> {
    ghost contents = { λ j. join (A.Register.contents j.first) (B.Register.contents j.second) };

    ghost coming = { λ j. join_coming j.first_ahead (A.Register.coming j.first) j.second_ahead (B.Register.coming j.second) };

    ghost ranged = { λ r. all-merged InRange _ _ _ (A.Register.ranged r.first) (B.Register.ranged r.second) };

    ghost falling = { λ r. falling-merged _ _ (A.Register.falling r.first) (B.Register.falling r.second) };

    ghost alive = { Prim.search rules };

    fn restart(&mut self) {
        self.first.restart();
        self.second.restart();
        self.first_ahead = None;
        self.second_ahead = None;
    }

    fn next(&mut self) -> Result<Option<PowerUnit>, RegisterFault> {
        self.first_ahead = peek(&mut self.first, self.first_ahead, Side::First)?;
        self.second_ahead = peek(&mut self.second, self.second_ahead, Side::Second)?;
        match (self.first_ahead, self.second_ahead) {
            (None, second) => {
                self.second_ahead = None;
                Ok(second)
            }
            (Some(first), Some(second)) if first.day < second.day => {
                self.second_ahead = None;
                Ok(Some(second))
            }
            (Some(first), _) => {
                self.first_ahead = None;
                Ok(Some(first))
            }
        }
    }
}
