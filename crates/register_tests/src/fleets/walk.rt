// Making a fleet, and its walk.
ghost use Rattle.std.specs.Prelude.{◌≡◌, IfSome, MatchOption};
ghost use Rattle.model.specs.Course.{told_course};
ghost use Rattle.model.specs.History.{foreign};
ghost use Rattle.model.specs.Units.{told, InRange};
ghost use Rattle.register_tests.specs.Fleets.{fleet_of, fleet_unit};
ghost use Rattle.register_tests.specs.Likes.{all-like, unit-ranged, like-falls};
ghost use Rattle.std.proofs.Common.{rules, arith};

use super::Fleet;
use model::{Class, Day, Fault, PowerUnit, RegisterFault};
use register::Register;

impl Fleet {
    // No fleet has the code 0.
    pub fn new(code: u16, day: Day, units: u32, fault: Option<Fault>) -> Option<Fleet>
        ensures contents { MatchOption result (code ≡ 0) (λ f. foreign (fleet_of f.code f.day.number f.units f.fault) ≡ foreign (fleet_of code day.number units fault)) }
        ensures coming { IfSome result (λ f. told_course (fleet_of f.code f.day.number f.left f.fault) ≡ told_course (fleet_of code day.number units fault)) }
    {
        if code == 0 {
            return None;
        }
        Some(Fleet {
            code,
            day,
            units,
            left: units,
            fault,
        })
    }

    fn unit(&self) -> PowerUnit
        ensures { result ≡ told (fleet_unit self.now.code self.now.day.number) }
    {
        PowerUnit {
            code: self.code,
            day: self.day.number(),
            class: Class::Ordinary,
            generation: 100,
            grams: 50_000,
            default_grams: None,
        }
    }
}

impl Register for Fleet {
    ghost contents = { λ f. foreign (fleet_of f.code f.day.number f.units f.fault) };

    ghost coming = { λ f. told_course (fleet_of f.code f.day.number f.left f.fault) };

    ghost ranged = { λ f. all-like InRange f.units (fleet_unit f.code f.day.number) (unit-ranged f.code f.day.number f.coded f.short f.day.valid) };

    ghost falling = { λ f. like-falls f.units (fleet_unit f.code f.day.number) };

    ghost alive = { first_of (Prim.search rules, Prim.grind (arith, Self.row.coded.inj)) };

    fn restart(&mut self) {
        self.left = self.units;
    }

    fn next(&mut self) -> Result<Option<PowerUnit>, RegisterFault> {
        if self.left == 0 {
            return match self.fault {
                Some(fault) => Err(RegisterFault { fault }),
                None => Ok(None),
            };
        }
        self.left -= 1;
        Ok(Some(self.unit()))
    }
}
