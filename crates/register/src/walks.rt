// The one walk over a register, for every sum, count and scan.
ghost use Rattle.std.specs.Prelude.{◌≡◌, ℕ, ◌+◌, ◌<◌, ◌≤◌, map, length, take, IfOk, Ok, Err, fold as folded};
ghost use Rattle.std.specs.List.{AllByRecursion};
ghost use Rattle.model.specs.Course.{if_walked};
ghost use Rattle.model.specs.History.{Rewound, listed};
ghost use Rattle.model.specs.Units.{told};
ghost use Rattle.model.specs.declared.units.PowerUnit.{PowerUnit};
ghost use Rattle.register.specs.Folds.{Cap, Counted, Room};
ghost use Rattle.std.proofs.Common.{rules};

use super::Register;
use model::{Fault, Layer, PowerUnit, RegisterFault, Rule};

// The most units that a walk takes.
const LIMIT: u32 = 4_000;

// What a walk does with each unit, one after another. No closure: each caller would show at its every call that the sums have room
// for any unit; the laws show that once for each fold.
pub trait Fold {
    // Before any unit.
    ghost cleared: { Self → Self };

    // With one unit more.
    ghost step: { Self → PowerUnit → Self };

    // After so many units in range there is room for one more.
    ghost fits: { Self → ℕ → Type 0 };

    fn clear(&mut self)
        ensures { self.new ≡ cleared self.old };

    fn take(&mut self, unit: &PowerUnit)
        requires room { Room fits self.old }
        requires cap { Cap unit.now }
        ensures { self.new ≡ step self.old unit.now };

    ghost begins: { (s : Self) → fits (cleared s) 0 };

    ghost room: { (s : Self) (n : ℕ) (u : PowerUnit) → n < 4000 → fits s n → Cap u → fits (step s u) (n + 1) };
}

// A walk that only goes to the end.
#[derive(Clone, Copy)]
pub struct Passing;

impl Fold for Passing {
    ghost cleared = { λ s. s };

    ghost step = { λ s u. s };

    ghost fits = { λ s n. Unit {0} };

    ghost begins = { Prim.search rules };

    ghost room = { Prim.search rules };

    fn clear(&mut self) {}

    fn take(&mut self, unit: &PowerUnit) {}
}

// Takes the units still to come, the first of them with the fold, and tells how many there were; 2^32 - 1 stands for any more.
fn take_coming<R: Register, F: Fold>(register: &mut R, fold: &mut F) -> Result<u32, RegisterFault>
    requires begun { F.Fold.fits fold.old 0 }
    requires capped { AllByRecursion Cap (R.Register.coming register.old).units }
    ensures contents { R.Register.contents register.new ≡ R.Register.contents register.old }
    ensures folded { fold.new ≡ folded F.Fold.step fold.old (take 4000 (R.Register.coming register.old).units) }
    ensures counts { Counted (R.Register.coming register.old) result }
    ensures fits { IfOk result (λ n. n ≤ 4000 → F.Fold.fits fold.new n) }
{
    let mut count: u32 = 0;
    while let Some(unit) = register.next()? {
        if count < LIMIT {
            fold.take(&unit);
        }
        count = count.saturating_add(1);
    }
    Ok(count)
}

// Walks to the end and tells the number of units. The register's own fault comes first, then a 4,001st unit, which has the
// asker's layer. The fold has taken the first 4,000 units, and the register is left restarted, refused or not.
pub fn walk<R: Register, F: Fold>(
    register: &mut R,
    layer: Layer,
    fold: &mut F,
) -> Result<u32, RegisterFault>
    ensures left { Rewound (R.Register.contents register.old) (R.Register.contents register.new) (R.Register.coming register.new) }
    ensures answer { result ≡ if_walked layer (listed (R.Register.contents register.old)) (Ok (length (listed (R.Register.contents register.old)).units)) (λ f. Err (record { fault = f })) }
    ensures folded { fold.new ≡ folded F.Fold.step (F.Fold.cleared fold.old) (take 4000 (map told (listed (R.Register.contents register.old)).units)) }
    ensures fits { IfOk result (λ n. F.Fold.fits fold.new n) }
{
    register.restart();
    fold.clear();
    let walked = take_coming(register, fold);
    register.restart();
    let count = walked?;
    if count > LIMIT {
        return Err(RegisterFault {
            fault: Fault::new(Rule::TooManyUnits, layer, 0),
        });
    }
    Ok(count)
}
