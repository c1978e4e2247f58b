// A register with power from another grid as one last unit.
ghost use Rattle.std.specs.Prelude.{◌≡◌, ℕ, ◌≤◌, cond, IfOk, Some, None, MatchResult, refl};
ghost use Rattle.model.specs.Course.{told_course};
ghost use Rattle.model.specs.Faults.{new_fault};
ghost use Rattle.model.specs.History.{import, listed};
ghost use Rattle.model.specs.Merge.{import_fault, imported};
ghost use Rattle.model.specs.Units.{told};
ghost use Rattle.layers.specs.Ahead.{import_coming, import_of};
ghost use Rattle.model.proofs.Lasting.{ranged-last, falling-last};
ghost use Rattle.layers.specs.Imported.{imported-ranged};
ghost use Rattle.std.proofs.Common.{rules, arith};

use model::{Class, Fault, Layer, MOST_EMISSION, MOST_GENERATION, PowerUnit, RegisterFault, Rule};
use register::Register;

// The numbers of an import as they are asked for; `Import::new` refuses those that are out of range.
#[derive(Clone, Copy, PartialEq, Eq, Debug)]
pub struct ImportEntry {
    pub code: u16,
    // In MWh.
    pub generation: u32,
    // In g/MWh.
    pub factor: u32,
}

// Over a register that ends in a fault it adds no unit.
#[derive(Drop)]
pub struct Import<R> {
    register: R,
    entry: ImportEntry,
    // Whether the last unit was told already. No `Option` of it: after a restart it comes again.
    given: bool,
    ghost coded: { 1 ≤ entry.code },
    ghost short: { entry.code ≤ 65535 },
    ghost some: { 1 ≤ entry.generation },
    ghost most: { entry.generation ≤ 100000000 },
    ghost light: { entry.factor ≤ 10000000 },
}

// Why no import was made, and the register back as it stood.
#[derive(Drop)]
pub struct RefusedImport<R> {
    pub register: R,
    pub fault: Fault,
}

impl ImportEntry {
    fn check(self) -> Result<(), Fault>
        ensures { MatchResult result (λ _. import_fault (import_of self) ≡ None) (λ fault. import_fault (import_of self) ≡ Some fault) }
    {
        if self.code == 0 {
            return Err(self.refusal(Rule::ZeroCode));
        }
        if self.generation < 1 || self.generation > MOST_GENERATION || self.factor > MOST_EMISSION {
            return Err(self.refusal(Rule::OutOfRange));
        }
        Ok(())
    }

    fn refusal(self, rule: Rule) -> Fault
        ensures { result ≡ new_fault rule Layer.Import self.code }
    {
        Fault::new(rule, Layer::Import, u32::from(self.code))
    }
}

impl<R: Register> Import<R> {
    // Restarts the register, unless the import is refused.
    pub fn new(mut register: R, entry: ImportEntry) -> Result<Import<R>, RefusedImport<R>>
        ensures cases { MatchResult result (λ _. import_fault (import_of entry) ≡ None) (λ x. (import_fault (import_of entry) ≡ Some x.fault) × (x.register ≡ register)) }
        ensures contents { IfOk result (λ i. import (R.Register.contents i.register) (import_of i.entry) ≡ import (R.Register.contents register) (import_of entry)) }
        ensures coming { IfOk result (λ i. import_coming i.given (import_of i.entry) (R.Register.coming i.register) ≡ told_course (listed (import (R.Register.contents register) (import_of entry)))) }
    {
        // No `map_err`: its closure would take the register along.
        if let Err(fault) = entry.check() {
            return Err(RefusedImport { register, fault });
        }
        register.restart();
        Ok(Import {
            register,
            entry,
            given: false,
        })
    }
}

impl<R> Import<R> {
    pub fn into_register(self) -> R
        ensures { result ≡ self.register }
    {
        self.register
    }
}

// The last unit, as the register tells it.
impl From<ImportEntry> for PowerUnit {
    ghost from_gives = { λ entry unit. unit ≡ told (imported (import_of entry)) };

    fn from(entry: ImportEntry) -> PowerUnit {
        PowerUnit {
            code: entry.code,
            day: 0,
            class: Class::Import,
            generation: entry.generation,
            grams: u64::from(entry.generation) * u64::from(entry.factor),
            default_grams: None,
        }
    }
}

impl<R: Register> Register for Import<R> {
    ghost contents = { λ i. import (R.Register.contents i.register) (import_of i.entry) };

    ghost coming = { λ i. import_coming i.given (import_of i.entry) (R.Register.coming i.register) };

    ghost ranged = { λ r. ranged-last _ _ (R.Register.ranged r.register) (imported-ranged r.entry r.coded r.short r.some r.most r.light) };

    ghost falling = { λ r. falling-last _ _ (R.Register.falling r.register) refl };

    ghost alive = { first_of (Prim.search rules, Prim.grind (arith, Self.row.coded.inj)) };

    fn restart(&mut self) {
        self.register.restart();
        self.given = false;
    }

    fn next(&mut self) -> Result<Option<PowerUnit>, RegisterFault> {
        if self.given {
            return Ok(None);
        }
        match self.register.next()? {
            Some(unit) => Ok(Some(unit)),
            None => {
                self.given = true;
                Ok(Some(PowerUnit::from(self.entry)))
            }
        }
    }
}
