// The members of a cohort, and what they add up to.
ghost use Rattle.std.specs.Prelude.{◌≡◌, ◌≤◌, IfOk, Ok};
ghost use Rattle.model.specs.History.{Rewound, listed};
ghost use Rattle.register.specs.Folds.{AtMost};
ghost use Rattle.build.specs.Members.{Roomy, grams_of, member_step, no_sums, one_less, walked_sums, with_member};
ghost use Rattle.std.proofs.Common.{rules};

use super::kinds::{is_old, is_unregistered};
use model::{BuildFault, Cohort, CohortSet, Layer, PowerUnit};
use register::{Fold, Register, walk};

#[derive(Clone, Copy, Default)]
pub struct Sums {
    pub grams: u64,
    // In MWh.
    pub generation: u64,
    // The code of the first member that has no emission to count.
    pub lacking: Option<u16>,
}

// The members of a cohort while they are walked.
#[derive(Clone, Copy)]
struct Members {
    reference: u32,
    cohort: Cohort,
    // How many of each kind are still to be taken, in the order of the cohort's counts.
    left: (u16, u16, u16),
    sums: Sums,
}

impl Sums {
    fn with(self, unit: &PowerUnit, grams: Option<u64>) -> Sums
        requires room { (self.grams ≤ 4000000000000000000) × (self.generation ≤ 400000000000) }
        requires few_grams { AtMost 1000000000000000 grams }
        ensures { result ≡ with_member self unit.now grams }
    {
        let generation = self.generation + u64::from(unit.generation);
        match grams {
            Some(grams) => Sums {
                grams: self.grams + grams,
                generation,
                ..self
            },
            None => Sums {
                generation,
                lacking: self.lacking.or(Some(unit.code)),
                ..self
            },
        }
    }
}

// What a member counts: in the third set an old unit its default grams, if it has them, and every other its grams.
fn grams_of(set: CohortSet, reference: u32, unit: &PowerUnit) -> Option<u64>
    ensures { result ≡ grams_of set reference unit.now }
{
    match set {
        CohortSet::WithOld if is_old(reference, unit) => unit.default_grams,
        _ => Some(unit.grams),
    }
}

// What is left of each kind once the unit is taken, or none where it is not one to take.
fn one_less(left: (u16, u16, u16), reference: u32, unit: &PowerUnit) -> Option<(u16, u16, u16)>
    ensures { result ≡ one_less left reference unit.now }
{
    let (young, registered, old) = left;
    if unit.class.is_registered() {
        Some((young, registered.checked_sub(1)?, old))
    } else if !is_unregistered(unit) {
        None
    } else if is_old(reference, unit) {
        Some((young, registered, old.checked_sub(1)?))
    } else {
        Some((young.checked_sub(1)?, registered, old))
    }
}

impl Fold for Members {
    ghost cleared = { λ m. record { reference = m.reference; cohort = m.cohort; left = m.cohort.counts; sums = no_sums } };

    ghost step = { member_step };

    ghost fits = { λ m n. Roomy m.sums n };

    ghost begins = { Prim.search rules };

    ghost room = { Prim.search rules };

    fn clear(&mut self) {
        self.left = self.cohort.counts;
        self.sums = Sums::default();
    }

    fn take(&mut self, unit: &PowerUnit) {
        if let Some(left) = one_less(self.left, self.reference, unit) {
            self.left = left;
            self.sums = self
                .sums
                .with(unit, grams_of(self.cohort.set, self.reference, unit));
        }
    }
}

// The sums over the cohort's members. It leaves the register restarted.
pub(crate) fn walk_members<R: Register>(
    register: &mut R,
    reference: u32,
    cohort: Cohort,
) -> Result<Sums, BuildFault>
    ensures left { Rewound (R.Register.contents register.old) (R.Register.contents register.new) (R.Register.coming register.new) }
    ensures small { IfOk result (λ s. Roomy s 4000) }
    ensures answer { result ≡ walked_sums reference cohort (listed (R.Register.contents register.old)) }
{
    let mut members = Members {
        reference,
        cohort,
        left: cohort.counts,
        sums: Sums::default(),
    };
    let _ = walk(register, Layer::Build, &mut members)?;
    Ok(members.sums)
}
