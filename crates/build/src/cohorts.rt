// The build cohort: the sample run, or what takes its place where units of it are old.
ghost use Rattle.std.specs.Prelude.{◌≡◌};
ghost use Rattle.model.specs.History.{Rewound, listed};
ghost use Rattle.build.specs.Cohorts.{walked_cohort};

use super::kinds::Kind;
use super::refusals::refusal;
use super::runs::{Quota, walk_run};
use model::{BuildFault, Cohort, CohortSet, Rule};
use register::Register;

// The cohort of the register's list. It leaves the register restarted.
pub(crate) fn cohort<R: Register>(register: &mut R, reference: u32) -> Result<Cohort, BuildFault>
    ensures left { Rewound (R.Register.contents register.old) (R.Register.contents register.new) (R.Register.coming register.new) }
    ensures answer { result ≡ walked_cohort reference (listed (R.Register.contents register.old)) }
{
    let all = walk_run(register, reference, Quota::all())?.all;
    if all.units == 0 {
        return Err(refusal(Rule::NoBuildUnit, 0));
    }
    let sample = walk_run(register, reference, Quota::sample(all.generation))?;
    let kept = sample.young;
    if kept.units == sample.all.units {
        return Ok(Cohort {
            set: CohortSet::Sample,
            counts: (kept.units, 0, 0),
        });
    }
    // Five times what is missing to a fifth.
    let missing = all.generation.saturating_sub(5 * kept.generation);
    let registered = walk_run(
        register,
        reference,
        Quota::joining(Kind::Registered, missing),
    )?
    .all;
    let still_missing = missing.saturating_sub(5 * registered.generation);
    if still_missing == 0 {
        return Ok(Cohort {
            set: CohortSet::WithRegistered,
            counts: (kept.units, registered.units, 0),
        });
    }
    let back = walk_run(
        register,
        reference,
        Quota::joining(Kind::Old, still_missing),
    )?
    .all;
    Ok(Cohort {
        set: CohortSet::WithOld,
        counts: (kept.units, registered.units, back.units),
    })
}
