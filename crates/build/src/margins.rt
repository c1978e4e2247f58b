// The build margin: the cohort's grams over its generation, rounded.
ghost use Rattle.std.specs.Prelude.{◌≡◌, ◌*◌, ◌≤◌};
ghost use Rattle.model.specs.Cohort.{built};
ghost use Rattle.model.specs.History.{Rewound, listed};
ghost use Rattle.build.specs.Margins.{mean_of};

use super::cohorts::cohort;
use super::members::{Sums, walk_members};
use super::refusals::refusal;
use model::{BuildFault, BuildMargin, Day, Ratio, Rule};
use register::Register;

// In g/MWh, unless a member has no emission to count.
fn mean(sums: Sums) -> Result<u32, BuildFault>
    requires { sums.grams ≤ 10000000 * sums.generation }
    ensures { result ≡ mean_of sums }
{
    if let Some(code) = sums.lacking {
        return Err(refusal(Rule::NoDefault, u32::from(code)));
    }
    // A cohort has members: this refuses none.
    let ratio = Ratio::new(sums.grams, sums.generation).ok_or(refusal(Rule::NoBuildUnit, 0))?;
    Ok(ratio.rounded() as u32)
}

// The build margin of the register's list at the reference day, and the cohort that it is of. It leaves the register restarted.
pub fn build_margin<R: Register>(
    register: &mut R,
    reference: Day,
) -> Result<BuildMargin, BuildFault>
    ensures left { Rewound (R.Register.contents register.old) (R.Register.contents register.new) (R.Register.coming register.new) }
    ensures answer { result ≡ built reference.number (listed (R.Register.contents register.old)) }
{
    let day = reference.number();
    let cohort = cohort(register, day)?;
    let sums = walk_members(register, day, cohort)?;
    let margin = mean(sums)?;
    Ok(BuildMargin { margin, cohort })
}
