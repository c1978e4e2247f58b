// The combined margin: operating and build margin of a register's list, weighted.
#![tactic(auto)]

ghost use Rattle.std.specs.Prelude.{◌≡◌, ◌+◌, ◌*◌, Some, Option, MatchResult};
ghost use Rattle.model.specs.Course.{told_course};
ghost use Rattle.model.specs.Fraction.{ratio};
ghost use Rattle.model.specs.History.{listed};
ghost use Rattle.model.specs.Promise.{Promise, asked};
ghost use Rattle.model.specs.Rounding.{rounded};
ghost use Rattle.model.specs.declared.faults.Fault.{Fault};
ghost use Rattle.combined.specs.Builds.{built_for};

use build::build_margin;
use method::{Method, weighted_mean};
use model::{
    BuildMargin, Cohort, CohortSet, CombinedFault, CombinedMargin, Day, Fault, Layer, Rule, Weights,
};
use register::{Passing, Register, walk};

// Each layer has its own: one for all would need a trait with an impl as long as this for each fault type.
fn refusal(rule: Rule) -> CombinedFault
    ensures { result.fault ≡ record { rule = rule; layer = Layer.Combined; place = 0; trail = 1 } }
{
    CombinedFault {
        fault: Fault::new(rule, Layer::Combined, 0),
    }
}

// The reference day, unless the question itself is refused: for its day, its weights, or for standing alone.
fn question<M: Method>(weights: Weights, reference: u32) -> Result<Day, CombinedFault>
    ensures { MatchResult result (λ d. (d.number ≡ reference) × (weights.operating + weights.build ≡ 100) × ((later : Option Fault) → asked M.Method.STANDS_ALONE weights.operating weights.build reference later ≡ later)) (λ f. ((later : Option Fault) → asked M.Method.STANDS_ALONE weights.operating weights.build reference later ≡ Some f.fault)) }
{
    let Some(day) = Day::new(reference) else {
        return Err(refusal(Rule::NoSuchDay));
    };
    if u16::from(weights.operating) + u16::from(weights.build) != 100 {
        return Err(refusal(Rule::WeightsNotHundred));
    }
    if weights.build == 0 && !M::STANDS_ALONE {
        return Err(refusal(Rule::CannotStandAlone));
    }
    Ok(day)
}

// The build margin, or zeros where it has no weight.
fn weighted_build<R: Register>(
    weights: Weights,
    register: &mut R,
    reference: Day,
) -> Result<BuildMargin, CombinedFault>
    ensures contents { R.Register.contents register.new ≡ R.Register.contents register.old }
    ensures restarted { R.Register.coming register.old ≡ told_course (listed (R.Register.contents register.old)) → R.Register.coming register.new ≡ told_course (listed (R.Register.contents register.old)) }
    ensures answer { result ≡ built_for weights.build reference.number (listed (R.Register.contents register.old)) }
{
    if weights.build == 0 {
        return Ok(BuildMargin {
            margin: 0,
            cohort: Cohort {
                set: CohortSet::Absent,
                counts: (0, 0, 0),
            },
        });
    }
    Ok(build_margin(register, reference)?)
}

// Rounded once.
fn mixture(weights: Weights, operating: u32, build: u32) -> u32
    requires { weights.operating + weights.build ≡ 100 }
    ensures { result ≡ rounded (ratio (weights.operating * operating + weights.build * build) 100) }
{
    weighted_mean(
        (u16::from(weights.operating), operating),
        (u16::from(weights.build), build),
    )
    .unwrap()
}

// The margins and the cohort of the register's list by a method, on a reference day. Refused with the first fault: of the
// question, of the walk, of the method, of the cohort. The register is left restarted, refused or not.
pub fn combined_margin<R: Register, M: Method>(
    method: &M,
    register: &mut R,
    weights: Weights,
    reference: u32,
) -> Result<CombinedMargin, CombinedFault>
    ensures { Promise (M.Method.meaning method.now) (M.Method.may method.now) M.Method.DISTANCE M.Method.STANDS_ALONE weights.operating weights.build reference (R.Register.contents register.old) (R.Register.contents register.new) (R.Register.coming register.new) result }
{
    register.restart();
    let day = question::<M>(weights, reference)?;
    walk(register, Layer::Combined, &mut Passing {})?;
    let operating = method.operating_margin(register)?;
    let build = weighted_build(weights, register, day)?;
    let combined = mixture(weights, operating, build.margin);
    Ok(CombinedMargin {
        combined,
        operating,
        build: build.margin,
        cohort: build.cohort,
    })
}
