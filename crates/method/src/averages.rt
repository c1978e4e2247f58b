// The average method: every unit shares by its generation.
ghost use Rattle.std.specs.Prelude.{◌≡◌, ℕ, true};
ghost use Rattle.model.specs.Methods.{average_answer, average_meaning, method_fault};
ghost use Rattle.model.specs.declared.faults.Rule.TheVariants.{NoShare};
ghost use Rattle.method.specs.Means.{average-fair, average-near};
ghost use Rattle.std.proofs.Common.{rules};

use super::groups::mean;
use super::refusals::refusal;
use super::{Method, group_sums};
use model::{MethodFault, Rule};
use register::Register;

#[derive(Clone, Copy)]
pub struct Average {}

// No unit has a share. Layer and place are promised here, by a clause of its own.
fn no_share() -> MethodFault
    ensures { result ≡ record { fault = method_fault NoShare 0 } }
{
    refusal(Rule::NoShare, 0)
}

impl Method for Average {
    const DISTANCE: u32 = 2;

    ghost DISTANCE = { 2 };

    const STANDS_ALONE: bool = true;

    ghost STANDS_ALONE = { true };

    ghost meaning = { λ m us. average_meaning us };

    ghost may = { λ m us a. a ≡ average_answer us };

    ghost fair = { λ m us ss h falls few e. average-fair us ss e };

    ghost near = { λ m us ss a h falls few e is. average-near us ss e a h is };

    ghost close = { Prim.search rules };

    fn operating_margin<R: Register>(&self, register: &mut R) -> Result<u32, MethodFault> {
        let (low_cost, other) = group_sums(register)?;
        let all = (low_cost.0 + other.0, low_cost.1 + other.1);
        mean(all).ok_or(no_share())
    }
}
