// What a load may be, and the faults of load years.
ghost use Rattle.std.specs.Prelude.{◌≡◌};
ghost use Rattle.model.specs.declared.faults.Layer.TheVariants.{LoadYear};
ghost use Rattle.model.specs.Faults.{new_fault};
ghost use Rattle.model.specs.LoadYears.{is_load};

use model::{Fault, Layer, LoadFault, Rule};

// In MW.
pub(super) const MOST_LOAD: u32 = 2_000_000;

#[tactic(auto, unfolding(model::specs::LoadYears::is_load))]
pub fn is_load(number: u32) -> bool
    ensures { result ≡ is_load number }
{
    number <= MOST_LOAD
}

// The place is an hour or a group. Each layer has its own: one for all would need a trait with an impl as long as this for each fault type.
pub(super) fn refusal(rule: Rule, place: u32) -> LoadFault
    ensures { result ≡ record { fault = new_fault rule LoadYear place } }
{
    LoadFault {
        fault: Fault::new(rule, Layer::LoadYear, place),
    }
}
