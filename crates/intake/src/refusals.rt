// The intake's own refusals.
ghost use Rattle.std.specs.Prelude.{◌≡◌};
ghost use Rattle.model.specs.Faults.{new_fault};

use model::{Fault, IntakeFault, Layer, Rule};

// Each layer has its own: one for all would need a trait with an impl as long as this for each fault type.
pub(super) fn refusal(rule: Rule, layer: Layer, place: u32) -> IntakeFault
    ensures { result ≡ record { fault = new_fault rule layer place } }
{
    IntakeFault {
        fault: Fault::new(rule, layer, place),
    }
}
