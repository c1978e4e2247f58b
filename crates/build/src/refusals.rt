// A refusal by a rule of the build margin's own.
ghost use Rattle.std.specs.Prelude.{◌≡◌};
ghost use Rattle.model.specs.Faults.{new_fault};
ghost use Rattle.model.specs.declared.faults.Layer.TheVariants.{Build};

use model::{BuildFault, Fault, Layer, Rule};

// Each layer has its own: one for all would need a trait with an impl as long as this for each fault type.
pub(super) fn refusal(rule: Rule, place: u32) -> BuildFault
    ensures { result ≡ record { fault = new_fault rule Build place } }
{
    BuildFault {
        fault: Fault::new(rule, Layer::Build, place),
    }
}
