// A refusal by a method's own rule.
ghost use Rattle.std.specs.Prelude.{◌≡◌};
ghost use Rattle.model.specs.Methods.{method_fault};

use model::{Fault, Layer, MethodFault, Rule};

// Each layer has its own: one for all would need a trait with an impl as long as this for each fault type.
pub(super) fn refusal(rule: Rule, place: u32) -> MethodFault
    ensures { result ≡ record { fault = method_fault rule place } }
{
    MethodFault {
        fault: Fault::new(rule, Layer::Method, place),
    }
}
