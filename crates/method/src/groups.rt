// Grams and generation of the low-cost units and of the others, by one walk.
ghost use Rattle.std.specs.Prelude.{◌≡◌, ℕ, ◌+◌, ◌*◌, ◌≤◌, IfSome, IfOk, Ok, Err};
ghost use Rattle.model.specs.Course.{if_walked};
ghost use Rattle.model.specs.History.{Rewound, listed};
ghost use Rattle.model.specs.declared.faults.Layer.TheVariants.{Method};
ghost use Rattle.method.specs.Groups.{Small, group_sums, mean_of, nothing, stepped};
ghost use Rattle.std.proofs.Common.{rules};

use model::{Layer, PowerUnit, Ratio, RegisterFault};
use register::{Fold, Register, walk};

// Grams and generation of each group.
#[derive(Clone, Copy, Default)]
pub struct GroupSums {
    low_cost: (u64, u64),
    other: (u64, u64),
}

impl Fold for GroupSums {
    ghost cleared = { λ _. nothing };

    ghost step = { stepped };

    ghost fits = { Small };

    ghost begins = { Prim.search rules };

    ghost room = { Prim.search rules };

    fn clear(&mut self) {
        *self = GroupSums::default();
    }

    fn take(&mut self, unit: &PowerUnit) {
        let generation = u64::from(unit.generation);
        if unit.class.is_low_cost() {
            self.low_cost.0 += unit.grams;
            self.low_cost.1 += generation;
        } else {
            self.other.0 += unit.grams;
            self.other.1 += generation;
        }
    }
}

// Grams and generation of the low-cost units, then of the others. Leaves the register restarted. (Tuples, and no struct that
// keeps `small`: a rule of the project.)
pub fn group_sums<R: Register>(register: &mut R) -> Result<((u64, u64), (u64, u64)), RegisterFault>
    ensures left { Rewound (R.Register.contents register.old) (R.Register.contents register.new) (R.Register.coming register.new) }
    ensures answer { result ≡ if_walked Method (listed (R.Register.contents register.old)) (Ok (group_sums (listed (R.Register.contents register.old)).units)) (λ f. Err (record { fault = f })) }
    ensures small { IfOk result (λ s. (s.0.1 + s.1.1 ≤ 400000000000) × (s.0.0 ≤ 10000000 * s.0.1) × (s.1.0 ≤ 10000000 * s.1.1)) }
{
    let mut sums = GroupSums::default();
    walk(register, Layer::Method, &mut sums)?;
    Ok((sums.low_cost, sums.other))
}

// Grams over generation, rounded, of a group's sums; none where nothing is generated.
pub(super) fn mean(sums: (u64, u64)) -> Option<u32>
    requires { sums.0 ≤ 10000000 * sums.1 }
    ensures value { result ≡ mean_of sums }
    ensures bound { IfSome result (λ margin. margin ≤ 10000000) }
{
    let ratio = Ratio::new(sums.0, sums.1)?;
    Some(ratio.rounded() as u32)
}
