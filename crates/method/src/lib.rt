// Margin methods: what a method means, and the simple, the average and the simple adjusted method.
#![tactic(auto)]

ghost use Rattle.std.specs.Prelude.{◌≡◌, ℕ, ◌≤◌, Bool, List, [], length};
ghost use Rattle.model.specs.Course.{limit};
ghost use Rattle.model.specs.Fraction.{Frac, Within, ratio};
ghost use Rattle.model.specs.History.{Rewound, listed};
ghost use Rattle.model.specs.Shares.{Fair, Meets, Verdict, exact, judged, shares};
ghost use Rattle.model.specs.Units.{Falling, Listed, Ranged};

use model::MethodFault;
use register::Register;

pub trait Method {
    // How far an answer may lie from the exact margin, in half grams per MWh.
    const DISTANCE: u32;

    ghost DISTANCE: { ℕ };

    // Whether the method may be asked with no build margin beside it.
    const STANDS_ALONE: bool;

    ghost STANDS_ALONE: { Bool };

    // What a list means to the method: refused, or a share for each unit.
    ghost meaning: { Self → List Listed → Verdict };

    // The figures that it may answer for a list with shares.
    ghost may: { Self → List Listed → ℕ → Type 0 };

    // Refuses exactly as the meaning says; over a list that ends in a fault or has more than 4,000 units, with that fault.
    fn operating_margin<R: Register>(&self, register: &mut R) -> Result<u32, MethodFault>
        ensures left { Rewound (R.Register.contents register.old) (R.Register.contents register.new) (R.Register.coming register.new) }
        ensures answer { Meets (judged (meaning self.now) (listed (R.Register.contents register.old))) (may self.now (listed (R.Register.contents register.old)).units) result };

    ghost fair: { (m : Self) (us : List Listed) (ss : List Frac) → Ranged us → Falling us → length us ≤ limit → meaning m us ≡ shares ss → Fair ss us };

    ghost near: { (m : Self) (us : List Listed) (ss : List Frac) (a : ℕ) → Ranged us → Falling us → length us ≤ limit → meaning m us ≡ shares ss → may m us a → Within (ratio DISTANCE 2) a (exact ss us) };

    ghost close: { DISTANCE ≤ 1000 };
}

mod groups;
mod refusals;

pub use groups::group_sums;

mod weighted;

pub use weighted::weighted_mean;

mod averages;

pub use averages::Average;

mod simples;

pub use simples::Simple;

mod adjustments;

pub use adjustments::Adjusted;
