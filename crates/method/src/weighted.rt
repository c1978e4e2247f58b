// The mean of two figures, each with its weight.
ghost use Rattle.std.specs.Prelude.{◌≡◌, ◌+◌, ◌*◌, MatchOption};
ghost use Rattle.model.specs.Fraction.{ratio};
ghost use Rattle.model.specs.Rounding.{rounded};

use model::Ratio;

// Weight and figure of each. Rounded once; none where neither has a weight.
pub fn weighted_mean(first: (u16, u32), second: (u16, u32)) -> Option<u32>
    ensures { MatchOption result (first.0 + second.0 ≡ 0) (λ mean. mean ≡ rounded (ratio (first.0 * first.1 + second.0 * second.1) (first.0 + second.0))) }
{
    let sum = u64::from(first.0) * u64::from(first.1) + u64::from(second.0) * u64::from(second.1);
    let ratio = Ratio::new(sum, u64::from(first.0) + u64::from(second.0))?;
    Some(ratio.rounded() as u32)
}
