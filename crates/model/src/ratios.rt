// A fraction of whole numbers, and the one place that rounds.
ghost use Rattle.std.specs.Prelude.{◌≡◌, ◌<◌, MatchOption};
ghost use Rattle.model.specs.Fraction.{ratio};
ghost use Rattle.model.specs.Rounding.{RoundsTo, rounded};

#[derive(Clone, Copy)]
pub struct Ratio {
    num: u64,
    den: u64,
    ghost real: { 0 < den },
}

impl Ratio {
    // The fraction of the two numbers, unless the second is 0.
    pub fn new(num: u64, den: u64) -> Option<Ratio>
        ensures { MatchOption result (den ≡ 0) (λ q. (q.num ≡ num) × (q.den ≡ den)) }
    {
        if den == 0 {
            return None;
        }
        Some(Ratio { num, den })
    }

    // To the nearest whole number, halves up.
    pub fn rounded(&self) -> u64
        ensures value { result ≡ rounded (ratio self.now.num self.now.den) }
        ensures rounds { RoundsTo (ratio self.now.num self.now.den) result }
    {
        let whole = self.num / self.den;
        let rest = self.num % self.den;
        if rest < self.den - rest {
            whole
        } else {
            whole + 1
        }
    }
}
