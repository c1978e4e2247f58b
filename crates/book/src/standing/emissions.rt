// What a unit emits.
ghost use Rattle.std.specs.Prelude.{◌≡◌, ◌<◌, ◌≤◌, IfSome};
ghost use Rattle.model.specs.Units.{by_efficiency, default_emission, emission, listed_unit, told};
ghost use Rattle.std.specs.Option.{option_map};
ghost use Rattle.book.specs.Burns.{lowest_of};
ghost use Rattle.book.specs.Standing.{fraction, standing};

use super::{StandingUnit, home_class};
use model::{PowerUnit, Ratio};

impl StandingUnit {
    // The lowest carbon factor among the burns, if there are any.
    fn lowest_carbon_factor(&self) -> Option<u32>
        ensures value { result ≡ lowest_of (standing self.now).burns }
        ensures bound { IfSome result (λ factor. factor ≤ 320000) }
    {
        self.burns()
            .iter()
            .map(|burn| burn.fuel.carbon_factor)
            .min()
    }

    // Grams by an efficiency in per mille, 0 without burns.
    fn by_efficiency(&self, efficiency: u16) -> Ratio
        requires { 0 < efficiency }
        ensures { fraction result ≡ by_efficiency (standing self.now).entry.generation efficiency (standing self.now).burns }
    {
        let Some(factor) = self.lowest_carbon_factor() else {
            return Ratio::new(0, 1).unwrap();
        };
        let grams = u64::from(self.entry.generation) * u64::from(factor) * 3_600;
        Ratio::new(grams, u64::from(efficiency)).unwrap()
    }

    // The exact emission in grams: by the fuel burned, or by the efficiency where there is one.
    pub fn emission(&self) -> Ratio
        ensures { fraction result ≡ emission (standing self.now) }
    {
        if self.entry.efficiency == 0 {
            Ratio::new(self.burned(), 1_000).unwrap()
        } else {
            self.by_efficiency(self.entry.efficiency)
        }
    }

    // The default emission: by the default efficiency. There is none where the unit has burns and default efficiency 0.
    pub fn default_emission(&self) -> Option<Ratio>
        ensures { option_map fraction result ≡ default_emission (standing self.now) }
    {
        if self.burns().is_empty() {
            return Ratio::new(0, 1);
        }
        if self.entry.default_efficiency == 0 {
            return None;
        }
        Some(self.by_efficiency(self.entry.default_efficiency))
    }
}

// The unit as a register tells it.
impl From<&StandingUnit> for PowerUnit {
    ghost from_gives = { λ unit outcome. outcome ≡ told (listed_unit (standing unit.now)) };

    fn from(unit: &StandingUnit) -> PowerUnit {
        PowerUnit {
            code: unit.entry.code,
            day: unit.entry.day,
            class: home_class(&unit.entry).unwrap(),
            generation: unit.entry.generation,
            grams: unit.emission().rounded(),
            default_grams: unit.default_emission().map(|emission| emission.rounded()),
        }
    }
}
