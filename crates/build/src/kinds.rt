// The kinds of units that a run is made of.
ghost use Rattle.std.specs.Prelude.{◌≡◌};
ghost use Rattle.build.specs.Kinds.{belongs, long_ago};

use model::PowerUnit;

// Ten years, as days are written.
const TEN_YEARS: u64 = 100_000;

// No closure in its place: what a run is, is defined by which units a kind has, and no definition can name the units of a closure.
#[derive(Clone, Copy)]
pub enum Kind {
    // Home units that are not registered.
    Unregistered,
    // Registered home units.
    Registered,
    // Unregistered home units that are old.
    Old,
}

// The unit started more than ten years before the reference day. The day goes by its number, since days are compared as they are
// written, and beside the unit, since no unit has one of its own.
pub(crate) fn is_old(reference: u32, unit: &PowerUnit) -> bool
    ensures { result ≡ long_ago reference unit.now }
{
    // A day may be any number of 32 bits, and the sum more.
    u64::from(unit.day) + TEN_YEARS < u64::from(reference)
}

pub(crate) fn is_unregistered(unit: &PowerUnit) -> bool
    ensures { result ≡ belongs Kind.Unregistered 0 unit.now }
{
    unit.class.is_home() && !unit.class.is_registered()
}

impl Kind {
    pub(crate) fn has(self, reference: u32, unit: &PowerUnit) -> bool
        ensures { result ≡ belongs self reference unit.now }
    {
        match self {
            Kind::Unregistered => is_unregistered(unit),
            Kind::Registered => unit.class.is_registered(),
            Kind::Old => is_unregistered(unit) && is_old(reference, unit),
        }
    }
}
