// The fuel and the units of the examples, as they are entered.
use model::{Fuel, UnitEntry};

pub(crate) const COAL: Fuel = Fuel {
    code: 1,
    heat_content: 25_800,
    carbon_factor: 94_600,
};

pub(crate) const PLANT: UnitEntry = UnitEntry {
    code: 1,
    class: 0,
    day: 20_200_101,
    generation: 1_000,
    efficiency: 0,
    default_efficiency: 0,
};

pub(crate) const MUST_RUN: UnitEntry = UnitEntry {
    code: 2,
    class: 1,
    day: 20_150_601,
    generation: 3_000,
    ..PLANT
};

// Unit 7 as it is entered first, and as it is entered again.
pub(crate) const FORMER: UnitEntry = UnitEntry {
    code: 7,
    day: 20_010_203,
    ..PLANT
};

pub(crate) const LATTER: UnitEntry = UnitEntry {
    day: 20_220_101,
    generation: 500,
    default_efficiency: 380,
    ..FORMER
};

pub(crate) const OTHER: UnitEntry = UnitEntry {
    code: 9,
    class: 2,
    ..MUST_RUN
};
