// Fuels, units and burns as they are entered, and a unit as a register tells it.
use super::Class;

// The most that a unit generates, in MWh.
pub const MOST_GENERATION: u32 = 100_000_000;

// The most that it emits for each MWh, in grams.
pub const MOST_EMISSION: u32 = 10_000_000;

#[derive(Clone, Copy, PartialEq, Eq, Debug, Default)]
pub struct Fuel {
    pub code: u16,
    // In thousandths of a GJ per fuel unit, which is a tonne or 1,000 cubic metres.
    pub heat_content: u32,
    // In g CO2 per GJ.
    pub carbon_factor: u32,
}

// A unit as it is delivered: the numbers may be out of range, and a book decides.
#[derive(Clone, Copy, PartialEq, Eq, Debug)]
pub struct UnitEntry {
    pub code: u16,
    pub class: u8,
    pub day: u32,
    // In MWh.
    pub generation: u32,
    // In per mille, 0 for none.
    pub efficiency: u16,
    pub default_efficiency: u16,
}

// So much of a fuel burned in a unit, both by their codes.
#[derive(Clone, Copy, PartialEq, Eq, Debug)]
pub struct BurnEntry {
    pub unit: u16,
    pub fuel: u16,
    // In fuel units.
    pub quantity: u32,
}

// A burn as it stands in its unit. A fuel never changes, so the burn has a copy of it.
#[derive(Clone, Copy, PartialEq, Eq, Debug, Default)]
pub struct Burn {
    pub fuel: Fuel,
    pub quantity: u32,
}

// A unit as a register tells it, its emissions rounded to grams.
#[derive(Clone, Copy, PartialEq, Eq, Debug)]
pub struct PowerUnit {
    pub code: u16,
    // The start day as YYYYMMDD, 0 for an import.
    pub day: u32,
    pub class: Class,
    pub generation: u32,
    pub grams: u64,
    pub default_grams: Option<u64>,
}
