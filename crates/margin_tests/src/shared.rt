// What the tests share.
use model::{BurnEntry, Cohort, CohortSet, CombinedMargin, Fuel, UnitEntry, Weights};

// Of combined, operating and build margin, and the cohort.
pub(super) fn margin(
    [combined, operating, build]: [u32; 3],
    set: CohortSet,
    counts: (u16, u16, u16),
) -> CombinedMargin {
    CombinedMargin {
        combined,
        operating,
        build,
        cohort: Cohort { set, counts },
    }
}

// One fuel unit is one gram.
pub(super) const GRAM: Fuel = Fuel {
    code: 1,
    heat_content: 1_000,
    carbon_factor: 1,
};

pub(super) const HALVES: Weights = Weights {
    operating: 50,
    build: 50,
};

pub(super) fn unit(code: u16, day: u32, generation: u32) -> UnitEntry {
    UnitEntry {
        code,
        class: 0,
        day,
        generation,
        efficiency: 0,
        default_efficiency: 0,
    }
}

pub(super) fn grams(unit: u16, quantity: u32) -> BurnEntry {
    BurnEntry {
        unit,
        fuel: 1,
        quantity,
    }
}
