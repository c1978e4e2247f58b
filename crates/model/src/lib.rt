// What the subject is: faults, days, classes, rounding, power units and the answers.
// The definitions that the contracts cite are in specs/.
#![tactic(auto)]

mod faults;

pub use faults::{
    BookFault, BuildFault, CombinedFault, Fault, IntakeFault, Layer, LoadFault, MethodFault,
    PackingFault, RegisterFault, Rule, Side,
};

mod days;

pub use days::Day;

mod classes;

pub use classes::{Class, UnknownNumber};

mod ratios;

pub use ratios::Ratio;

mod units;

pub use units::{Burn, BurnEntry, Fuel, MOST_EMISSION, MOST_GENERATION, PowerUnit, UnitEntry};

mod events;

pub use events::Event;

mod answers;

pub use answers::{BuildMargin, Cohort, CohortSet, CombinedMargin, Reply, Weights};

mod records;

pub use records::{LoadGroup, MethodKind, Question, Record, YearlyPair};

mod facts;

pub use facts::{load_laws, low_cost_laws, methods_agree, rounding_laws, stream_laws};

mod fields;

pub use fields::{RECORD_SIZE, RecordBytes, all_zero, huge_at, long_at, word_at};
