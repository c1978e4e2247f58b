// The build margin: what the newest units of a grid, its build cohort, emit for each MWh.
#![tactic(auto)]

mod cohorts;
mod kinds;
mod margins;
mod members;
mod refusals;
mod runs;

pub use margins::build_margin;

mod facts;

pub use facts::{build_is_near, cohort_in_words};
