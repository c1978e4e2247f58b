// A register of a kind that the engine does not know, proved against the trait; and tests of registers, layers, walk and packing.
#![tactic(auto)]

mod fleets;

pub use fleets::Fleet;

#[cfg(test)]
mod imports;
#[cfg(test)]
mod joins;
#[cfg(test)]
mod limits;
#[cfg(test)]
mod packings;
#[cfg(test)]
mod records;
#[cfg(test)]
mod shared;
