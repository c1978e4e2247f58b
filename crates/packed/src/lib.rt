// Packed registers: P records of 32 bytes, one for each unit; and packing, which writes them.
#![tactic(auto)]

mod packing;
mod records;
mod registers;

pub use packing::pack;
pub use registers::Packed;
