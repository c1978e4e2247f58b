// Layers over registers: the join of two, and the import.
#![tactic(auto)]

mod joins;

pub use joins::Join;

mod imports;

pub use imports::{Import, ImportEntry, RefusedImport};

mod facts;

pub use facts::{joins_rearrange, journals_pin_lists};
