// The year book: up to 64 fuels and 1,000 units, each unit with up to four burns.
#![tactic(auto)]

mod standing;

pub use standing::StandingUnit;

mod books;

pub use books::{Book, replay};

mod facts;

pub use facts::one_contents;
