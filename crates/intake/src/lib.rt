// The intake: 32-byte records in, entries into a year book and answers out.
#![tactic(auto)]

mod decoding;

pub use decoding::decode;

mod questions;
mod refusals;

pub use questions::ask;

mod methods;

pub use methods::MethodSet;

mod phases;

pub use phases::{Intake, Phase};

mod averages;

pub use averages::{AverageAlone, Feature};

mod lines;

pub use lines::{Line, respond};
