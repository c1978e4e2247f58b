// Every kind of record: entries into a year book and the methods, and answers out. The program does not use it yet.
#![tactic(auto)]

pub use intake::Intake;

mod methods;

pub use methods::Methods;

mod streams;

pub use streams::{take, take_all};
