// The whole life of a year book: entries, strikes, restarts, nexts, packings and margin questions, each really carried out.
#![tactic(auto)]

mod calls;

pub use calls::{Answer, Call};

mod lives;

pub use lives::{Life, live};
