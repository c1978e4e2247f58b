// Worked examples: small cases carried out through public calls alone. Each contract has the exact outcome, and its proof knows of
// the calls what their contracts say.
#![tactic(auto)]

mod entries;
mod packings;

pub use packings::pack_join;

mod journals;

pub use journals::re_entered;

mod questions;

pub use questions::{Answer, both_questions, through_layers};
