// Tests of margins through layers, of the whole life of a year book, and of a whole stream of records.
#![tactic(auto)]

#[cfg(test)]
mod lives;
#[cfg(test)]
mod questions;
#[cfg(test)]
mod shared;
#[cfg(test)]
mod streams;
