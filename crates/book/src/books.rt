// A year book: its fuels, its units, and how far its walk has come.
ghost use Rattle.std.specs.Prelude.{◌≤◌, map, vec_len, vec_capacity};
ghost use Rattle.model.specs.Plain.{Reached};
ghost use Rattle.book.specs.Standing.{standing};

use super::StandingUnit;
use model::Fuel;

mod checks;
mod entries;
mod lookup;
mod replays;

pub use replays::replay;

mod views;
mod walk;

const FUELS: usize = 64;

const UNITS: usize = 1_000;

// Room for all fuels and units is reserved when the book is made, so that no later call allocates; a map would allocate at each new key.
#[derive(Drop)]
pub struct Book {
    // In order of entry.
    fuels: Vec<Fuel>,
    // The newest first, on equal days the lower code first.
    units: Vec<StandingUnit>,
    // The units that the walk has told.
    at: usize,
    ghost fuel_room: { 64 ≤ vec_capacity fuels },
    ghost unit_room: { 1000 ≤ vec_capacity units },
    ghost within: { at ≤ vec_len units },
    ghost reached: { Reached (record { fuels = fuels.items; units = map standing units.items }) },
}
