// What can happen to a year book. A journal is a list of events, the oldest first.
use super::{BurnEntry, Fuel, UnitEntry};

#[derive(Clone, Copy, PartialEq, Eq, Debug)]
pub enum Event {
    EnterFuel(Fuel),
    EnterUnit(UnitEntry),
    EnterBurn(BurnEntry),
    Strike(u16),
    Restart,
    Next,
    Packing,
    Question,
}
