// A fleet: so many like units of one day, and then a proper end or a fault.
ghost use Rattle.std.specs.Prelude.{◌≤◌};

use model::{Day, Fault};

mod walk;

#[derive(Clone, Copy)]
pub struct Fleet {
    code: u16,
    day: Day,
    units: u32,
    // Units still to come.
    left: u32,
    fault: Option<Fault>,
    ghost coded: { 1 ≤ code },
    ghost short: { code ≤ 65535 },
}
