// What the tests share: fleets, P records, and what a register tells.
use super::Fleet;
use layers::{Import, ImportEntry};
use model::{Day, Fault, Layer, Rule};
use register::Register;
use std::test::Fail;

// The codes of the units that came, 0 where none did, and the fault at the end.
#[derive(Clone, Copy)]
pub(super) struct Seen {
    pub codes: [u16; 6],
    pub fault: Option<Fault>,
}

// Takes up to six units.
pub(super) fn six_of<R: Register>(register: &mut R) -> Seen {
    let mut seen = Seen {
        codes: [0; 6],
        fault: None,
    };
    for code in seen.codes.iter_mut() {
        match register.next() {
            Ok(Some(unit)) => *code = unit.code,
            Ok(None) => break,
            Err(below) => {
                seen.fault = Some(below.fault);
                break;
            }
        }
    }
    seen
}

pub(super) fn fleet(code: u16, day: u32, units: u32) -> Result<Fleet, Fail> {
    ending(code, day, units, None)
}

// A fault of a layer that is not under test, with a trail of one's choice.
pub(super) fn fault(place: u32, trail: u32) -> Fault {
    Fault {
        rule: Rule::Missing,
        layer: Layer::LoadYear,
        place,
        trail,
    }
}

// So many units, and then the fault.
pub(super) fn failing(code: u16, day: u32, units: u32, fault: Fault) -> Result<Fleet, Fail> {
    ending(code, day, units, Some(fault))
}

fn ending(code: u16, day: u32, units: u32, fault: Option<Fault>) -> Result<Fleet, Fail> {
    let day = Day::new(day).ok_or("no such day")?;
    Ok(Fleet::new(code, day, units, fault).ok_or("no such code")?)
}

// The import over the register, unless its numbers are refused.
pub(super) fn import<R: Register + Drop>(
    register: R,
    entry: ImportEntry,
) -> Result<Import<R>, Fail> {
    Import::new(register, entry).map_err(|_| Fail::new("refused"))
}

// A P record written field by field.
#[derive(Clone, Copy)]
pub(super) struct Written {
    pub class: u8,
    pub code: u16,
    pub day: u32,
    pub generation: u32,
    pub flag: u8,
    pub grams: u64,
    pub default_grams: u64,
}

pub(super) const SOUND: Written = Written {
    class: 0,
    code: 5,
    day: 20_200_229,
    generation: 1_000,
    flag: 1,
    grams: 10_000_000_000,
    default_grams: 10_000_000_000,
};

impl Written {
    pub(super) fn bytes(&self) -> [u8; 32] {
        let mut bytes = [0u8; 32];
        bytes[0] = 80;
        bytes[1] = self.class;
        bytes[2..4].copy_from_slice(&self.code.to_be_bytes());
        bytes[4..8].copy_from_slice(&self.day.to_be_bytes());
        bytes[8..12].copy_from_slice(&self.generation.to_be_bytes());
        bytes[12] = self.flag;
        bytes[16..24].copy_from_slice(&self.grams.to_be_bytes());
        bytes[24..32].copy_from_slice(&self.default_grams.to_be_bytes());
        bytes
    }
}
