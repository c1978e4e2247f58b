// The 32-byte records, taken apart. The numbers are as read, and may be out of range.
ghost use Rattle.std.specs.Prelude.{◌≡◌, IfErr};
ghost use Rattle.std.specs.Result.{result_ok};
ghost use Rattle.model.specs.Records.{numbered_method};

use super::{BurnEntry, Fuel, UnitEntry, UnknownNumber};

// Six hours of a load year.
#[derive(Clone, Copy, PartialEq, Eq, Debug)]
pub struct LoadGroup {
    pub group: u16,
    // In MW, in hour order.
    pub loads: [u32; 6],
}

// One of the five yearly pairs of the simple method.
#[derive(Clone, Copy, PartialEq, Eq, Debug, Default)]
pub struct YearlyPair {
    pub year: u8,
    // Both in GWh.
    pub low_cost: u32,
    pub all: u32,
}

// The margin methods that a question may be asked by.
#[derive(Clone, Copy, PartialEq, Eq, Debug)]
pub enum MethodKind {
    Simple,
    Adjusted,
    Average,
}

// The method that a question's byte names, if it names one.
impl TryFrom<u8> for MethodKind {
    type Error = UnknownNumber;

    ghost try_from_gives = { λ number told. (result_ok told ≡ numbered_method number) × IfErr told (λ unknown. unknown.0 ≡ number) };

    fn try_from(number: u8) -> Result<MethodKind, UnknownNumber> {
        match number {
            1 => Ok(MethodKind::Simple),
            2 => Ok(MethodKind::Adjusted),
            3 => Ok(MethodKind::Average),
            _ => Err(UnknownNumber(number)),
        }
    }
}

#[derive(Clone, Copy, PartialEq, Eq, Debug)]
pub struct Question {
    pub method: u8,
    // Weights of the operating and the build margin, in per cent.
    pub operating_weight: u8,
    pub build_weight: u8,
    pub reference: u32,
}

#[derive(Clone, Copy, PartialEq, Eq, Debug)]
pub enum Record {
    Fuel(Fuel),
    Unit(UnitEntry),
    Burn(BurnEntry),
    Strike(u16),
    Load(LoadGroup),
    Yearly(YearlyPair),
    Question(Question),
}
