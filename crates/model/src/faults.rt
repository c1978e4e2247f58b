// Refusals: which rule broke, in which layer, where, and through which joins the fault came.
ghost use Rattle.std.specs.Prelude.{◌≡◌};
ghost use Rattle.model.specs.Faults.{layer_number, new_fault, rule_number, through};

#[derive(Clone, Copy, PartialEq, Eq, Debug)]
pub enum Rule {
    ShortOrForeignRecord,
    AfterQuestion,
    ZeroCode,
    NoSuchDay,
    OutOfRange,
    WeightsNotHundred,
    CannotStandAlone,
    AlreadyStands,
    NotStanding,
    TableFull,
    EmissionTooHigh,
    LaterDay,
    TooManyUnits,
    Missing,
    LoadTooHigh,
    MethodClosed,
    LowCostAboveLoad,
    NoShare,
    NoBuildUnit,
    NoDefault,
    BufferShort,
}

// The number by which a refusal is told.
impl From<Rule> for u8 {
    ghost from_gives = { λ rule number. number ≡ rule_number rule };

    fn from(rule: Rule) -> u8 {
        match rule {
            Rule::ShortOrForeignRecord => 1,
            Rule::AfterQuestion => 2,
            Rule::ZeroCode => 3,
            Rule::NoSuchDay => 4,
            Rule::OutOfRange => 5,
            Rule::WeightsNotHundred => 6,
            Rule::CannotStandAlone => 7,
            Rule::AlreadyStands => 8,
            Rule::NotStanding => 9,
            Rule::TableFull => 10,
            Rule::EmissionTooHigh => 11,
            Rule::LaterDay => 12,
            Rule::TooManyUnits => 13,
            Rule::Missing => 14,
            Rule::LoadTooHigh => 15,
            Rule::MethodClosed => 16,
            Rule::LowCostAboveLoad => 17,
            Rule::NoShare => 18,
            Rule::NoBuildUnit => 19,
            Rule::NoDefault => 20,
            Rule::BufferShort => 21,
        }
    }
}

// The layer whose rule broke.
#[derive(Clone, Copy, PartialEq, Eq, Debug)]
pub enum Layer {
    Intake,
    Book,
    Packed,
    Import,
    LoadYear,
    Method,
    Build,
    Combined,
    Packing,
}

impl From<Layer> for u8 {
    ghost from_gives = { λ layer number. number ≡ layer_number layer };

    fn from(layer: Layer) -> u8 {
        match layer {
            Layer::Intake => 1,
            Layer::Book => 2,
            Layer::Packed => 3,
            Layer::Import => 4,
            Layer::LoadYear => 5,
            Layer::Method => 6,
            Layer::Build => 7,
            Layer::Combined => 8,
            Layer::Packing => 9,
        }
    }
}

#[derive(Clone, Copy, PartialEq, Eq, Debug)]
pub struct Fault {
    pub rule: Rule,
    pub layer: Layer,
    // A code, hour, group, year or record index, by the rule; 0 where none is named.
    pub place: u32,
    // 1 where the fault arises; each join that it passes doubles it, and the second side adds one.
    pub trail: u32,
}

// The sides of a join.
#[derive(Clone, Copy, PartialEq, Eq, Debug)]
pub enum Side {
    First,
    Second,
}

impl Fault {
    // A fault as it arises.
    pub fn new(rule: Rule, layer: Layer, place: u32) -> Fault
        ensures { result ≡ new_fault rule layer place }
    {
        Fault {
            rule,
            layer,
            place,
            trail: 1,
        }
    }

    // The fault on the upper end of a join: its trail tells the side, as long as there is room for it.
    pub fn through(self, side: Side) -> Fault
        ensures { result ≡ through side self }
    {
        if self.trail >= 0x8000_0000 {
            return self;
        }
        let trail = match side {
            Side::First => 2 * self.trail,
            Side::Second => 2 * self.trail + 1,
        };
        Fault { trail, ..self }
    }
}

// Each layer has a fault type of its own around the fault. One layer's becomes the next one's whole, by `From` and `?`, which is a rule of
// the project. One generic type would need a marker for each layer and the same conversions one by one: a generic one would meet std's own
// of a type to itself.

#[derive(Clone, Copy, PartialEq, Eq, Debug)]
pub struct RegisterFault {
    pub fault: Fault,
}

#[derive(Clone, Copy, PartialEq, Eq, Debug)]
pub struct BookFault {
    pub fault: Fault,
}

#[derive(Clone, Copy, PartialEq, Eq, Debug)]
pub struct LoadFault {
    pub fault: Fault,
}

#[derive(Clone, Copy, PartialEq, Eq, Debug)]
pub struct MethodFault {
    pub fault: Fault,
}

#[derive(Clone, Copy, PartialEq, Eq, Debug)]
pub struct BuildFault {
    pub fault: Fault,
}

#[derive(Clone, Copy, PartialEq, Eq, Debug)]
pub struct CombinedFault {
    pub fault: Fault,
}

#[derive(Clone, Copy, PartialEq, Eq, Debug)]
pub struct PackingFault {
    pub fault: Fault,
}

// A refused record's fault, from whichever layer.
#[derive(Clone, Copy, PartialEq, Eq, Debug)]
pub struct IntakeFault {
    pub fault: Fault,
}

impl From<RegisterFault> for MethodFault {
    ghost from_gives = { λ below above. above.fault ≡ below.fault };

    fn from(below: RegisterFault) -> MethodFault {
        MethodFault { fault: below.fault }
    }
}

impl From<LoadFault> for MethodFault {
    ghost from_gives = { λ below above. above.fault ≡ below.fault };

    fn from(below: LoadFault) -> MethodFault {
        MethodFault { fault: below.fault }
    }
}

impl From<RegisterFault> for BuildFault {
    ghost from_gives = { λ below above. above.fault ≡ below.fault };

    fn from(below: RegisterFault) -> BuildFault {
        BuildFault { fault: below.fault }
    }
}

impl From<RegisterFault> for CombinedFault {
    ghost from_gives = { λ below above. above.fault ≡ below.fault };

    fn from(below: RegisterFault) -> CombinedFault {
        CombinedFault { fault: below.fault }
    }
}

impl From<MethodFault> for CombinedFault {
    ghost from_gives = { λ below above. above.fault ≡ below.fault };

    fn from(below: MethodFault) -> CombinedFault {
        CombinedFault { fault: below.fault }
    }
}

impl From<BuildFault> for CombinedFault {
    ghost from_gives = { λ below above. above.fault ≡ below.fault };

    fn from(below: BuildFault) -> CombinedFault {
        CombinedFault { fault: below.fault }
    }
}

impl From<RegisterFault> for PackingFault {
    ghost from_gives = { λ below above. above.fault ≡ below.fault };

    fn from(below: RegisterFault) -> PackingFault {
        PackingFault { fault: below.fault }
    }
}

impl From<BookFault> for IntakeFault {
    ghost from_gives = { λ below above. above.fault ≡ below.fault };

    fn from(below: BookFault) -> IntakeFault {
        IntakeFault { fault: below.fault }
    }
}

impl From<LoadFault> for IntakeFault {
    ghost from_gives = { λ below above. above.fault ≡ below.fault };

    fn from(below: LoadFault) -> IntakeFault {
        IntakeFault { fault: below.fault }
    }
}

impl From<MethodFault> for IntakeFault {
    ghost from_gives = { λ below above. above.fault ≡ below.fault };

    fn from(below: MethodFault) -> IntakeFault {
        IntakeFault { fault: below.fault }
    }
}

impl From<CombinedFault> for IntakeFault {
    ghost from_gives = { λ below above. above.fault ≡ below.fault };

    fn from(below: CombinedFault) -> IntakeFault {
        IntakeFault { fault: below.fault }
    }
}
