// The margins and the cohort that a question is answered with.
ghost use Rattle.std.specs.Prelude.{◌≡◌};
ghost use Rattle.model.specs.Classes.{set_number};

// Which of the three sets the build cohort is. Absent where no build margin was asked for: a case of its own and no `Option`, since it is
// told by a number too, 0, as the margin and the counts are 0 then.
#[derive(Clone, Copy, PartialEq, Eq, Debug)]
pub enum CohortSet {
    Absent,
    // The sample run as it is.
    Sample,
    // Old units gone, registered units joined.
    WithRegistered,
    // Old units brought back too.
    WithOld,
}

impl From<CohortSet> for u8 {
    ghost from_gives = { λ set number. number ≡ set_number set };

    fn from(set: CohortSet) -> u8 {
        match set {
            CohortSet::Absent => 0,
            CohortSet::Sample => 1,
            CohortSet::WithRegistered => 2,
            CohortSet::WithOld => 3,
        }
    }
}

#[derive(Clone, Copy, PartialEq, Eq, Debug)]
pub struct Cohort {
    pub set: CohortSet,
    // Units kept from the sample run, registered units, and old units brought back.
    pub counts: (u16, u16, u16),
}

#[derive(Clone, Copy, PartialEq, Eq, Debug)]
pub struct BuildMargin {
    // In g/MWh.
    pub margin: u32,
    pub cohort: Cohort,
}

#[derive(Clone, Copy, PartialEq, Eq, Debug)]
pub struct CombinedMargin {
    // All three in g/MWh.
    pub combined: u32,
    pub operating: u32,
    pub build: u32,
    pub cohort: Cohort,
}

// What a record that was not refused is answered with.
#[derive(Clone, Copy, PartialEq, Eq, Debug)]
pub enum Reply {
    Entered,
    Margin(CombinedMargin),
}

// How much the operating and the build margin count, in per cent.
#[derive(Clone, Copy, PartialEq, Eq, Debug)]
pub struct Weights {
    pub operating: u8,
    pub build: u8,
}
