// Theorems on the build cohort and its margin, each on the contract of a function.
ghost use Rattle.model.specs.Cohort.{BuildNear, ComputedIsCohort, MembersAre, OneCohort};

// What is computed is the cohort in words: the shortest sufficient run, or what is left of it with units that joined below a
// fifth. There is one cohort, and its members are the units that its counts tell.
pub fn cohort_in_words() -> u8
    ensures computed { ComputedIsCohort }
    ensures one { OneCohort }
    ensures members { MembersAre }
{
    0
}

// The figure lies within 1 g/MWh of the exact build margin.
pub fn build_is_near() -> u8
    ensures { BuildNear }
{
    0
}
