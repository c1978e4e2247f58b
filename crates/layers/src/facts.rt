// Theorems on joins and histories, each on the contract of a function.
ghost use Rattle.model.specs.History.{Carried, OneCourse};
ghost use Rattle.model.specs.Merge.{MergeIsInWords, MergeRearranges, OneMerge};

// The merge of two properly ended lists is a rearrangement of both: newest first, and of each day the first side's units before the
// second side's. No other list is.
pub fn joins_rearrange() -> u8
    ensures rearranges { MergeRearranges }
    ensures words { MergeIsInWords }
    ensures one { OneMerge }
{
    0
}

// The journals of the year books pin a register's list, and what it lists is what they tell.
pub fn journals_pin_lists() -> u8
    ensures pins { OneCourse }
    ensures carries { Carried }
{
    0
}
