// Theorems on the definitions, each the contract of a function.
ghost use Rattle.model.specs.LoadYears.{LoadLaws, LowCostHoursGrow, LowerCountFirst, NotEveryHourCounts};
ghost use Rattle.model.specs.Operating.{MethodsAgree};
ghost use Rattle.model.specs.Rounding.{RoundedIsFloor, RoundingLaws};
ghost use Rattle.model.specs.Streams.{StreamLaws};

// Rounding is the floor of the fraction plus 1/2, and keeps the laws that every other proof rests on.
pub fn rounding_laws() -> u8
    ensures floor { RoundedIsFloor }
    ensures laws { RoundingLaws }
{
    0
}

// What proofs know of a load.
pub fn load_laws() -> u8
    ensures { LoadLaws }
{
    0
}

// Lower loads count first. With more low-cost generation there are never fewer low-cost hours, without any there is none, and where
// it is at most the total load not every hour is one.
pub fn low_cost_laws() -> u8
    ensures lower { LowerCountFirst }
    ensures grow { LowCostHoursGrow }
    ensures some_above { NotEveryHourCounts }
{
    0
}

// What a stream of records leaves: what its accepted entries make in order; nothing more after a question; nothing by a refused record,
// but that a refused question ends the gathering.
pub fn stream_laws() -> u8
    ensures { StreamLaws }
{
    0
}

// The simple and the simple adjusted method, as a question asks them, are the methods as they are defined.
pub fn methods_agree() -> u8
    ensures { MethodsAgree }
{
    0
}
