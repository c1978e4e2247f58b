// The average method alone. Load and yearly records and the other methods are not built.
ghost use Rattle.std.specs.Prelude.{◌≡◌, Ok, Err};
ghost use Rattle.model.specs.declared.answers.Reply.TheVariants.{Entered};
ghost use Rattle.intake.specs.Alone.{AsksAlone, loads_alone, pairs_alone};

use super::questions::check_day;
use super::{MethodSet, ask};
use book::Book;
use method::Average;
use model::{IntakeFault, LoadGroup, MethodKind, Question, Reply, YearlyPair};
use std::error::Error;
use std::fmt;

// What the engine does not do yet.
#[derive(Clone, Copy, PartialEq, Eq)]
pub enum Feature {
    LoadRecords,
    YearlyRecords,
    SimpleMethod,
    AdjustedMethod,
}

impl fmt::Display for Feature {
    fn fmt<W: fmt::Write>(&self, f: &mut fmt::Formatter<W>) -> fmt::Result {
        f.write_str(match self {
            Feature::LoadRecords => "load records (H) are not built yet",
            Feature::YearlyRecords => "yearly records (Y) are not built yet",
            Feature::SimpleMethod => "the simple method (1) is not built yet",
            Feature::AdjustedMethod => "the simple adjusted method (2) is not built yet",
        })
    }
}

// By hand, and no derive: a program that ends with an error shows it in this form, so that it reads as text too.
impl fmt::Debug for Feature {
    fn fmt<W: fmt::Write>(&self, f: &mut fmt::Formatter<W>) -> fmt::Result {
        fmt::Display::fmt(self, f)
    }
}

impl Error for Feature {}

#[derive(Clone, Copy, PartialEq, Eq, Debug)]
pub struct AverageAlone {}

impl MethodSet for AverageAlone {
    // A reply, or what is not built.
    type Reply = Result<Reply, Feature>;

    ghost entry_reply = { Ok Entered };

    ghost loads = { loads_alone };

    ghost pairs = { pairs_alone };

    ghost asks = { AsksAlone };

    fn entered() -> Self::Reply {
        Ok(Reply::Entered)
    }

    fn enter_load(&mut self, _group: LoadGroup) -> Result<Self::Reply, IntakeFault> {
        Ok(Err(Feature::LoadRecords))
    }

    fn enter_pair(&mut self, _pair: YearlyPair) -> Result<Self::Reply, IntakeFault> {
        Ok(Err(Feature::YearlyRecords))
    }

    fn answer(
        &self,
        kind: MethodKind,
        book: &mut Book,
        question: Question,
    ) -> Result<Self::Reply, IntakeFault> {
        let missing = match kind {
            MethodKind::Average => return Ok(Ok(ask(&Average {}, book, question)?)),
            MethodKind::Simple => Feature::SimpleMethod,
            MethodKind::Adjusted => Feature::AdjustedMethod,
        };
        check_day(book, question)?;
        Ok(Err(missing))
    }
}
