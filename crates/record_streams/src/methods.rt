// The methods that questions are asked by, with what was gathered for them. (The average method needs nothing.)
ghost use Rattle.std.specs.Prelude.{◌≡◌, [], IfOk};
ghost use Rattle.model.specs.LoadYears.{year_hours, group_year};
ghost use Rattle.model.specs.declared.answers.Reply.TheVariants.{Entered};
ghost use Rattle.load.specs.Taking.{year_of};
ghost use Rattle.method.specs.Pairs.{pairs_of};
ghost use Rattle.record_streams.specs.Taking.{AsksMethod, EntersLoad, EntersPair};

use book::Book;
use intake::{MethodSet, ask};
use load::LoadGroups;
use method::{Adjusted, Average, Simple};
use model::{IntakeFault, LoadGroup, MethodKind, Question, Reply, YearlyPair};
use std::alloc::{AllocError, Global};

#[derive(Drop)]
pub struct Methods {
    simple: Simple,
    adjusted: Adjusted<LoadGroups>,
}

impl Methods {
    pub fn new(heap: Global) -> Result<Methods, AllocError>
        ensures pairs { IfOk result (λ m. pairs_of m.simple ≡ []) }
        ensures year { IfOk result (λ m. year_of m.adjusted.year ≡ group_year year_hours []) }
    {
        let loads = LoadGroups::new(heap)?;
        Ok(Methods {
            simple: Simple::new(),
            adjusted: Adjusted::new(loads),
        })
    }
}

impl MethodSet for Methods {
    type Reply = Reply;

    ghost entry_reply = { Entered };

    ghost loads = { EntersLoad };

    ghost pairs = { EntersPair };

    ghost asks = { AsksMethod };

    fn entered() -> Reply {
        Reply::Entered
    }

    fn enter_load(&mut self, group: LoadGroup) -> Result<Reply, IntakeFault> {
        self.adjusted.year_mut().take_in(group)?;
        Ok(Reply::Entered)
    }

    fn enter_pair(&mut self, pair: YearlyPair) -> Result<Reply, IntakeFault> {
        self.simple.enter(pair)?;
        Ok(Reply::Entered)
    }

    fn answer(
        &self,
        kind: MethodKind,
        book: &mut Book,
        question: Question,
    ) -> Result<Reply, IntakeFault> {
        match kind {
            MethodKind::Simple => ask(&self.simple, book, question),
            MethodKind::Adjusted => ask(&self.adjusted, book, question),
            MethodKind::Average => ask(&Average {}, book, question),
        }
    }
}
