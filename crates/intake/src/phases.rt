// The intake gathers entries until its first question, and only answers from then on.
ghost use Rattle.std.specs.Prelude.{◌≡◌};
ghost use Rattle.intake.specs.Taking.{Gathers, Questions, Taken};

use super::questions::check_day;
use super::refusals::refusal;
use super::{MethodSet, decode};
use book::Book;
use model::{IntakeFault, Layer, MethodKind, Question, Record, Rule};

#[derive(Clone, Copy, PartialEq, Eq, Debug)]
pub enum Phase {
    Gathering,
    Answering,
}

#[derive(Clone, Copy, PartialEq, Eq, Debug)]
pub struct Intake {
    pub phase: Phase,
    // The number of records so far; it stays at its greatest value.
    pub index: u32,
}

fn answer<M: MethodSet>(
    book: &mut Book,
    methods: &M,
    question: Question,
) -> Result<M::Reply, IntakeFault>
    ensures { Questions M.MethodSet.asks question book.old book.new methods.now methods.now result }
{
    match MethodKind::try_from(question.method) {
        Ok(kind) => methods.answer(kind, book, question),
        Err(_) => {
            check_day(book, question)?;
            Err(refusal(Rule::OutOfRange, Layer::Intake, 0))
        }
    }
}

fn gather<M: MethodSet>(
    book: &mut Book,
    methods: &mut M,
    entry: Record,
) -> Result<M::Reply, IntakeFault>
    ensures { Gathers M.MethodSet.entry_reply M.MethodSet.loads M.MethodSet.pairs M.MethodSet.asks entry book.old book.new methods.old methods.new result }
{
    match entry {
        Record::Fuel(fuel) => book.enter_fuel(fuel)?,
        Record::Unit(unit) => book.enter_unit(unit)?,
        Record::Burn(burn) => book.enter_burn(burn)?,
        Record::Strike(code) => book.strike(code)?,
        Record::Load(group) => return methods.enter_load(group),
        Record::Yearly(pair) => return methods.enter_pair(pair),
        Record::Question(question) => return answer(book, methods, question),
    }
    Ok(M::entered())
}

impl Intake {
    pub fn new() -> Intake
        ensures { result ≡ record { phase = Phase.Gathering; index = 0 } }
    {
        Intake {
            phase: Phase::Gathering,
            index: 0,
        }
    }

    // Takes one piece of the stream, which is a whole record or the short last one. Book and methods come beside it, each by itself: a
    // question changes the one and reads the other.
    pub fn take<M: MethodSet>(
        &mut self,
        book: &mut Book,
        methods: &mut M,
        bytes: &[u8],
    ) -> Result<M::Reply, IntakeFault>
        ensures { Taken M.MethodSet.entry_reply M.MethodSet.loads M.MethodSet.pairs M.MethodSet.asks self.old self.new book.old book.new methods.old methods.new bytes.now result }
    {
        let at = self.index;
        self.index = at.saturating_add(1);
        let Some(record) = decode(bytes) else {
            return Err(refusal(Rule::ShortOrForeignRecord, Layer::Intake, at));
        };
        match (self.phase, record) {
            (_, Record::Question(_)) => self.phase = Phase::Answering,
            (Phase::Answering, _) => {
                return Err(refusal(Rule::AfterQuestion, Layer::Intake, at));
            }
            (Phase::Gathering, _) => {}
        }
        gather(book, methods, record)
    }
}
