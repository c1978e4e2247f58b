// A question, by a method or by none.
ghost use Rattle.std.specs.Prelude.{◌≡◌};
ghost use Rattle.intake.specs.Taking.{AsksBy, AsksNone};

use super::refusals::refusal;
use book::Book;
use combined::combined_margin;
use method::Method;
use model::{Day, IntakeFault, Layer, Question, Reply, Rule, Weights};
use register::Register;

// The margin that the method answers the question with.
pub fn ask<M: Method>(method: &M, book: &mut Book, question: Question) -> Result<Reply, IntakeFault>
    ensures { AsksBy (M.Method.meaning method.now) (M.Method.may method.now) M.Method.DISTANCE M.Method.STANDS_ALONE question book.old book.new result }
{
    let weights = Weights {
        operating: question.operating_weight,
        build: question.build_weight,
    };
    let margin = combined_margin(method, book, weights, question.reference)?;
    Ok(Reply::Margin(margin))
}

// A question that goes to no method is checked for its day alone, and leaves the book restarted as any question does.
pub(super) fn check_day(book: &mut Book, question: Question) -> Result<(), IntakeFault>
    ensures { AsksNone (Ok tt) question book.old book.new result }
{
    book.restart();
    if Day::new(question.reference).is_none() {
        return Err(refusal(Rule::NoSuchDay, Layer::Combined, 0));
    }
    Ok(())
}
