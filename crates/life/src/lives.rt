// A year book after a whole list of calls.
ghost use Rattle.std.specs.Prelude.{◌≡◌, map, IfOk, OnErr};
ghost use Rattle.book.specs.Seen.{After};
ghost use Rattle.life.specs.Lived.{Run, event_of, start, state};

use super::calls::{Answer, Call, carry_out};
use book::Book;
use method::Method;
use std::alloc::{AllocError, Global};

// The book, and an answer for each call.
#[derive(Drop)]
pub struct Life {
    pub book: Book,
    pub answers: Vec<Answer>,
}

// Makes a book and carries the calls out one after another. Room for all answers is reserved first, so that a want of memory
// leaves the buffer as it stood.
pub fn live<M: Method>(
    heap: Global,
    method: &M,
    calls: &[Call],
    buffer: &mut [u8],
) -> Result<Life, AllocError>
    ensures after { IfOk result (λ life. After (map event_of calls.now) life.book) }
    ensures run { IfOk result (λ life. Run (M.Method.meaning method.now) (M.Method.may method.now) M.Method.DISTANCE M.Method.STANDS_ALONE calls.now (start buffer.old) life.answers.items (state life.book buffer.new)) }
    ensures kept { OnErr result (buffer.new ≡ buffer.old) }
{
    let mut answers = Vec::with_capacity(heap, calls.len())?;
    let mut book = Book::new(heap)?;
    for call in calls {
        answers.push_reserved(carry_out(&mut book, method, *call, buffer));
    }
    Ok(Life { book, answers })
}
