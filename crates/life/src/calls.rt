// What is asked of a year book, and what it answers.
ghost use Rattle.std.specs.Prelude.{◌≡◌};
ghost use Rattle.model.specs.declared.faults.BookFault.{BookFault};
ghost use Rattle.life.specs.Lived.{Step, state};

use book::Book;
use combined::combined_margin;
use method::Method;
use model::{
    BookFault, BurnEntry, CombinedFault, CombinedMargin, Event, Fuel, PackingFault, PowerUnit,
    RegisterFault, UnitEntry, Weights,
};
use packed::pack;
use register::Register;

#[derive(Clone, Copy)]
pub enum Call {
    EnterFuel(Fuel),
    EnterUnit(UnitEntry),
    EnterBurn(BurnEntry),
    Strike(u16),
    Restart,
    Next,
    Pack,
    // Weights, and the reference day as a number.
    Ask(Weights, u32),
}

#[derive(Clone, Copy)]
pub enum Answer {
    // To entries, strikes and restarts.
    Entered(Result<(), BookFault>),
    Told(Result<Option<PowerUnit>, RegisterFault>),
    Packed(Result<usize, PackingFault>),
    Margin(Result<CombinedMargin, CombinedFault>),
}

// Carries one call out: questions by the method, packings into the buffer.
pub(super) fn carry_out<M: Method>(
    book: &mut Book,
    method: &M,
    call: Call,
    buffer: &mut [u8],
) -> Answer
    ensures { Step (M.Method.meaning method.now) (M.Method.may method.now) M.Method.DISTANCE M.Method.STANDS_ALONE call (state book.old buffer.old) (state book.new buffer.new) result }
{
    match call {
        Call::EnterFuel(fuel) => Answer::Entered(book.enter_fuel(fuel)),
        Call::EnterUnit(entry) => Answer::Entered(book.enter_unit(entry)),
        Call::EnterBurn(entry) => Answer::Entered(book.enter_burn(entry)),
        Call::Strike(code) => Answer::Entered(book.strike(code)),
        Call::Restart => {
            book.restart();
            Answer::Entered(Ok(()))
        }
        Call::Next => Answer::Told(book.next()),
        Call::Pack => Answer::Packed(pack(book, buffer)),
        Call::Ask(weights, reference) => {
            Answer::Margin(combined_margin(method, book, weights, reference))
        }
    }
}
