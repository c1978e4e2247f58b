// A book after a whole journal.
ghost use Rattle.std.specs.Prelude.{IfOk};
ghost use Rattle.book.specs.Seen.{After, Lives, Restarted, Told, Walks};

use super::Book;
use model::{BookFault, Event};
use register::Register;
use std::alloc::{AllocError, Global};

impl Book {
    // Takes an event, whichever it is.
    pub fn apply(&mut self, event: Event) -> Result<(), BookFault>
        ensures told { Told event self.old result }
        ensures life { Lives event self.old self.new }
        ensures walk { Walks event self.old self.new result }
    {
        match event {
            Event::EnterFuel(fuel) => self.enter_fuel(fuel),
            Event::EnterUnit(entry) => self.enter_unit(entry),
            Event::EnterBurn(entry) => self.enter_burn(entry),
            Event::Strike(code) => self.strike(code),
            Event::Next => {
                let _ = self.next();
                Ok(())
            }
            // A packing and a question walk the book to its end and leave it restarted.
            Event::Restart | Event::Packing | Event::Question => {
                self.restart();
                Ok(())
            }
        }
    }
}

// The book after the journal, with its walk at the start; an event that is refused changes nothing.
pub fn replay(heap: Global, journal: &[Event]) -> Result<Book, AllocError>
    ensures after { IfOk result (λ book. After journal.now book) }
    ensures restarted { IfOk result (λ book. Restarted book) }
{
    let mut book = Book::new(heap)?;
    for event in journal {
        let _ = book.apply(*event);
    }
    book.restart();
    Ok(book)
}
