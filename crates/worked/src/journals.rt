// A unit struck and entered again.
ghost use Rattle.std.specs.Prelude.{◌≡◌, [], ◌∷◌, IfOk};
ghost use Rattle.model.specs.Course.{proper};
ghost use Rattle.model.specs.History.{listed, year_book};
ghost use Rattle.book.specs.Seen.{Restarted, seen};
ghost use Rattle.worked.specs.Struck.{beside_it, coal, entered_again, standing_units};

use super::entries::{COAL, FORMER, LATTER, OTHER};
use book::Book;
use model::BurnEntry;
use std::alloc::{AllocError, Global};

// 400 tonnes burned in unit 7, which is then struck and entered again with 10 tonnes; unit 9 stands beside it. What the
// first unit 7 burned is gone with it.
pub fn re_entered(heap: Global) -> Result<Book, AllocError>
    ensures contents { IfOk result (λ book. seen book ≡ record { fuels = coal ∷ []; units = standing_units }) }
    ensures list { IfOk result (λ book. listed (year_book (seen book)) ≡ record { units = entered_again ∷ beside_it ∷ []; ending = proper }) }
{
    let mut book = Book::new(heap)?;
    let _ = book.enter_fuel(COAL);
    let _ = book.enter_unit(FORMER);
    let _ = book.enter_unit(OTHER);
    let _ = book.enter_burn(BurnEntry {
        unit: 7,
        fuel: 1,
        quantity: 400,
    });
    let _ = book.strike(7);
    let _ = book.enter_unit(LATTER);
    let _ = book.enter_burn(BurnEntry {
        unit: 7,
        fuel: 1,
        quantity: 10,
    });
    Ok(book)
}
