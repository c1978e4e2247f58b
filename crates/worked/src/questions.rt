// The worked example: two units, one burn, and a question at each of two reference days.
ghost use Rattle.std.specs.Prelude.{◌≡◌, IfOk, Ok};
ghost use Rattle.book.specs.Seen.{seen};
ghost use Rattle.worked.specs.Asked.{Asked};
ghost use Rattle.worked.specs.Example.{at_first, example_contents, later};
ghost use Rattle.worked.specs.Joined.{joined_first, joined_later};

use super::entries::{COAL, MUST_RUN, PLANT};
use super::re_entered;
use book::Book;
use combined::combined_margin;
use layers::{Import, ImportEntry, Join};
use method::Average;
use model::{BurnEntry, CombinedFault, CombinedMargin, Weights};
use register::Register;
use std::alloc::{AllocError, Global};

const HALVES: Weights = Weights {
    operating: 50,
    build: 50,
};

// The book of the example: 400 tonnes of coal burned in the plant, nothing in the must-run unit.
fn example(heap: Global) -> Result<Book, AllocError>
    ensures { IfOk result (λ book. seen book ≡ example_contents) }
{
    let mut book = Book::new(heap)?;
    let _ = book.enter_fuel(COAL);
    let _ = book.enter_unit(PLANT);
    let _ = book.enter_unit(MUST_RUN);
    let _ = book.enter_burn(BurnEntry {
        unit: 1,
        fuel: 1,
        quantity: 400,
    });
    Ok(book)
}

// Power from another grid.
const POWER: ImportEntry = ImportEntry {
    code: 5,
    generation: 2_000,
    factor: 300_000,
};

pub type Answer = Result<CombinedMargin, CombinedFault>;

// Both questions by the average method, with equal weights.
fn ask_both<R: Register>(register: &mut R) -> (Answer, Answer)
    ensures first { Asked 20240630 (R.Register.contents register.old) result.0 }
    ensures second { Asked 20260101 (R.Register.contents register.old) result.1 }
{
    let first = combined_margin(&Average {}, register, HALVES, 20_240_630);
    let second = combined_margin(&Average {}, register, HALVES, 20_260_101);
    (first, second)
}

// Ten years after the must-run unit's start it is old, and the build margin is the plant's alone.
pub fn both_questions(heap: Global) -> Result<(Answer, Answer), AllocError>
    ensures { IfOk result (λ answers. (answers.0 ≡ Ok at_first) × (answers.1 ≡ Ok later)) }
{
    Ok(ask_both(&mut example(heap)?))
}

// The same two questions over the example's book joined with one that has a unit struck and entered again, and with power from
// another grid above both.
pub fn through_layers(heap: Global) -> Result<(Answer, Answer), AllocError>
    ensures { IfOk result (λ answers. (answers.0 ≡ Ok joined_first) × (answers.1 ≡ Ok joined_later)) }
{
    let both = Join::new(example(heap)?, re_entered(heap)?);
    let mut grid = Import::new(both, POWER).unwrap();
    Ok(ask_both(&mut grid))
}
