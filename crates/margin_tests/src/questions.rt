// Questions through joins and imports.
use super::shared::{GRAM, HALVES, grams, margin, unit};
use book::Book;
use combined::combined_margin;
use layers::{Import, ImportEntry, Join};
use method::Average;
use model::{CohortSet, Weights};
use register::Register;
use std::alloc::Global;
use std::test::Fail;
use worked::{both_questions, through_layers};

#[test]
fn the_worked_example(rt: HostRuntime) -> Result<(), Fail> {
    let (first, later) = both_questions(rt.alloc())?;
    assert_eq!(rt;
        first,
        Ok(margin([244_068, 244_068, 244_068], CohortSet::Sample, (2, 0, 0)))
    );
    assert_eq!(rt;
        later,
        Ok(margin(
            [610_170, 244_068, 976_272],
            CohortSet::WithRegistered,
            (1, 0, 0)
        ))
    );
    Ok(())
}

#[test]
fn the_worked_example_through_layers(rt: HostRuntime) -> Result<(), Fail> {
    let (first, later) = through_layers(rt.alloc())?;
    assert_eq!(rt;
        first,
        Ok(margin([195_433, 168_493, 222_373], CohortSet::Sample, (3, 0, 0)))
    );
    assert_eq!(rt;
        later,
        Ok(margin(
            [417_806, 168_493, 667_119],
            CohortSet::WithRegistered,
            (2, 0, 0)
        ))
    );
    Ok(())
}

// So many units of 10 MWh with their code in grams, of which every third was struck and every sixth entered again.
fn lived(heap: Global, codes: u16, day: u32) -> Result<Book, Fail> {
    let mut book = Book::new(heap)?;
    let _ = book.enter_fuel(GRAM);
    for code in 1..codes {
        let _ = book.enter_unit(unit(code, day, 10));
        let _ = book.enter_burn(grams(code, u32::from(code)));
        if code % 3 == 0 {
            let _ = book.strike(code);
        }
        if code % 6 == 0 {
            let _ = book.enter_unit(unit(code, day, 10));
        }
    }
    Ok(book)
}

// Of the codes 1 to 12 of each book 1, 2, 4, 5, 7, 8, 10, 11 burn (48 g in all), and 6 and 12 stand without burns: 100 MWh and
// 48 g in each book. The import adds 50 MWh and 5,000 g. Operating: 5,096 g / 250 MWh, which is 20.384. T is 200 MWh, so that five
// units of the newer book are enough: 1, 2, 4, 5 and 6, with 12 g / 50 MWh, which is 0.24.
#[test]
fn two_lived_books_and_an_import_asked_twice(rt: HostRuntime) -> Result<(), Fail> {
    let older = lived(rt.alloc(), 13, 20_190_101)?;
    let newer = lived(rt.alloc(), 13, 20_200_101)?;
    let entry = ImportEntry {
        code: 99,
        generation: 50,
        factor: 100,
    };
    let Ok(mut grid) = Import::new(Join::new(older, newer), entry) else {
        return Err(Fail::new("refused"));
    };
    let expected = Ok(margin([10, 20, 0], CohortSet::Sample, (5, 0, 0)));
    let once = combined_margin(&Average {}, &mut grid, HALVES, 20_240_630);
    assert_eq!(rt; once, expected);
    let _ = grid.next();
    let twice = combined_margin(&Average {}, &mut grid, HALVES, 20_240_630);
    assert_eq!(rt; twice, expected, "wherever the walk stood");
    Ok(())
}

#[test]
fn the_operating_margin_alone(rt: HostRuntime) -> Result<(), Fail> {
    let mut book = lived(rt.alloc(), 13, 20_190_101)?;
    let alone = Weights {
        operating: 100,
        build: 0,
    };
    let answer = combined_margin(&Average {}, &mut book, alone, 20_240_630);
    assert_eq!(rt; answer, Ok(margin([0, 0, 0], CohortSet::Absent, (0, 0, 0))));
    Ok(())
}
