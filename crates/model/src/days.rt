// A valid calendar day, written as the number YYYYMMDD.
ghost use Rattle.std.specs.Prelude.{◌≡◌, true, is_some, MatchOption};
ghost use Rattle.model.specs.Calendar.{CalendarDay, is_day, leap_year, month_length};

// Days of the months January to December, in common and in leap years.
const COMMON: [u8; 12] = [31, 28, 31, 30, 31, 30, 31, 31, 30, 31, 30, 31];

const LEAP: [u8; 12] = [31, 29, 31, 30, 31, 30, 31, 31, 30, 31, 30, 31];

#[derive(Clone, Copy, PartialEq, Eq, Debug)]
pub struct Day {
    number: u32,
    ghost valid: { is_day number ≡ true },
}

fn is_leap(year: u32) -> bool
    ensures { result ≡ leap_year year }
{
    year % 4 == 0 && (year % 100 != 0 || year % 400 == 0)
}

// The days of the month, counted from 1; a number that is no month has none.
fn month_length(year: u32, month: u32) -> u8
    ensures { result ≡ month_length year month }
{
    if month < 1 || month > 12 {
        return 0;
    }
    let index = (month - 1) as usize;
    if is_leap(year) {
        LEAP[index]
    } else {
        COMMON[index]
    }
}

impl Day {
    // The day that the number writes, if it is one from 19000101 to 20991231.
    pub fn new(number: u32) -> Option<Day>
        ensures test { is_some result ≡ is_day number }
        ensures cases { MatchOption result (CalendarDay number → ⊥) (λ d. (d.number ≡ number) × CalendarDay number) }
    {
        let year = number / 10_000;
        let month = number / 100 % 100;
        let day = number % 100;
        if year < 1900 || year > 2099 {
            return None;
        }
        if day < 1 || day > u32::from(month_length(year, month)) {
            return None;
        }
        Some(Day { number })
    }

    pub fn number(&self) -> u32
        ensures { result ≡ self.now.number }
    {
        self.number
    }
}
