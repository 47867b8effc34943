// The calendar of the years 2000 to 2099: its dates, and the day after a date. The definitions are in specs/Calendar.antt; what is
// proved of them, that a roll is one day and that the order of dates is that of their day numbers, is stated in specs/Promise.antt.
#![tactic(auto)]

ghost use Rattle.std.specs.Prelude.{◌≡◌};
ghost use Rattle.calendar.specs.Calendar.{date, leap_of, days_of, exists_of, not_after, next_day, roll_code, roll_date};

// Dates are ordered by the year, then the month, then the day.
#[derive(Clone, Copy, PartialEq, Eq, PartialOrd, Ord)]
pub struct Date {
    pub year: u16,
    pub month: u8,
    pub day: u8,
}

// The calendar's first and last day belong to the date itself.
impl Date {
    pub const FIRST: Date = Date {
        year: 2000,
        month: 1,
        day: 1,
    };

    pub const LAST: Date = Date {
        year: 2099,
        month: 12,
        day: 31,
    };

    pub fn new(year: u16, month: u8, day: u8) -> Date
        ensures { result ≡ date year month day }
    {
        Date { year, month, day }
    }
}

// The Gregorian rule.
fn leap(year: u16) -> bool
    ensures { result ≡ leap_of year }
{
    if year % 400 == 0 {
        return true;
    }
    if year % 100 == 0 {
        return false;
    }
    year % 4 == 0
}

// How many days a month has.
#[tactic(auto, unfolding(crate::specs::Calendar::days_of))]
fn days(year: u16, month: u8) -> u8
    ensures { result ≡ days_of year month }
{
    match month {
        2 => { if leap(year) { 29 } else { 28 } }
        4 | 6 | 9 | 11 => 30,
        _ => 31,
    }
}

// Whether a date is one of the calendar's. FIRST has the first month and day that there are, LAST the last month.
pub fn exists(d: Date) -> bool
    ensures { result ≡ exists_of d }
{
    if d.year < Date::FIRST.year {
        return false;
    }
    if Date::LAST.year < d.year {
        return false;
    }
    if d.month < Date::FIRST.month {
        return false;
    }
    if Date::LAST.month < d.month {
        return false;
    }
    if d.day < Date::FIRST.day {
        return false;
    }
    d.day <= days(d.year, d.month)
}

// Whether a is b or before it.
pub fn not_after(a: Date, b: Date) -> bool
    ensures { result ≡ not_after a b }
{
    a <= b
}

// The day after; the last day stays.
fn next_day(d: Date) -> Date
    ensures { result ≡ next_day d }
{
    if d.day < days(d.year, d.month) {
        return Date::new(d.year, d.month, d.day + 1);
    }
    if d.month < 12 {
        return Date::new(d.year, d.month + 1, 1);
    }
    if d.year < Date::LAST.year {
        return Date::new(d.year + 1, 1, 1);
    }
    Date::LAST
}

// A date after a roll, and the roll's number: 0, or 15 where the date does not exist and stays as it was.
#[derive(Clone, Copy)]
pub struct Stepped {
    pub date: Date,
    pub code: u8,
}

// The roll by value.
pub fn step(d: Date) -> Stepped
    ensures { (result.date ≡ roll_date d) × (result.code ≡ roll_code d) }
{
    if exists(d) {
        let next = next_day(d);
        return Stepped {
            date: next,
            code: 0,
        };
    }
    Stepped { date: d, code: 15 }
}

// The date is rolled forward one day where it stands.
pub fn roll(d: &mut Date) -> u8
    ensures { (result ≡ roll_code d.old) × (d.new ≡ roll_date d.old) }
{
    let s = step(*d);
    *d = s.date;
    s.code
}

// The day after a date, for a caller that lends nothing. A date that does not exist is given back as it is; that it is refused is said by
// `step` and `roll`.
pub fn day_after(d: Date) -> Date
    ensures { result ≡ roll_date d }
{
    step(d).date
}
