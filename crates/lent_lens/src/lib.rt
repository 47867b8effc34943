// The lens windows of document 02, P10, for a host in C or Rust: find and roll on plain numbers. A number that is too large for its field becomes the
// field's largest, which no date and no minute has, so it is refused as 15 and never cut. The definitions are in specs/Lens.antt; that the minute found
// is the earliest is proved of the crate openings.
#![tactic(auto)]

ghost use Rattle.std.specs.Prelude.{◌≡◌, ◌++◌, ◌+◌, ◌*◌, ◌-◌, ◌≤◌, length, drop, replicate};
ghost use Rattle.message.specs.Section.{entries};
ghost use Rattle.lent_lens.specs.Lens.{date_of, moment_of, window_numbers, window_of, places, blank, at_number, opening_code, find_number, roll_number};

use calendar::Date;
use lent_answer::{AT, NOTHING, narrow8, narrow16};
use openings::{Moment, Opening, Window};

// How many numbers a window has, and how many windows a list has at most.
const NUMBERS: usize = 8;

const LONGEST: usize = 32;

// ---- from numbers

fn date_of(year: u64, month: u64, day: u64) -> Date
    ensures { result ≡ date_of year month day }
{
    Date {
        year: narrow16(year),
        month: narrow8(month),
        day: narrow8(day),
    }
}

fn moment_of(year: u64, month: u64, day: u64, minute: u64) -> Moment
    ensures { result ≡ moment_of year month day minute }
{
    Moment {
        date: date_of(year, month, day),
        minute: narrow16(minute),
    }
}

// The window of the eight numbers from a place on: first year, month, day; last year, month, day; start; end.
fn window_at(s: &[u64], at: usize) -> Window
    requires { at + window_numbers ≤ length s.now }
    ensures { result ≡ window_of (drop at s.now) }
{
    Window {
        first: date_of(s[at], s[at + 1], s[at + 2]),
        last: date_of(s[at + 3], s[at + 4], s[at + 5]),
        start: narrow16(s[at + 6]),
        end: narrow16(s[at + 7]),
    }
}

// The first n windows, in an array with blanks after them.
fn windows_in(s: &[u64], n: usize) -> [Window; 33]
    requires n_le_places { n ≤ places }
    requires window_numbers_in_bounds { n * window_numbers ≤ length s.now }
    ensures { result ≡ entries window_of window_numbers n s.now ++ replicate (places - n) blank }
{
    let day = Date::FIRST;
    let blank = Window {
        first: day,
        last: day,
        start: 0,
        end: 0,
    };
    let mut all = [blank; 33];
    for i in 0..n {
        all[i] = window_at(s, i * NUMBERS);
    }
    all
}

// ---- the answer

// A minute: year × 2^20 + month × 2^16 + day × 2^11 + minute of the day.
fn at_number(m: Moment) -> u64
    ensures { result ≡ at_number m }
{
    let d = m.date;
    let days = d.year as u64 * 1048576 + d.month as u64 * 65536 + d.day as u64 * 2048;
    lent_answer::of_kind(AT, 0) + days + m.minute as u64
}

fn opening_number(o: Opening) -> u64
    ensures { result ≡ opening_code o }
{
    match o {
        Opening::At(m) => at_number(m),
        Opening::None => lent_answer::of_kind(NOTHING, 0),
        Opening::Refused(n) => n as u64,
    }
}

// ---- the calls

// The earliest minute, not before the given one, that lies in a window. A list that is not of eight numbers a window is refused too.
pub fn find(windows: &[u64], year: u64, month: u64, day: u64, minute: u64) -> u64
    ensures { result ≡ find_number windows.now year month day minute }
{
    if windows.len() % NUMBERS != 0 {
        return 15;
    }
    let n = windows.len() / NUMBERS;
    if LONGEST < n {
        return 15;
    }
    let all = windows_in(windows, n);
    let m = moment_of(year, month, day, minute);
    let found = openings::find_in(all, n, m);
    opening_number(found)
}

// The day after a date, at minute 0.
pub fn roll(year: u64, month: u64, day: u64) -> u64
    ensures { result ≡ roll_number year month day }
{
    let d = date_of(year, month, day);
    let s = calendar::step(d);
    let next = s.date;
    let code = s.code;
    if code == 0 {
        return at_number(Moment {
            date: next,
            minute: 0,
        });
    }
    code as u64
}
