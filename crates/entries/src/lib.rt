// The lines of the program "windows" and the answers that it prints, one at a time: a line is read, an answer is put into a buffer. The
// definitions are in specs/: Line.antt (what a line means) and Print.antt (what is printed). The stream of lines is of the crate timetable.
#![tactic(auto, unfolding(crate::specs::Line::pair_of, crate::specs::Line::date_word, crate::specs::Line::clear_in, crate::specs::Line::roll_in, crate::specs::Line::next_in, crate::specs::Line::window_in))]

ghost use Rattle.std.specs.Prelude.{◌≡◌, [], ◌∷◌, ◌++◌, ◌+◌, ◌/◌, ◌%◌, ◌≤◌, ◌<◌, length};
ghost use Rattle.decimal.specs.Decimal.{decimal as decimalOf};
ghost use Rattle.answers.specs.Put.{Put};
ghost use Rattle.entries.specs.Line.{pair_of, date_from, date_word, roll_in, next_in, window_in, clear_in, line_of};
ghost use Rattle.entries.specs.Print.{widest, date_text, days_line, opening_line, roll_line, refused_line};

use calendar::Date;
use decimal::Number;
use openings::{Moment, Opening, Window};
use script::{Words, same};

// What a line asks.
#[derive(Clone, Copy)]
pub enum Asked {
    Add(Window),
    Next(Moment),
    Roll(Date),
    Clear,
}

// ---- a line is read

// Two digits as a number.
fn pair(a: u8, b: u8) -> Option<u8>
    ensures { result ≡ pair_of a b }
{
    if a.is_ascii_digit() & b.is_ascii_digit() {
        Some((a - b'0') * 10 + (b - b'0'))
    } else {
        None
    }
}

// A date from its pairs of digits: those of the century, the year in it, the month and the day.
fn date_from(
    century: Option<u8>,
    year: Option<u8>,
    month: Option<u8>,
    day: Option<u8>,
) -> Option<Date>
    ensures { result ≡ date_from century year month day }
{
    let years = u16::from(century?) * 100 + u16::from(year?);
    Some(Date::new(years, month?, day?))
}

// The date that a word names, which may not exist.
fn date_in(w: &[u8]) -> Option<Date>
    ensures { result ≡ date_word w.now }
{
    if w.len() != 10 {
        return None;
    }
    if (w[4] == b'-') & (w[7] == b'-') {
        date_from(
            pair(w[0], w[1]),
            pair(w[2], w[3]),
            pair(w[5], w[6]),
            pair(w[8], w[9]),
        )
    } else {
        None
    }
}

// A line of one word, of two, of three, of five.
fn clear_in(v: &[u8]) -> Option<Asked>
    ensures { result ≡ clear_in v.now }
{
    same(v, b"clear").then_some(Asked::Clear)
}

fn roll_in(v: &[u8], d: &[u8]) -> Option<Asked>
    ensures { result ≡ roll_in v.now d.now }
{
    if same(v, b"roll") {
        date_in(d).map(Asked::Roll)
    } else {
        None
    }
}

// A minute is a number below 65536, which may not be one of a day.
fn next_in(v: &[u8], d: &[u8], k: &[u8]) -> Option<Asked>
    ensures { result ≡ next_in v.now d.now k.now }
{
    if !same(v, b"next") {
        return None;
    }
    let date = date_in(d)?;
    let minute = u64::from_word(k)?;
    if minute < 65536 {
        Some(Asked::Next(Moment {
            date,
            minute: minute as u16,
        }))
    } else {
        None
    }
}

fn window_in(v: &[u8], a: &[u8], b: &[u8], s: &[u8], e: &[u8]) -> Option<Asked>
    ensures { result ≡ window_in v.now a.now b.now s.now e.now }
{
    if !same(v, b"window") {
        return None;
    }
    let first = date_in(a)?;
    let last = date_in(b)?;
    let start = u64::from_word(s)?;
    let end = u64::from_word(e)?;
    if 65536 <= start {
        return None;
    }
    if 65536 <= end {
        return None;
    }
    Some(Asked::Add(Window {
        first,
        last,
        start: start as u16,
        end: end as u16,
    }))
}

// Reads a line, which is given without its line feed.
pub fn read_line(line: &[u8]) -> Option<Asked>
    requires { length line.now ≤ 40 }
    ensures { result ≡ line_of line.now }
{
    let mut words = Words::of(line);
    let v = words.next()?;
    let Some(a) = words.next() else {
        return clear_in(v);
    };
    let Some(b) = words.next() else {
        return roll_in(v, a);
    };
    let Some(s) = words.next() else {
        return next_in(v, a, b);
    };
    let e = words.next()?;
    if words.next().is_some() {
        return None;
    }
    window_in(v, a, b, s, e)
}

// ---- an answer is printed

// The digits of a number below 100. The year's first two come from a number below 656.
fn tens(n: u16) -> u8
    requires { n < 1000 }
    ensures { result ≡ 48 + n / 10 }
{
    (n / 10) as u8 + b'0'
}

fn ones(n: u16) -> u8
    ensures { result ≡ 48 + n % 10 }
{
    (n % 10) as u8 + b'0'
}

// A date as it is printed.
fn date_text(d: Date) -> [u8; 10]
    ensures { result ≡ date_text d }
{
    let century = d.year / 100;
    let year = d.year % 100;
    let month = u16::from(d.month);
    let day = u16::from(d.day);
    [
        tens(century),
        ones(century),
        tens(year),
        ones(year),
        b'-',
        tens(month),
        ones(month),
        b'-',
        tens(day),
        ones(day),
    ]
}

// Each function below writes a piece from `at` on and answers where it ends.

pub fn text(out: &mut [u8], at: usize, b: &[u8]) -> usize
    requires { at + length b.now ≤ length out.old }
    ensures { Put (length b.now) at b.now out.old out.new result }
{
    numbers::put_bytes(out, at, b);
    at + b.len()
}

fn number(out: &mut [u8], at: usize, n: u64) -> usize
    requires { at + 20 ≤ length out.old }
    ensures { Put 20 at (decimalOf n) out.old out.new result }
{
    decimal::put_u64(out, at, n)
}

fn put_date(out: &mut [u8], at: usize, d: Date) -> usize
    requires { at + 10 ≤ length out.old }
    ensures { Put 10 at (date_text d) out.old out.new result }
{
    let t = date_text(d);
    text(out, at, &t)
}

fn put_number_line(out: &mut [u8], at: usize, n: u64) -> usize
    requires { at + 21 ≤ length out.old }
    ensures { Put 21 at (decimalOf n ++ (10 ∷ [])) out.old out.new result }
{
    let end = number(out, at, n);
    text(out, end, b"\n")
}

fn put_moment(out: &mut [u8], at: usize, m: Moment) -> usize
    requires { at + widest ≤ length out.old }
    ensures { Put widest at (opening_line (Opening.At m)) out.old out.new result }
{
    let date = m.date;
    let first = put_date(out, at, date);
    let second = text(out, first, b" ");
    put_number_line(out, second, m.minute as u64)
}

fn put_refused(out: &mut [u8], at: usize, n: u8) -> usize
    requires { at + widest ≤ length out.old }
    ensures { Put widest at (refused_line n) out.old out.new result }
{
    let end = text(out, at, b"refused ");
    put_number_line(out, end, n as u64)
}

pub fn put_opening(out: &mut [u8], at: usize, o: Opening) -> usize
    requires { at + widest ≤ length out.old }
    ensures { Put widest at (opening_line o) out.old out.new result }
{
    match o {
        Opening::At(m) => put_moment(out, at, m),
        Opening::None => text(out, at, b"none\n"),
        Opening::Refused(n) => put_refused(out, at, n),
    }
}

pub fn put_rolled(out: &mut [u8], at: usize, d: Date) -> usize
    requires { at + widest ≤ length out.old }
    ensures { Put widest at (roll_line d) out.old out.new result }
{
    if calendar::exists(d) {
        let next = calendar::day_after(d);
        let end = put_date(out, at, next);
        text(out, end, b"\n")
    } else {
        put_refused(out, at, 15)
    }
}

// A date and the day after it, in a line.
fn put_both_days(out: &mut [u8], d: Date, next: Date) -> usize
    requires { 22 ≤ length out.old }
    ensures { Put 22 0 (days_line d next) out.old out.new result }
{
    let first = put_date(out, 0, d);
    let second = text(out, first, b" ");
    let third = put_date(out, second, next);
    text(out, third, b"\n")
}

pub fn put_days(out: &mut [u8; 22], d: Date, next: Date) -> usize
    ensures { Put 22 0 (days_line d next) out.old out.new result }
{
    put_both_days(out, d, next)
}
