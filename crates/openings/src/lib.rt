// Windows of the year in which motors may move, and the earliest open minute from a given one on. The definitions are in
// specs/Windows.antt and specs/Find.antt; what is proved of them, that the minute found is the earliest, is stated in specs/Promise.antt.
#![tactic(auto)]

ghost use Rattle.std.specs.Prelude.{◌≡◌, take};
ghost use Rattle.openings.specs.Windows.{window_exists};
ghost use Rattle.openings.specs.Find.{lasts_on, candidate_of, first_of, earlier_of, find_of};
ghost use Rattle.openings.specs.Pass.{start_of, with_window};

use calendar::Date;

// A span of dates, both included, and a span of minutes of the day, the start included and the end excluded.
#[derive(Clone, Copy)]
pub struct Window {
    pub first: Date,
    pub last: Date,
    pub start: u16,
    pub end: u16,
}

// A minute of a day. Minutes are ordered by the date, then the minute.
#[derive(Clone, Copy, PartialEq, Eq, PartialOrd, Ord)]
pub struct Moment {
    pub date: Date,
    pub minute: u16,
}

// What a search answers: a minute, that there is none up to the end of 2099, or the number of a refusal.
#[derive(Clone, Copy)]
pub enum Opening {
    At(Moment),
    None,
    Refused(u8),
}

// How many windows a list has at most, and a day minutes.
const LONGEST: usize = 32;

const DAY: u16 = 1440;

// Whether a window exists: its dates do, in this order, and its minutes are some of a day's.
pub fn window_exists(w: Window) -> bool
    ensures { result ≡ window_exists w }
{
    let first = w.first;
    let last = w.last;
    if !calendar::exists(first) {
        return false;
    }
    if !calendar::exists(last) {
        return false;
    }
    if !calendar::not_after(first, last) {
        return false;
    }
    if w.end <= w.start {
        return false;
    }
    w.end <= DAY
}

// Whether a window's dates are not over on m's day, and its minutes not by m's minute.
fn lasts(w: Window, m: Moment) -> bool
    ensures { result ≡ lasts_on w m }
{
    let last = w.last;
    let date = m.date;
    if !calendar::not_after(date, last) {
        return false;
    }
    m.minute < w.end
}

// The earliest minute of one window, not before m.
fn candidate(w: Window, m: Moment) -> Opening
    ensures { result ≡ candidate_of w m }
{
    let first = w.first;
    let last = w.last;
    let date = m.date;
    if !calendar::not_after(first, date) {
        return Opening::At(Moment {
            date: first,
            minute: w.start,
        });
    }
    if lasts(w, m) {
        let minute = m.minute.max(w.start);
        return Opening::At(Moment { date, minute });
    }
    if calendar::not_after(last, date) {
        return Opening::None;
    }
    let next = calendar::day_after(date);
    Opening::At(Moment {
        date: next,
        minute: w.start,
    })
}

// The earlier of two minutes.
fn first_of(a: Moment, b: Moment) -> Moment
    ensures { result ≡ first_of a b }
{
    if a < b { a } else { b }
}

// The earlier of a minute found so far and one window's.
fn earlier_than(b: Moment, c: Opening) -> Opening
    ensures { result ≡ earlier_of (Opening.At b) c }
{
    match c {
        Opening::At(a) => Opening::At(first_of(a, b)),
        Opening::None => Opening::At(b),
        Opening::Refused(_) => Opening::At(b),
    }
}

// The earlier of what was found so far and one window's minute.
fn earlier(best: Opening, c: Opening) -> Opening
    ensures { result ≡ earlier_of best c }
{
    match best {
        Opening::At(b) => earlier_than(b, c),
        Opening::None => c,
        Opening::Refused(n) => Opening::Refused(n),
    }
}

// What is known before the first window: whether the list is too long or the minute does not exist.
fn asked(n: usize, m: Moment) -> Opening
    ensures { result ≡ start_of n m }
{
    let date = m.date;
    if LONGEST < n {
        return Opening::Refused(15);
    }
    if !calendar::exists(date) {
        return Opening::Refused(15);
    }
    if DAY <= m.minute {
        return Opening::Refused(15);
    }
    Opening::None
}

// What is known after a window more.
fn with_window(best: Opening, w: Window, m: Moment) -> Opening
    ensures { result ≡ with_window m best w }
{
    if !window_exists(w) {
        return Opening::Refused(15);
    }
    earlier(best, candidate(w, m))
}

// The earliest minute, not before m, that lies in a window of the list: one pass over the windows.
pub fn find(ws: &[Window], m: Moment) -> Opening
    ensures { result ≡ find_of ws.now m }
{
    let mut so_far = asked(ws.len(), m);
    for w in ws {
        so_far = with_window(so_far, *w, m);
    }
    so_far
}

// The same for a list that stands in the first n of some places, by value: a caller that keeps its windows so lends nothing.
pub fn find_in(places: [Window; 33], n: usize, m: Moment) -> Opening
    ensures { result ≡ find_of (take n places) m }
{
    find(&places[..n.min(33)], m)
}
