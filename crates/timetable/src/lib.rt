// The lines of the program "windows", from bytes to bytes. What a line means and how an answer is printed is of the crate entries. The
// definitions are in specs/: Table.antt (the list of windows after a line, and what the line prints) and Run.antt (where a run stands between
// two of its pieces). That the pieces together print what the whole prints, however it is cut, is proofs/Pieces.antt.
#![tactic(auto)]

ghost use Rattle.std.specs.Prelude.{◌≡◌, false, [], ◌+◌, ◌≤◌, ◌<◌, length, take, Some};
ghost use Rattle.numbers.specs.Splice.{splice};
ghost use Rattle.entries.specs.Line.{Next, Roll, Malformed, line_of};
ghost use Rattle.entries.specs.Print.{widest};
ghost use Rattle.timetable.specs.Table.{added_to, list_in};
ghost use Rattle.timetable.specs.Run.{start, within, end_prints, standing};
ghost use Rattle.timetable.specs.Promise.{Plays, Ends, TakesByte, Feeds};

use calendar::Date;
use entries::Asked;
use openings::{Moment, Window};

// The list of windows: the first `count` of the places.
// Kept: memory is fixed by a rule of the project, so the list is an array and its count.
#[derive(Clone, Copy)]
pub struct Table {
    pub places: [Window; 33],
    pub count: usize,
}

// Kept: memory is fixed by a rule of the project, so the line is a buffer and its length.
// Where a run stands between two pieces: the line so far is the first `len` bytes of its buffer. After "bad" it has stopped.
#[derive(Clone, Copy)]
pub struct Playing {
    pub line: [u8; 40],
    pub len: usize,
    pub stopped: bool,
    pub table: Table,
}

// Where the run stands after a piece, how many bytes of the piece are taken, and how many of the output are used.
#[derive(Clone, Copy)]
pub struct Progress {
    pub playing: Playing,
    pub taken: usize,
    pub used: usize,
}

// The list after a line, whether the run stops, and where the output ends.
#[derive(Clone, Copy)]
struct Turned {
    table: Table,
    stopped: bool,
    used: usize,
}

// Where the run stands after a byte, and where the output ends.
#[derive(Clone, Copy)]
struct Step {
    playing: Playing,
    used: usize,
}

// The longest line without its line feed, the places of the list, and the bytes that no printed line exceeds.
const LONGEST: usize = 40;

const PLACES: usize = 33;

const WIDEST: usize = 32;

// ---- a line is played

// A list with a window more, where there is a place.
fn added(t: Table, w: Window) -> Table
    ensures { list_in result ≡ added_to (list_in t) w }
{
    let mut places = t.places;
    let count = t.count;
    if count < PLACES {
        places[count] = w;
        return Table {
            places,
            count: count + 1,
        };
    }
    t
}

// The next open minute is printed.
fn play_next(t: Table, m: Moment, out: &mut [u8], at: usize) -> Turned
    requires { at + widest ≤ length out.old }
    ensures { Plays (Next m) (list_in t) at out.old out.new result }
{
    let places = t.places;
    let o = openings::find_in(places, t.count, m);
    let used = entries::put_opening(out, at, o);
    Turned {
        table: t,
        stopped: false,
        used,
    }
}

// The day after is printed.
fn play_roll(t: Table, d: Date, out: &mut [u8], at: usize) -> Turned
    requires { at + widest ≤ length out.old }
    ensures { Plays (Roll d) (list_in t) at out.old out.new result }
{
    let used = entries::put_rolled(out, at, d);
    Turned {
        table: t,
        stopped: false,
        used,
    }
}

// Prints that a line is malformed: the run stops.
fn play_malformed(t: Table, out: &mut [u8], at: usize) -> Turned
    requires { at + widest ≤ length out.old }
    ensures { Plays Malformed (list_in t) at out.old out.new result }
{
    let used = entries::text(out, at, b"bad\n");
    Turned {
        table: t,
        stopped: true,
        used,
    }
}

fn cleared(t: Table) -> Table
    ensures { list_in result ≡ [] }
{
    Table { count: 0, ..t }
}

// Plays what a line asks.
fn play_asked(t: Table, asked: Asked, out: &mut [u8], at: usize) -> Turned
    requires { at + widest ≤ length out.old }
    ensures { Plays (Some asked) (list_in t) at out.old out.new result }
{
    match asked {
        Asked::Add(w) => Turned {
            table: added(t, w),
            stopped: false,
            used: at,
        },
        Asked::Next(m) => play_next(t, m, out, at),
        Asked::Roll(d) => play_roll(t, d, out, at),
        Asked::Clear => Turned {
            table: cleared(t),
            stopped: false,
            used: at,
        },
    }
}

// Plays a line.
fn play(t: Table, l: Option<Asked>, out: &mut [u8], at: usize) -> Turned
    requires { at + widest ≤ length out.old }
    ensures { Plays l (list_in t) at out.old out.new result }
{
    match l {
        Some(asked) => play_asked(t, asked, out, at),
        None => play_malformed(t, out, at),
    }
}

// ---- bytes are taken

// What the first bytes of a line's buffer mean.
fn meaning(line: &[u8], len: usize) -> Option<Asked>
    requires { length line.now ≤ 40 }
    ensures { result ≡ line_of (take len line.now) }
{
    entries::read_line(&line[..len.min(line.len())])
}

// At the end of a line it is played, and the next one has no bytes yet.
fn end_line(p: Playing, l: Option<Asked>, out: &mut [u8], at: usize) -> Step
    requires { at + widest ≤ length out.old }
    ensures { Ends l (standing p).list at out.old out.new result }
{
    let turned = play(p.table, l, out, at);
    let playing = Playing {
        len: 0,
        stopped: turned.stopped,
        table: turned.table,
        ..p
    };
    Step {
        playing,
        used: turned.used,
    }
}

// A byte within a line.
fn longer(p: Playing, b: u8) -> Playing
    requires { p.len < 40 }
    ensures { standing result ≡ within (standing p) b }
{
    let mut line = p.line;
    line[p.len] = b;
    Playing {
        line,
        len: p.len + 1,
        stopped: false,
        ..p
    }
}

// One byte more of a run that has not stopped.
fn take_byte(p: Playing, b: u8, out: &mut [u8], at: usize) -> Step
    requires stopped_value { p.stopped ≡ false }
    requires widest_in_bounds { at + widest ≤ length out.old }
    ensures { TakesByte (standing p) b at out.old out.new result }
{
    if b == b'\n' {
        let line = p.line;
        let l = meaning(&line, p.len);
        return end_line(p, l, out, at);
    }
    if p.len < LONGEST {
        let playing = longer(p, b);
        return Step { playing, used: at };
    }
    end_line(p, None, out, at)
}

// A run before its first byte.
pub fn opened() -> Playing
    ensures { standing result ≡ start }
{
    let blank = Window {
        first: Date::FIRST,
        last: Date::FIRST,
        start: 0,
        end: 0,
    };
    let places = [blank; 33];
    let table = Table { places, count: 0 };
    Playing {
        line: [0; 40],
        len: 0,
        stopped: false,
        table,
    }
}

// Takes the bytes of a piece and prints what they give at the start of the output. It stops before the end of the piece after "bad", or
// where the output may have no room for the next line: call it again then with the rest of the piece.
pub fn feed(playing: Playing, piece: &[u8], out: &mut [u8]) -> Progress
    ensures { Feeds (standing playing) piece.now out.old out.new result }
{
    let mut p = playing;
    let mut at: usize = 0;
    let mut used: usize = 0;
    // Kept: no plainer as a for, since the run stops for three reasons and has to say how many bytes it took.
    while (at < piece.len()) & (WIDEST <= out.len() - used) & !p.stopped {
        let s = take_byte(p, piece[at], out, used);
        p = s.playing;
        used = s.used;
        at += 1;
    }
    Progress {
        playing: p,
        taken: at,
        used,
    }
}

// The end of the input: a line without its line feed is malformed.
pub fn finish(playing: Playing, out: &mut [u8; 4]) -> usize
    ensures out_after { out.new ≡ splice 0 (end_prints (standing playing)) out.old }
    ensures value { result ≡ length (end_prints (standing playing)) }
    ensures upper_bound { result ≤ length out.new }
{
    if playing.stopped {
        return 0;
    }
    if playing.len == 0 {
        return 0;
    }
    numbers::put_bytes(out, 0, b"bad\n");
    4
}
