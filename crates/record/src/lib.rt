// A line of a run's record, read. The definitions are in specs/: Line.antt (what a line means) and Text.antt (what it is written as).
#![tactic(auto, unfolding(crate::specs::Line::move_word, crate::specs::Line::cue_word, crate::specs::Line::moved_in, crate::specs::Line::sent_in, crate::specs::Line::got_in))]

ghost use Rattle.std.specs.Prelude.{◌≡◌, ◌+◌, ◌*◌, ◌<◌};
ghost use Rattle.record.specs.Line.{move_word, is_hex, hex_value, cue_word, malformed, moved_of, sent_of, got_of, moved_in, sent_in, got_in, line_of};

use decimal::Number;
use end::Move;
use message::{CueNumber, Host, Name};
use script::{Words, same};

// What a line says; the cue of a Sent and of a Got stands beside it.
#[derive(Clone, Copy)]
pub enum Said {
    Malformed,
    Moved(Move, Host),
    Sent(Host, CueNumber),
    Got(Host, Name),
}

// A line of a run's record. Where it has no cue, the 24 bytes are zeros.
#[derive(Clone, Copy)]
pub struct Line {
    pub said: Said,
    pub cue: [u8; 24],
}

// Hosts and cue numbers are below these.
const HOSTS: u64 = 8;

const NUMBERS: u64 = 65536;

// ---- words

// A move by its word.
fn move_in(v: &[u8]) -> Option<Move>
    ensures { result ≡ move_word v.now }
{
    if same(v, b"join") {
        return Some(Move::Join);
    }
    if same(v, b"joined") {
        return Some(Move::Joined);
    }
    if same(v, b"leave") {
        return Some(Move::Leave);
    }
    if same(v, b"left") {
        return Some(Move::Left);
    }
    if same(v, b"crash") {
        return Some(Move::Crash);
    }
    None
}

fn is_hex(c: u8) -> bool
    ensures { result ≡ is_hex c }
{
    ((b'0' <= c) & (c <= b'9')) | ((b'A' <= c) & (c <= b'F'))
}

// What a hexadecimal digit stands for; 0 where it is none.
fn hex_value(c: u8) -> u8
    ensures value { result ≡ hex_value c }
    ensures upper_bound { result < 16 }
{
    if (b'0' <= c) & (c <= b'9') {
        return c - b'0';
    }
    if (b'A' <= c) & (c <= b'F') {
        return c - 55;
    }
    0
}

// The byte that two digits stand for.
fn pair(high: u8, low: u8) -> u8
    ensures { result ≡ hex_value high * 16 + hex_value low }
{
    hex_value(high) * 16 + hex_value(low)
}

// The cue in range that a word of 48 digits stands for.
fn cue_in(w: &[u8]) -> Option<[u8; 24]>
    ensures { result ≡ cue_word w.now }
{
    if w.len() != 48 {
        return None;
    }
    let mut cue = [0u8; 24];
    let mut ok = true;
    for i in 0..24 {
        let high = w[i * 2];
        let low = w[i * 2 + 1];
        ok = ok & (is_hex(high) & is_hex(low));
        cue[i] = pair(high, low);
    }
    let fits = message::cue_in(&cue);
    if ok & fits { Some(cue) } else { None }
}

// ---- lines by what their words mean

fn no_line() -> Line
    ensures { result ≡ malformed }
{
    Line {
        said: Said::Malformed,
        cue: [0; 24],
    }
}

fn moved_of(m: Option<Move>, h: Option<u64>) -> Line
    ensures { result ≡ moved_of m h }
{
    let Some(to) = m else {
        return no_line();
    };
    let Some(host) = h else {
        return no_line();
    };
    if host < HOSTS {
        return Line {
            said: Said::Moved(to, Host(host as u8)),
            cue: [0; 24],
        };
    }
    no_line()
}

fn sent_of(h: Option<u64>, n: Option<u64>, c: Option<[u8; 24]>) -> Line
    ensures { result ≡ sent_of h n c }
{
    let Some(host) = h else {
        return no_line();
    };
    let Some(number) = n else {
        return no_line();
    };
    let Some(cue) = c else {
        return no_line();
    };
    if (host < HOSTS) & (number < NUMBERS) {
        return Line {
            said: Said::Sent(Host(host as u8), CueNumber(number as u16)),
            cue,
        };
    }
    no_line()
}

fn got_of(h: Option<u64>, s: Option<u64>, n: Option<u64>, c: Option<[u8; 24]>) -> Line
    ensures { result ≡ got_of h s n c }
{
    let Some(host) = h else {
        return no_line();
    };
    let Some(source) = s else {
        return no_line();
    };
    let Some(number) = n else {
        return no_line();
    };
    let Some(cue) = c else {
        return no_line();
    };
    if (host < HOSTS) & ((source < HOSTS) & (number < NUMBERS)) {
        let name = Name {
            source: Host(source as u8),
            number: CueNumber(number as u16),
        };
        return Line {
            said: Said::Got(Host(host as u8), name),
            cue,
        };
    }
    no_line()
}

// ---- lines by their words

fn moved_in(v: &[u8], h: &[u8]) -> Line
    ensures { result ≡ moved_in v.now h.now }
{
    moved_of(move_in(v), u64::from_word(h))
}

fn sent_in(v: &[u8], h: &[u8], n: &[u8], c: &[u8]) -> Line
    ensures { result ≡ sent_in v.now h.now n.now c.now }
{
    if same(v, b"send") {
        sent_of(u64::from_word(h), u64::from_word(n), cue_in(c))
    } else {
        no_line()
    }
}

fn got_in(v: &[u8], h: &[u8], s: &[u8], n: &[u8], c: &[u8]) -> Line
    ensures { result ≡ got_in v.now h.now s.now n.now c.now }
{
    if same(v, b"got") {
        got_of(
            u64::from_word(h),
            u64::from_word(s),
            u64::from_word(n),
            cue_in(c),
        )
    } else {
        no_line()
    }
}

// Reads a line, which is given without its line feed: of two words, of four, or of five.
pub fn read_line(line: &[u8]) -> Line
    ensures { result ≡ line_of line.now }
{
    let mut words = Words::of(line);
    let Some(v) = words.next() else {
        return no_line();
    };
    let Some(h) = words.next() else {
        return no_line();
    };
    let Some(x) = words.next() else {
        return moved_in(v, h);
    };
    let Some(n) = words.next() else {
        return no_line();
    };
    let Some(c) = words.next() else {
        return sent_in(v, h, x, n);
    };
    if words.next().is_some() {
        return no_line();
    }
    got_in(v, h, x, n, c)
}
