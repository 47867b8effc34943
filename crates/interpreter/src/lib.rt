// Plays a script that comes in pieces, from bytes to bytes. The definitions are in specs/: Interpreter.antt (where a script stands between
// two pieces, and what each prints) and Promise.antt. That the pieces together print what `prints_of` says of the whole script, however
// it is cut, is proofs/Pieces.antt.
#![tactic(auto)]

ghost use Rattle.std.specs.Prelude.{◌≡◌, true, false, cond, ◌+◌, ◌≤◌, length, take};
ghost use Rattle.numbers.specs.Splice.{splice};
ghost use Rattle.end.specs.Opening.{house_params, opening_of};
ghost use Rattle.script.specs.Line.{Play, Malformed, line_of};
ghost use Rattle.player.specs.House.{widest};
ghost use Rattle.interpreter.specs.Interpreter.{start, end_prints, house_in, standing};
ghost use Rattle.interpreter.specs.Promise.{PlaysLine, Turns, Feeds};

use end::{End, Params};
use lines::Fed;
use message::Host;
use script::Call;
use store::Store;

// The two ends, hosts 0 and 1, and the messages that they have put out. Where it explains, the reason is printed after "ignored".
#[derive(Clone, Copy)]
pub struct Pair {
    pub zero: End,
    pub one: End,
    pub store: Store,
    pub explains: bool,
}

// Where a script stands between two of its pieces: the line so far is the first `len` bytes of its buffer. After "bad" it has stopped.
#[derive(Clone, Copy)]
pub struct Playing {
    pub line: [u8; 34],
    pub len: usize,
    pub stopped: bool,
    pub pair: Pair,
}

// Where the script stands after a piece, how many bytes of the piece are taken, and how many of the output are used.
#[derive(Clone, Copy)]
pub struct Progress {
    pub playing: Playing,
    pub taken: usize,
    pub used: usize,
}

// What a line gives: the ends and messages after it, how many bytes the next line has so far, whether the script stops, and where the
// output ends.
#[derive(Clone, Copy)]
struct Turned {
    pair: Pair,
    len: usize,
    stopped: bool,
    used: usize,
}

// No line that is printed has more bytes.
const WIDEST: usize = 56;

// A host's end, freshly opened with the parameters of the house.
fn fresh(host: Host) -> End
    ensures { result ≡ (opening_of host house_params).end }
{
    let params = Params {
        c1: 9,
        c2: 8,
        c3: 4,
        d1: 4,
        d2: 4,
        d3: 8,
        express: 0,
    };
    let opened = link::open(host, params);
    opened.end
}

fn opened_as(explains: bool) -> Playing
    ensures { standing result ≡ start explains }
{
    let zero = fresh(Host(0));
    let one = fresh(Host(1));
    let pair = Pair {
        zero,
        one,
        store: Store::new(),
        explains,
    };
    Playing {
        line: [0; 34],
        len: 0,
        stopped: false,
        pair,
    }
}

// A script before its first byte, as the program house plays it.
pub fn opened() -> Playing
    ensures { standing result ≡ start false }
{
    opened_as(false)
}

// The same as the program why plays it: with the reason after "ignored".
pub fn opened_explaining() -> Playing
    ensures { standing result ≡ start true }
{
    opened_as(true)
}

// The first of two ends, if the test says so.
fn chosen(test: bool, first: End, second: End) -> End
    ensures { result ≡ cond test first second }
{
    if test { first } else { second }
}

// Plays a call on the end that it names.
fn play_call(pair: Pair, call: Call, out: &mut [u8], at: usize) -> Turned
    requires { at + widest ≤ length out.old }
    ensures { PlaysLine (Play call) (house_in pair) at out.old out.new result }
{
    let host = call.end;
    let verb = call.verb;
    let is_zero = host.0 == 0;
    let zero = pair.zero;
    let one = pair.one;
    let mut store = pair.store;
    let e = chosen(is_zero, zero, one);
    let explains = pair.explains;
    let played = player::play(explains, e, verb, call.clock, &mut store);
    let printed = played.printed;
    let end = played.end;
    let used = player::put_printed(out, at, host, call.clock, printed);
    let stopped = printed.is_none();
    let next = Pair {
        zero: chosen(is_zero, end, zero),
        one: chosen(is_zero, one, end),
        store,
        explains,
    };
    Turned {
        pair: next,
        len: 0,
        stopped,
        used,
    }
}

// Prints that a line is malformed: the script stops.
fn play_malformed(pair: Pair, out: &mut [u8], at: usize) -> Turned
    requires { at + widest ≤ length out.old }
    ensures { PlaysLine Malformed (house_in pair) at out.old out.new result }
{
    let used = player::put_printed(out, at, Host(0), 0, None);
    Turned {
        pair,
        len: 0,
        stopped: true,
        used,
    }
}

// Plays a line.
fn play(pair: Pair, meant: Option<Call>, out: &mut [u8], at: usize) -> Turned
    requires { at + widest ≤ length out.old }
    ensures { PlaysLine meant (house_in pair) at out.old out.new result }
{
    match meant {
        Some(call) => play_call(pair, call, out, at),
        None => play_malformed(pair, out, at),
    }
}

// What the first bytes of a line's buffer mean.
fn meaning(line: &[u8], len: usize) -> Option<Call>
    ensures { result ≡ line_of (take len line.now) }
{
    script::read_line(&line[..len.min(line.len())])
}

// A line by what became of it: it goes on, or is played.
fn turn(pair: Pair, fed: Fed, line: &[u8; 34], out: &mut [u8], at: usize) -> Turned
    requires { at + widest ≤ length out.old }
    ensures { Turns fed line.now (house_in pair) at out.old out.new result }
{
    match fed {
        Fed::More(n) => Turned {
            pair,
            len: n,
            stopped: false,
            used: at,
        },
        Fed::Whole(n) => play(pair, meaning(line, n), out, at),
        Fed::TooLong => play(pair, None, out, at),
    }
}

// Takes the bytes of a piece and prints what they give at the start of the output. It stops before the end of the piece after "bad", or
// where the output may have no room for the next line: call it again then with the rest of the piece.
pub fn feed(playing: Playing, piece: &[u8], out: &mut [u8]) -> Progress
    ensures { Feeds (standing playing) piece.now out.old out.new result }
{
    let mut pair = playing.pair;
    let mut line = playing.line;
    let mut len = playing.len;
    let mut stopped = playing.stopped;
    let mut at: usize = 0;
    let mut used: usize = 0;
    while (at < piece.len()) & (WIDEST <= out.len() - used) & !stopped {
        let cut = lines::take_line(piece, at, &mut line, len);
        at = cut.at;
        let fed = cut.fed;
        let turned = turn(pair, fed, &line, out, used);
        pair = turned.pair;
        len = turned.len;
        stopped = turned.stopped;
        used = turned.used;
    }
    let left = Playing {
        line,
        len,
        stopped,
        pair,
    };
    Progress {
        playing: left,
        taken: at,
        used,
    }
}

// The end of the input: a line without its line feed is malformed.
pub fn finish(playing: Playing, out: &mut [u8; 4]) -> usize
    ensures out_after { out.new ≡ splice 0 (end_prints (standing playing)) out.old }
    ensures value { result ≡ length (end_prints (standing playing)) }
    ensures upper_bound { result ≤ length out.new }
{
    if playing.stopped {
        return 0;
    }
    if playing.len == 0 {
        return 0;
    }
    numbers::put_bytes(out, 0, b"bad\n");
    4
}
