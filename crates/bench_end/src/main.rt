// The benchmark's half in Rattle: one kind of event, many times over the public calls. The first argument is the kind's letter, the
// second how often, in the form of a digit d for 10^d times. The twin's half, twin/src/bin/pace.rs, makes the same calls; bench/run
// times both. Outputs are cleared before each call. The last clock is printed, so that no call can be left out.
#![tactic(auto)]

use end::{Draw, End, Params};
use message::{CueNumber, Host, Name};
use std::env::Env;
use std::io;

static DRAWS: [Draw; 64] = [0; 64];

fn opened(host: u8) -> End {
    let params = Params {
        c1: 9,
        c2: 8,
        c3: 4,
        d1: 4,
        d2: 4,
        d3: 8,
        express: 0,
    };
    link::open(Host(host), params).end
}

fn member(host: u8) -> End {
    let mut out = [0u8; 128];
    let joining = link::join(opened(host), 0, &DRAWS, &mut out).end;
    link::joined(joining, 0, &DRAWS, &mut out).end
}

fn cycle(e: End, clock: u64) -> End {
    let mut out = [0u8; 128];
    let joining = link::join(e, clock, &DRAWS, &mut out).end;
    let member = link::joined(joining, clock, &DRAWS, &mut out).end;
    let leaving = link::leave(member, clock, &DRAWS, &mut out).end;
    link::left(leaving, clock, &DRAWS, &mut out).end
}

// m: join, joined, leave and left, in turn.
fn moves(n: u64) -> u64 {
    let mut e = opened(0);
    for i in 0..n {
        e = cycle(e, i);
    }
    e.clock
}

fn sent(e: End, clock: u64) -> End {
    let mut out = [0u8; 128];
    link::send(e, clock, &DRAWS, [0; 24], &mut out).end
}

// s: a member sends 64 cues; then another does.
fn sends(n: u64) -> u64 {
    let mut e = member(0);
    for i in 0..n {
        if i % 64 == 0 {
            e = member(0);
        }
        e = sent(e, i);
    }
    e.clock
}

fn heard(e: End, clock: u64, bytes: &[u8]) -> End {
    let mut out = [0u8; 128];
    link::arrival(e, clock, &DRAWS, bytes, &mut out).end
}

// A message of host 0, sent at clock 0: a session message that reports nothing, in the first 12 bytes, or its cue of this number, all
// zeros.
fn message(session: bool, number: u8) -> [u8; 40] {
    let mut bytes = [0u8; 40];
    if session {
        bytes[0] = message::SESS;
    } else {
        bytes[0] = message::DATA;
        bytes[8] = 1;
        bytes[11] = number;
        bytes[13] = 1;
    }
    bytes
}

// g: a member gets 64 cues in their order; then another does. h: a member hears session messages. One loop for both, so that the call
// stands at one place, as in a controller's loop.
fn hears(n: u64, session: bool) -> u64 {
    let len: usize = if session { 12 } else { 40 };
    let mut e = member(1);
    for i in 0..n {
        if !session & (i % 64 == 0) {
            e = member(1);
        }
        let bytes = message(session, (i % 64) as u8);
        e = heard(e, i, &bytes[..len]);
    }
    e.clock
}

// f: Fire with nothing due. x: with 63 draws, refused as 2 before the state is looked at.
fn fires(n: u64, draws: &[Draw]) -> u64 {
    let mut e = member(0);
    for i in 0..n {
        let mut out = [0u8; 128];
        e = link::fire(e, i, draws, &mut out).end;
    }
    e.clock
}

// r: Report.
fn reports(n: u64) -> u64 {
    let mut e = member(0);
    for i in 0..n {
        let mut out = [0u8; 128];
        e = link::report(e, i, &DRAWS, &mut out).end;
    }
    e.clock
}

// a: Announce, of a member that has sent a cue.
fn announces(n: u64) -> u64 {
    let mut e = sent(member(0), 0);
    for i in 0..n {
        let mut out = [0u8; 128];
        e = link::announce(e, i, &DRAWS, &mut out).end;
    }
    e.clock
}

// t: Fetch of the number below the first original, with nobody to ask.
fn fetches(n: u64) -> u64 {
    let first = message(false, 5);
    let mut e = heard(member(1), 0, &first);
    for i in 0..n {
        let mut out = [0u8; 128];
        let name = Name {
            source: Host(0),
            number: CueNumber(4),
        };
        e = link::fetch(e, i, &DRAWS, name, &mut out).end;
    }
    e.clock
}

// c: Crash, of the same member each time.
fn crashes(n: u64) -> u64 {
    let e = member(0);
    let mut last: u64 = 0;
    for i in 0..n {
        let mut out = [0u8; 128];
        last = link::crash(e, i, &DRAWS, &mut out).end.clock;
    }
    last
}

// 10^d, for a digit's byte.
fn times(d: u8) -> u64 {
    match d {
        b'1' => 10,
        b'2' => 100,
        b'3' => 1000,
        b'4' => 10000,
        b'5' => 100000,
        b'6' => 1000000,
        _ => 1,
    }
}

fn run(kind: u8, n: u64) -> u64 {
    match kind {
        b'm' => moves(n),
        b's' => sends(n),
        b'g' => hears(n, false),
        b'h' => hears(n, true),
        b'f' => fires(n, &DRAWS),
        b'r' => reports(n),
        b'a' => announces(n),
        b't' => fetches(n),
        b'c' => crashes(n),
        _ => fires(n, &DRAWS[..63]),
    }
}

// The first byte of an argument, or 0 where there is none.
fn letter(rt: &impl Env, i: usize) -> u8 {
    let mut word = [0u8; 2];
    let _ = rt.arg(i, &mut word);
    word[0]
}

fn main(rt: HostRuntime) -> io::Result<()> {
    let kind = letter(&rt, 1);
    let power = letter(&rt, 2);
    let last = run(kind, times(power));
    print!(rt; "{last}")
}
