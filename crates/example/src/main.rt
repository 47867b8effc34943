// How a host program calls the end: two controllers become members, a cue goes from one to the other, a third one joins late and fetches it,
// a foyer display follows the sender, and each other event comes once.
// A call takes an end by value and gives back the end for the next call. Only that one may be used again.
#![tactic(auto)]

use display::Display;
use display_window::Lost;
use end::{Answer, Draw, End, Params, Stepped};
use message::{CueNumber, Host, Name, Verdict};
use std::io;

// The draws of a call. A controller takes 64 new random numbers of 16 bits for each call; here they are 0, so that the output is always
// the same.
fn draws() -> [Draw; 64] {
    [0; 64]
}

fn print(rt: &impl Print, text: &[u8]) -> io::Result<()> {
    rt.write_all(text)
}

// Prints what a call answered, and gives the end that it left.
fn said(rt: &impl Print, call: &[u8], s: Stepped) -> io::Result<End> {
    print(rt, call)?;
    match s.answer {
        Answer::Refused(_) => print(rt, b": refused\n")?,
        Answer::Out(_) => print(rt, b": out\n")?,
        Answer::Got(_) => print(rt, b": got\n")?,
        Answer::Done => print(rt, b": done\n")?,
        Answer::Ignored => print(rt, b": ignored\n")?,
        Answer::Nothing => print(rt, b": nothing\n")?,
        Answer::Clash(_) => print(rt, b": clash\n")?,
        Answer::Late(_) => print(rt, b": late\n")?,
        Answer::Exhausted => print(rt, b": exhausted\n")?,
    }
    Ok(s.end)
}

fn said_open(rt: &impl Print, verdict: Verdict) -> io::Result<()> {
    match verdict {
        Verdict::Accepted => print(rt, b"open: accepted\n")?,
        _ => print(rt, b"open: refused\n")?,
    }
    Ok(())
}

fn params() -> Params {
    Params {
        c1: 9,
        c2: 8,
        c3: 4,
        d1: 4,
        d2: 4,
        d3: 8,
        express: 0,
    }
}

// Opens the end of a host and makes it a member at clock 0. Where the opening is refused the end is a crashed one, which ignores all.
fn member(rt: &impl Print, host: Host) -> io::Result<End> {
    let mut out = [0u8; 128];
    let opened = link::open(host, params());
    said_open(rt, opened.verdict)?;
    let end = said(rt, b"join", link::join(opened.end, 0, &draws(), &mut out))?;
    said(rt, b"joined", link::joined(end, 0, &draws(), &mut out))
}

// The first 24 output bytes: the cue of an answer Got or Late.
fn cue_in(out: &[u8; 128]) -> [u8; 24] {
    let mut cue = [0u8; 24];
    cue.copy_from_slice(&out[..24]);
    cue
}

fn print_focus(rt: &impl Print, cue: [u8; 24]) -> io::Result<()> {
    let fields = message::fields(&cue);
    let mut text = [b' '; 8];
    let len = decimal::put_i16(&mut text, 0, fields.focus);
    print(rt, b"focus ")?;
    if let Some(number) = text.get(..len) {
        print(rt, number)?;
    }
    print(rt, b"\n")
}

// An end takes the first `len` bytes that came over the network, and prints the focus of a cue that it handed out.
fn hear(rt: &impl Print, end: End, clock: u64, came: &[u8], len: usize) -> io::Result<End> {
    let Some(bytes) = came.get(..len) else {
        return Ok(end);
    };
    let mut out = [0u8; 128];
    let s = link::arrival(end, clock, &draws(), bytes, &mut out);
    let end = said(rt, b"arrival", s)?;
    if let Answer::Got(_) | Answer::Late(_) = s.answer {
        print_focus(rt, cue_in(&out))?;
    }
    Ok(end)
}

// What a call put out goes to another end, as the network would bring it.
fn carry(rt: &impl Print, answer: Answer, out: &[u8], end: End, clock: u64) -> io::Result<End> {
    match answer {
        Answer::Out(len) => hear(rt, end, clock, out, len),
        _ => Ok(end),
    }
}

// At each tick: fires until nothing goes out. At one clock at most 1024 messages do.
fn fire_all(rt: &impl Print, end: End, clock: u64) -> io::Result<End> {
    let mut end = end;
    for _ in 0..1024 {
        let mut out = [0u8; 128];
        let s = link::fire(end, clock, &draws(), &mut out);
        end = said(rt, b"fire", s)?;
        let Answer::Out(_) = s.answer else {
            break;
        };
        // here the first bytes of `out`, as many as Out says, go to the network
    }
    Ok(end)
}

// The end of a controller that was switched off: opened, with the clock and the next own number that it had stored. It is the end
// that Leave and Left would have left at that clock.
fn restarted(host: Host, clock: u64, next: u32) -> End {
    let opened = link::open(host, params());
    let mut end = opened.end;
    end.clock = clock;
    end.next = next;
    end
}

// A controller that joined late, and the one that it fetches from.
#[derive(Clone, Copy)]
struct Both {
    late: End,
    holder: End,
}

// The holder takes the first `len` bytes, which ask for a cue, and what it answers goes back to the one that asked.
fn answered(rt: &impl Print, both: Both, clock: u64, came: &[u8], len: usize) -> io::Result<Both> {
    let Some(bytes) = came.get(..len) else {
        return Ok(both);
    };
    let mut out = [0u8; 128];
    let s = link::arrival(both.holder, clock, &draws(), bytes, &mut out);
    let holder = said(rt, b"arrival", s)?;
    let late = carry(rt, s.answer, &out, both.late, clock)?;
    Ok(Both { late, holder })
}

// Fetches a cue that went out before the controller joined. Each call tries the nearest host that was not tried yet; once the cue has
// come it is Ignored.
fn fetched(rt: &impl Print, both: Both, clock: u64, name: Name) -> io::Result<Both> {
    let mut out = [0u8; 128];
    let s = link::fetch(both.late, clock, &draws(), name, &mut out);
    let late = said(rt, b"fetch", s)?;
    let both = Both { late, ..both };
    match s.answer {
        Answer::Out(len) => answered(rt, both, clock, &out, len),
        _ => Ok(both),
    }
}

// A third controller joins when the sender's first cue has gone out already. It gets the next one, hears which sources the sender
// reports, and then fetches the cue before. Gives the sender's end.
fn joins_late(rt: &impl Print, sender: End) -> io::Result<End> {
    let late = member(rt, Host(2))?;
    let mut out = [0u8; 128];
    let cue = message::cue_with(3, 0, 0, 0, 500);
    let s = link::send(sender, 24, &draws(), cue, &mut out);
    let sender = said(rt, b"send", s)?;
    let late = carry(rt, s.answer, &out, late, 24)?;
    let s = link::report(sender, 25, &draws(), &mut out);
    let holder = said(rt, b"report", s)?;
    let late = carry(rt, s.answer, &out, late, 25)?;

    let first = Name {
        source: Host(0),
        number: CueNumber(0),
    };
    let both = fetched(rt, Both { late, holder }, 26, first)?;
    let both = fetched(rt, both, 27, first)?;
    Ok(both.holder)
}

// ---- a foyer display

// Opens a display that follows a sender.
fn screen_of(rt: &impl Print, own: Host, sender: Host) -> io::Result<Display> {
    let opened = display::open(own, sender);
    said_open(rt, opened.verdict)?;
    Ok(opened.display)
}

// Cues that will never be handed out: those of the set, bit i for number `lost.trail` + i, and those of a span above them.
fn said_lost(rt: &impl Print, lost: Lost) -> io::Result<()> {
    if lost.set != 0 {
        print(rt, b"lost: of the set\n")?;
    }
    if lost.above.is_some() {
        print(rt, b"lost: of the span\n")?;
    }
    Ok(())
}

// A display takes the first `len` bytes that came over the network, and shows the focus of a cue that it handed out.
fn watch(
    rt: &impl Print,
    screen: Display,
    clock: u64,
    came: &[u8],
    len: usize,
) -> io::Result<Display> {
    let Some(bytes) = came.get(..len) else {
        return Ok(screen);
    };
    let mut out = [0u8; 128];
    let s = display::hear(screen, clock, bytes, &mut out);
    match s.answer {
        Answer::Got(_) => {
            print(rt, b"display got: ")?;
            print_focus(rt, cue_in(&out))?;
        }
        Answer::Done => print(rt, b"display: done\n")?,
        _ => {}
    }
    said_lost(rt, s.lost)?;
    Ok(s.display)
}

fn carry_to(
    rt: &impl Print,
    answer: Answer,
    out: &[u8],
    screen: Display,
    clock: u64,
) -> io::Result<Display> {
    match answer {
        Answer::Out(len) => watch(rt, screen, clock, out, len),
        _ => Ok(screen),
    }
}

// At a pace of the display's own: asks for the lowest number that it lacks.
fn ask(rt: &impl Print, screen: Display, clock: u64) -> io::Result<Display> {
    let mut out = [0u8; 128];
    let s = display::step(screen, clock, &mut out);
    match s.answer {
        // here the first bytes of `out`, as many as Out says, go to the network
        Answer::Out(_) => print(rt, b"display asks\n")?,
        Answer::Nothing => print(rt, b"display lacks nothing\n")?,
        _ => print(rt, b"display: refused\n")?,
    }
    Ok(s.display)
}

// A display of host 3 that follows host 0 and hears its first cue.
fn follows(rt: &impl Print, answer: Answer, out: &[u8]) -> io::Result<Display> {
    let screen = screen_of(rt, Host(3), Host(0))?;
    let screen = carry_to(rt, answer, out, screen, 12)?;
    ask(rt, screen, 20)
}

// The sender tells displays which of its cues can still be had, and the display asks for the one that it lacks.
fn announces(rt: &impl Print, sender: End, screen: Display) -> io::Result<End> {
    let mut out = [0u8; 128];
    let s = link::announce(sender, 28, &draws(), &mut out);
    let sender = said(rt, b"announce", s)?;
    let screen = carry_to(rt, s.answer, &out, screen, 28)?;
    ask(rt, screen, 29)?;
    Ok(sender)
}

fn main(rt: HostRuntime) -> io::Result<()> {
    let sender = member(&rt, Host(0))?;
    let listener = member(&rt, Host(1))?;
    let mut out = [0u8; 128];

    let cue = message::cue_with(-2, 0, 0, 0, 500);
    let s = link::send(sender, 10, &draws(), cue, &mut out);
    let answer = s.answer;
    let sender = said(&rt, b"send", s)?;
    let listener = carry(&rt, answer, &out, listener, 12)?;
    let listener = fire_all(&rt, listener, 20)?;
    let screen = follows(&rt, answer, &out)?;
    let s = link::report(listener, 20, &draws(), &mut out);
    let listener = said(&rt, b"report", s)?;
    let sender = carry(&rt, s.answer, &out, sender, 22)?;
    let sender = joins_late(&rt, sender)?;
    let sender = announces(&rt, sender, screen)?;

    let sender = said(&rt, b"leave", link::leave(sender, 30, &draws(), &mut out))?;
    let sender = said(&rt, b"left", link::left(sender, 40, &draws(), &mut out))?;
    let sender = restarted(Host(0), sender.clock, sender.next);
    said(&rt, b"join", link::join(sender, 50, &draws(), &mut out))?;
    said(&rt, b"crash", link::crash(listener, 50, &draws(), &mut out))?;
    Ok(())
}
