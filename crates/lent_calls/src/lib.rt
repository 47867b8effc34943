// The calls on an end whose state is lent as bytes: an event, opening, reopening, and why an event would be ignored. A call is questions 1 and 2,
// the test of the bytes' form, which is refused as 3, and then the call of the crate link on the end that they hold; what that leaves is written
// back unless it was refused. The definitions are in specs/: Arguments (plain numbers), Call (events), Open, Reason. The crate cuelink exports these
// functions to C.
#![tactic(auto)]

ghost use Rattle.std.specs.Prelude.{◌≡◌, true, ◌≤◌, length};
ghost use Rattle.end.specs.Event.{Send, Else, Fetch, action_of};
ghost use Rattle.end.specs.Why.{reason_number};
ghost use Rattle.lent_end.specs.State.{end_from, is_state, state_width};
ghost use Rattle.lent_calls.specs.Arguments.{name_of, cue_of, params_of, move_of, event_of};
ghost use Rattle.lent_calls.specs.Call.{asked, Called, CallIs};
ghost use Rattle.lent_calls.specs.Open.{OpensAs, open_of, reopen_of};
ghost use Rattle.lent_calls.specs.Reason.{why_number, reason_of};

use end::{Answer, Draw, Event, Move, Opened, Params, Reason, Why};
use lent_answer::{NO_EVENT, REASON};
use message::{CueNumber, Host, Name, ROOM_NEEDED};

// How many draws a call takes.
const DRAWS: usize = 64;

// ---- what a host hands over as plain numbers

fn name_of(source: u64, number: u64) -> Name
    ensures { result ≡ name_of source number }
{
    let n = lent_answer::narrow16(number);
    let host = lent_answer::host_of(source);
    if number <= 65535 {
        Name {
            source: host,
            number: CueNumber(n),
        }
    } else {
        Name {
            source: Host(255),
            number: CueNumber(n),
        }
    }
}

fn cue_of(b: &[u8]) -> [u8; 24]
    ensures { result ≡ cue_of b.now }
{
    let mut cue = [255u8; 24];
    if b.len() == 24 {
        numbers::put_bytes(&mut cue, 0, b);
    }
    cue
}

fn params_of(p: &[u64]) -> Params
    ensures { result ≡ params_of p.now }
{
    if p.len() == 7 {
        Params {
            c1: p[0],
            c2: p[1],
            c3: p[2],
            d1: p[3],
            d2: p[4],
            d3: p[5],
            express: p[6],
        }
    } else {
        Params {
            c1: 33,
            c2: 33,
            c3: 33,
            d1: 33,
            d2: 33,
            d3: 33,
            express: 0,
        }
    }
}

// ---- events

// An event on bytes that are a state.
fn on_state(
    state: &mut [u8],
    clock: u64,
    draws: &[Draw],
    what: Event,
    cue: [u8; 24],
    bytes: &[u8],
    out: &mut [u8],
) -> Answer
    requires state_len { length state.old ≡ state_width }
    requires state_value { is_state state.old ≡ true }
    ensures { Called (end_from state.old) (action_of what cue bytes.now) clock draws.now out.old out.new state.old state.new result }
{
    let e = lent_end::get_end(state);
    let s = link::event(e, clock, draws, what, cue, bytes, out);
    let answer = s.answer;
    let left = s.end;
    if lent_answer::is_refused(answer) {
        return answer;
    }
    lent_end::put_end(state, left);
    answer
}

// A whole call. It has three callers, so that the compiler keeps it apart from them, and they ask questions 1 and 2 before it: so a call that these
// refuse takes no time and next to no stack.
fn whole(
    state: &mut [u8],
    clock: u64,
    draws: &[Draw],
    what: Event,
    cue: [u8; 24],
    bytes: &[u8],
    out: &mut [u8],
) -> u64
    ensures { CallIs (action_of what cue bytes.now) clock draws.now out.old out.new state.old state.new result }
{
    if out.len() < ROOM_NEEDED {
        return 1;
    }
    if draws.len() != DRAWS {
        return 2;
    }
    let ok = lent_end::is_state(state);
    if ok {
        let answer = on_state(state, clock, draws, what, cue, bytes, out);
        return lent_answer::number_of(answer);
    }
    3
}

// Questions 1 and 2.
fn asked(room: usize, draws: usize) -> u64
    ensures { result ≡ asked room draws }
{
    if room < ROOM_NEEDED {
        return 1;
    }
    if draws != DRAWS {
        return 2;
    }
    0
}

// Any event.
pub fn event(
    state: &mut [u8],
    clock: u64,
    draws: &[Draw],
    what: Event,
    cue: [u8; 24],
    bytes: &[u8],
    out: &mut [u8],
) -> u64
    ensures { CallIs (action_of what cue bytes.now) clock draws.now out.old out.new state.old state.new result }
{
    let q = asked(out.len(), draws.len());
    if q == 0 {
        return whole(state, clock, draws, what, cue, bytes, out);
    }
    q
}

// Send, with a cue of any length.
pub fn send(state: &mut [u8], clock: u64, draws: &[Draw], cue: &[u8], out: &mut [u8]) -> u64
    ensures { CallIs (Send (cue_of cue.now)) clock draws.now out.old out.new state.old state.new result }
{
    let q = asked(out.len(), draws.len());
    if q == 0 {
        let c = cue_of(cue);
        return whole(state, clock, draws, Event::Send, c, &[0; 0], out);
    }
    q
}

// Fetch, of any two numbers.
pub fn fetch(
    state: &mut [u8],
    clock: u64,
    draws: &[Draw],
    source: u64,
    number: u64,
    out: &mut [u8],
) -> u64
    ensures { CallIs (Else (Fetch (name_of source number))) clock draws.now out.old out.new state.old state.new result }
{
    let q = asked(out.len(), draws.len());
    if q == 0 {
        let name = name_of(source, number);
        let what = Event::Fetch(name);
        return whole(state, clock, draws, what, [0; 24], &[0; 0], out);
    }
    q
}

// ---- opening and reopening

// What an opening gives, put into the bytes unless it was refused.
fn put_opened(o: Opened, state: &mut [u8]) -> u64
    ensures { OpensAs o state.old state.new result }
{
    if state.len() != lent_end::STATE {
        return 3;
    }
    let verdict = o.verdict;
    let end = o.end;
    let refusal = message::number_of(verdict) as u64;
    if refusal == 0 {
        lent_end::put_end(state, end);
    }
    refusal
}

// Opens an end: questions 12, 13 and 14.
pub fn open(host: u64, params: &[u64], state: &mut [u8]) -> u64
    ensures { OpensAs (open_of host params.now) state.old state.new result }
{
    let me = lent_answer::host_of(host);
    let p = params_of(params);
    let o = link::open(me, p);
    put_opened(o, state)
}

// Opens an end again after a restart, with the clock and the next own number that were stored: questions 12, 13, 14, 4 and 7.
pub fn reopen(host: u64, params: &[u64], clock: u64, next: u64, state: &mut [u8]) -> u64
    ensures { OpensAs (reopen_of host params.now clock next) state.old state.new result }
{
    let me = lent_answer::host_of(host);
    let p = params_of(params);
    let o = link::reopen(me, p, clock, next);
    put_opened(o, state)
}

// ---- why an event would be ignored

// The move of a number: from 4 on crash, of which the caller has asked for at most 4.
fn move_of(n: u64) -> Move
    ensures { result ≡ move_of n }
{
    match n {
        0 => Move::Join,
        1 => Move::Joined,
        2 => Move::Leave,
        3 => Move::Left,
        _ => Move::Crash,
    }
}

// The event of a number, with the name that a fetch has. From 10 on it is announce; the call has asked for at most 10.
fn event_of(n: u64, name: Name) -> Event
    ensures { result ≡ event_of n name }
{
    if n < 5 {
        return Event::Moves(move_of(n));
    }
    match n {
        5 => Event::Send,
        6 => Event::Arrival,
        7 => Event::Fire,
        8 => Event::Report,
        9 => Event::Fetch(name),
        _ => Event::Announce,
    }
}

fn reason_number(r: Reason) -> u64
    ensures { (result ≡ reason_number r) × (result ≤ 11) }
{
    match r {
        Reason::Crashed => 1,
        Reason::WrongStatus => 2,
        Reason::OwnMessage => 3,
        Reason::NotOpen => 4,
        Reason::BelowFirst => 5,
        Reason::OwnAboveLast => 6,
        Reason::AlreadyHeld => 7,
        Reason::ReplyWaiting => 8,
        Reason::ReplyQuiet => 9,
        Reason::RequestQuiet => 10,
        Reason::NoFetch => 11,
    }
}

fn why_number(w: Why) -> u64
    ensures { result ≡ why_number w }
{
    match w {
        Why::Refused(q) => q as u64,
        Why::Because(r) => lent_answer::of_kind(REASON, reason_number(r)),
        Why::NoReason => lent_answer::of_kind(REASON, 0),
    }
}

// Why an event would be ignored, or the number that would refuse it. Nothing is lent to write, and there are neither an output nor draws, so
// questions 1 and 2 are not asked.
pub fn reason(state: &[u8], clock: u64, what: u64, source: u64, number: u64, bytes: &[u8]) -> u64
    ensures { result ≡ reason_of clock what source number bytes.now state.now }
{
    if 10 < what {
        return lent_answer::of_kind(NO_EVENT, 0);
    }
    let ok = lent_end::is_state(state);
    if ok {
        let name = name_of(source, number);
        let ev = event_of(what, name);
        let cue = cue_of(bytes);
        let e = lent_end::get_end(state);
        let w = link::reason(e, clock, ev, cue, bytes);
        return why_number(w);
    }
    3
}
