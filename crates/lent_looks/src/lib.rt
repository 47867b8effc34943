// What a host reads off the lent bytes of an end without an event, each by its definition in specs/Looks.antt: when to fire, the clock, the
// status, the next own number, and of a source first, last, missed, origin and distance. Where there is nothing to tell, or the bytes are no
// state, a look gives NONE. All but `due` read only the bytes of what they tell, after the test of the form.
#![tactic(auto)]

ghost use Rattle.std.specs.Prelude.{◌≡◌, ◌&&◌, ◌+◌, ◌*◌, ◌<◌, ltb};
ghost use Rattle.message.specs.Limit.{host_limit};
ghost use Rattle.lent_end.specs.State.{is_state};
ghost use Rattle.lent_source.specs.Source.{source_width};
ghost use Rattle.lent_looks.specs.Looks.{look, host_in, clock_in, status_in, next_in, due_in, look_at, first_of, last_of, origin_of, first_in, last_in, missed_in, origin_in, distance_in};

use end::{Origin, Span};
use lent_answer::NONE;
use message::HOST_LIMIT;

// ---- of the end

pub fn host(state: &[u8]) -> u64
    ensures { result ≡ look host_in state.now }
{
    let ok = lent_end::is_state(state);
    if ok {
        let host = lent_fields::read1(state, 2);
        return host as u64;
    }
    NONE
}

pub fn clock(state: &[u8]) -> u64
    ensures { result ≡ look clock_in state.now }
{
    let ok = lent_end::is_state(state);
    if ok {
        return lent_fields::read8(state, 59);
    }
    NONE
}

pub fn status(state: &[u8]) -> u64
    ensures { result ≡ look status_in state.now }
{
    let ok = lent_end::is_state(state);
    if ok {
        let tag = lent_fields::read1(state, 67);
        return tag as u64;
    }
    NONE
}

pub fn next(state: &[u8]) -> u64
    ensures { result ≡ look next_in state.now }
{
    let ok = lent_end::is_state(state);
    if ok {
        let n = lent_fields::read4(state, 68);
        return n as u64;
    }
    NONE
}

// The least due time of all waits: it reads the whole end, since question 3 is asked.
pub fn due(state: &[u8]) -> u64
    ensures { result ≡ look due_in state.now }
{
    let ok = lent_end::is_state(state);
    if ok {
        let e = lent_end::get_end(state);
        return link::next_due(e);
    }
    NONE
}

// ---- of a host or source

// Whether the bytes are a state, and the host one of the eight.
fn is_there(state: &[u8], h: u64) -> bool
    ensures { result ≡ (ltb h host_limit && is_state state.now) }
{
    if h < HOST_LIMIT as u64 {
        return lent_end::is_state(state);
    }
    false
}

// Where a source's bytes begin.
fn place(h: u64) -> usize
    requires { h < host_limit }
    ensures { result ≡ 72 + h * source_width }
{
    72 + h as usize * lent_source::SOURCE
}

fn first_of(span: Span) -> u64
    ensures { result ≡ first_of span }
{
    match span {
        None => NONE,
        Some((first, _)) => first.0 as u64,
    }
}

fn last_of(span: Span) -> u64
    ensures { result ≡ last_of span }
{
    match span {
        None => NONE,
        Some((_, last)) => last.0 as u64,
    }
}

fn origin_of(origin: Origin) -> u64
    ensures { result ≡ origin_of origin }
{
    match origin {
        None => NONE,
        Some(n) => n.0 as u64,
    }
}

pub fn first(state: &[u8], source: u64) -> u64
    ensures { result ≡ look_at first_in source state.now }
{
    let ok = is_there(state, source);
    if ok {
        let at = place(source);
        let span = lent_source::get_span(state, at);
        return first_of(span);
    }
    NONE
}

pub fn last(state: &[u8], source: u64) -> u64
    ensures { result ≡ look_at last_in source state.now }
{
    let ok = is_there(state, source);
    if ok {
        let at = place(source);
        let span = lent_source::get_span(state, at);
        return last_of(span);
    }
    NONE
}

pub fn missed(state: &[u8], source: u64) -> u64
    ensures { result ≡ look_at missed_in source state.now }
{
    let ok = is_there(state, source);
    if ok {
        let at = place(source);
        let n = lent_fields::read4(state, at + 5);
        return n as u64;
    }
    NONE
}

pub fn origin(state: &[u8], source: u64) -> u64
    ensures { result ≡ look_at origin_in source state.now }
{
    let ok = is_there(state, source);
    if ok {
        let at = place(source);
        let x = lent_source::get_origin(state, at + 40);
        return origin_of(x);
    }
    NONE
}

pub fn distance(state: &[u8], h: u64) -> u64
    ensures { result ≡ look_at distance_in h state.now }
{
    let ok = is_there(state, h);
    if ok {
        let at = place(h);
        return lent_fields::read8(state, at + 14);
    }
    NONE
}
