// The parts of an end that the steps read and change, each function one definition of the crate end, specs/State.antt and
// specs/Records.antt. They are helpers of the crates above and no calls of the product.
#![tactic(auto)]

ghost use Rattle.std.specs.Prelude.{◌≡◌, ◌+◌, ◌≤◌, ◌<◌};
ghost use Rattle.message.specs.Limit.{number_limit};
ghost use Rattle.end.specs.State.{no_attempt, moment_of, is_member, is_crashed};
ghost use Rattle.end.specs.State.{with_heard, with_distance, with_clock, with_status};
ghost use Rattle.end.specs.Records.{start, width, place, is_held, reply_in, with_reply, express_in, with_express};
ghost use Rattle.end.specs.Records.{within, is_below, is_above, fetchable, attempt_at, with_attempt};
ghost use Rattle.end.specs.Ready.{SpanIn};
ghost use Rattle.end.specs.Sound.{all_of, params_tests, delay_in};
ghost use Rattle.end.specs.declared.Answer.TheVariants.{Ignored};

use end::{
    Answer, Attempt, End, Express, Heard, KEPT, Moment, Origin, Params, Reply, Slot, Source, Span,
    Status,
};
use message::CueNumber;

// What a step changes: its answer, and the one source that it was given, as the step leaves it.
#[derive(Clone, Copy)]
pub struct Change {
    pub answer: Answer,
    pub source: Source,
}

pub fn is_member(status: Status) -> bool
    ensures { result ≡ is_member status }
{
    status == Status::Member
}

pub fn is_crashed(status: Status) -> bool
    ensures { result ≡ is_crashed status }
{
    status == Status::Crashed
}

pub fn is_held(slot: Slot) -> bool
    ensures { result ≡ is_held slot }
{
    matches!(slot, Slot::Held(_))
}

// The reply beside a held cue.
pub fn reply_in(slot: Slot) -> Reply
    ensures { result ≡ reply_in slot }
{
    match slot {
        Slot::Held(reply) => reply,
        _ => None,
    }
}

// The slot of a held cue with this reply; beside anything else there is none.
pub fn with_reply(reply: Reply, slot: Slot) -> Slot
    ensures { result ≡ with_reply reply slot }
{
    match slot {
        Slot::Held(_) => Slot::Held(reply),
        other => other,
    }
}

// The express wait beside a request.
pub fn express_in(slot: Slot) -> Express
    ensures { result ≡ express_in slot }
{
    match slot {
        Slot::Waiting(_, x) => x,
        _ => None,
    }
}

// The slot of a request with this express wait; beside anything else there is none.
pub fn with_express(x: Express, slot: Slot) -> Slot
    ensures { result ≡ with_express x slot }
{
    match slot {
        Slot::Waiting(q, _) => Slot::Waiting(q, x),
        other => other,
    }
}

// The first of the numbers first..last; 0 where there are none.
pub fn start_of(span: Span) -> u64
    ensures value { result ≡ start span }
    ensures upper_bound { result < number_limit }
{
    span.map_or(0, |(first, _)| u64::from(first.0))
}

// How many the numbers first..last are.
pub fn width_of(span: Span) -> u64
    requires { SpanIn span }
    ensures value { result ≡ width span }
    ensures result_bound { start span + result ≤ number_limit }
{
    match span {
        None => 0,
        Some((first, last)) => u64::from(last.0) + 1 - u64::from(first.0),
    }
}

// Where a number's record stands among a source's, and its draw among the draws.
pub fn place(n: u64) -> usize
    ensures { result ≡ place n }
{
    (n % KEPT) as usize
}

// ---- first and last

// The number is of 64 bits: that of a place may be above every cue number.
pub fn is_within(span: Span, n: u64) -> bool
    ensures { result ≡ within span n }
{
    span.is_some_and(|(first, last)| u64::from(first.0) <= n && n <= u64::from(last.0))
}

pub fn is_below(span: Span, n: CueNumber) -> bool
    ensures { result ≡ is_below span n.0 }
{
    span.is_some_and(|(first, _)| n.0 < first.0)
}

pub fn is_above(span: Span, n: CueNumber) -> bool
    ensures { result ≡ is_above span n.0 }
{
    span.is_some_and(|(_, last)| last.0 < n.0)
}

// ---- the marks of a number below a source's first original

// The number is of 32 bits: that of a place may be above every cue number.
pub fn fetchable(origin: Origin, n: u32) -> bool
    ensures { result ≡ fetchable origin n }
{
    origin.is_some_and(|first| n < u32::from(first.0) && u64::from(first.0) <= u64::from(n) + KEPT)
}

// Nobody tried, and nothing handed out.
pub fn no_attempt() -> Attempt
    ensures { result ≡ no_attempt }
{
    Attempt {
        tried: 0,
        late: false,
    }
}

// What was done to fetch a number of a source: nothing where it may not be fetched.
#[tactic(auto, unfolding(end::specs::Records::attempt_at))]
pub fn attempt_at(s: Source, n: CueNumber) -> Attempt
    ensures { result ≡ attempt_at s n.0 }
{
    if fetchable(s.origin, u32::from(n.0)) {
        s.attempts[place(u64::from(n.0))]
    } else {
        no_attempt()
    }
}

// The source with other marks of a number.
pub fn with_attempt(s: Source, n: CueNumber, a: Attempt) -> Source
    ensures { result ≡ with_attempt s n.0 a }
{
    let mut out = s;
    out.attempts[place(u64::from(n.0))] = a;
    out
}

// "Parameters are 0..32 quarters".
pub fn params_small(p: Params) -> bool
    ensures { result ≡ all_of (params_tests p) }
{
    [p.c1, p.c2, p.c3, p.d1, p.d2, p.d3]
        .iter()
        .all(|n| *n <= 32)
}

// E is 0..1000.
pub fn delay_in(p: Params) -> bool
    ensures { result ≡ delay_in p }
{
    p.express <= 1000
}

// The moment of a call on an end whose clock is the call's.
pub fn moment_of(e: End) -> Moment
    ensures { result ≡ moment_of e }
{
    Moment {
        me: e.host,
        params: e.params,
        clock: e.clock,
    }
}

// A host was heard, and the distance to it measured.
pub fn with_heard(s: Source, distance: u64, heard: Heard) -> Source
    ensures { result ≡ with_heard (with_distance s distance) heard }
{
    Source {
        distance,
        heard,
        ..s
    }
}

pub fn with_clock(e: End, clock: u64) -> End
    ensures { result ≡ with_clock e clock }
{
    End { clock, ..e }
}

pub fn with_status(e: End, status: Status) -> End
    ensures { result ≡ with_status e status }
{
    End { status, ..e }
}

// A step that leaves its source as it was.
pub fn unchanged(source: Source) -> Change
    ensures { result ≡ record { answer = Ignored; source = source } }
{
    Change {
        answer: Answer::Ignored,
        source,
    }
}
