// Question 3: whether a state is sound, as a test of any state value whatever. Its promise is `sound_of` of the crate end,
// specs/Sound.antt; each function here is one definition of that file. The state is gone through once.
#![tactic(auto)]

ghost use Rattle.std.specs.Prelude.{◌≡◌, ◌&&◌, ◌<◌, length, eqb};
ghost use Rattle.numbers.specs.Bits.{bit};
ghost use Rattle.message.specs.Limit.{host_limit, number_limit};
ghost use Rattle.message.specs.Cue.{cue_in};
ghost use Rattle.end.specs.State.{places};
ghost use Rattle.end.specs.Sound.{all_of, request_tests, reply_tests, held_tests, express_sound, inside_sound, outside_sound, record_sound, names_sound};
ghost use Rattle.end.specs.Sound.{origin_sound, attempt_sound, lowest, attempts_sound};
ghost use Rattle.end.specs.Sound.{span_tests, pair_tests, distance_sound, heard_tests, non_member_tests, source_sound, sources_sound, sound_of};

use end::{
    Attempt, End, Express, Heard, Hosts, KEPT, NUMBERS, Origin, Pair, Record, Reply, Request, Slot,
    Source, Span, TIME_LIMIT,
};
use message::{Host, TICKS_LIMIT};

fn request_sound(q: Request) -> bool
    ensures { result ≡ all_of (request_tests q) }
{
    1 <= q.round && q.round <= 16 && q.due < TIME_LIMIT && q.quiet < TIME_LIMIT
}

// Whose record is tested: of the end of host `me`, in the source of another host or of its own, with that source's kept pair, first and last.
#[derive(Clone, Copy)]
struct Owner {
    me: Host,
    source: Host,
    pair: Pair,
    span: Span,
}

impl Owner {
    fn reply_sound(self, reply: Reply) -> bool
        ensures { result ≡ all_of (reply_tests self.me self.source reply) }
    {
        reply.is_none_or(|(due, requester)| {
            due < TIME_LIMIT && requester.0 < 8 && requester != self.me && requester != self.source
        })
    }

    fn held_sound(self, r: Record, reply: Reply) -> bool
        ensures { result ≡ all_of (held_tests self.me self.source r reply) }
    {
        cue_sound(r.cue) && self.reply_sound(reply) && r.hush < TIME_LIMIT
    }

    // What stands inside first..last: a cue, or a request for another's.
    fn inside_sound(self, r: Record) -> bool
        ensures { result ≡ inside_sound self.me self.source self.pair r r.slot }
    {
        match r.slot {
            Slot::Empty => false,
            Slot::Held(reply) => self.held_sound(r, reply),
            Slot::Waiting(q, x) => {
                self.source != self.me
                    && request_sound(q)
                    && r.hush < TIME_LIMIT
                    && express_sound(self.pair, x)
            }
        }
    }

    // What stands in the place of the number n, which may be above every cue number.
    fn record_sound(self, n: u64, r: Record) -> bool
        ensures { result ≡ record_sound self.me self.source self.pair self.span n r }
    {
        if state::is_within(self.span, n) {
            self.inside_sound(r)
        } else {
            outside_sound(r)
        }
    }

    // What stands in each of the 64 places: they are those of the 64 numbers from first on.
    fn names_sound(self, names: [Record; 64]) -> bool
        ensures value { result ≡ names_sound self.me self.source self.pair self.span names places }
        ensures names_len { length names ≡ places }
    {
        let from = state::start_of(self.span);
        let mut ok = true;
        for i in 0..KEPT {
            let n = from + i;
            ok &= self.record_sound(n, names[state::place(n)]);
        }
        ok
    }
}

// The cue of a held name; an array has its length, which the definition asks of its list.
fn cue_sound(cue: [u8; 24]) -> bool
    ensures { result ≡ (eqb (length cue) 24 && cue_in cue) }
{
    message::cue_in(&cue)
}

// An express wait stands only with a kept pair.
fn express_sound(pair: Pair, x: Express) -> bool
    ensures { result ≡ express_sound pair x }
{
    x.is_none_or(|due| due < TIME_LIMIT && pair.is_some())
}

// What stands outside first..last: nothing.
fn outside_sound(r: Record) -> bool
    ensures { result ≡ outside_sound r r.slot }
{
    matches!(r.slot, Slot::Empty) && r.hush == 0
}

fn span_sound(own: bool, next: u32, missed: u32, span: Span) -> bool
    ensures { result ≡ all_of (span_tests own next missed span) }
{
    match span {
        None => missed == 0,
        Some((first, last)) => {
            let low = u64::from(first.0);
            let high = u64::from(last.0);
            low <= high
                && high < u64::from(NUMBERS)
                && (!own || high + 1 == u64::from(next))
                && high <= low + (KEPT - 1)
                && u64::from(missed) <= low
        }
    }
}

// A kept pair's sender is another.
fn pair_sound(me: Host, pair: Pair) -> bool
    ensures { result ≡ all_of (pair_tests me pair) }
{
    pair.is_none_or(|(requester, sender, n)| {
        requester.0 < 8 && sender.0 < 8 && sender != me && u32::from(n.0) < NUMBERS
    })
}

fn distance_sound(own: bool, d: u64) -> bool
    ensures { result ≡ distance_sound own d }
{
    if own { d == 0 } else { 1 <= d && d <= 1000 }
}

fn heard_sound(own: bool, clock: u64, heard: Heard) -> bool
    ensures { result ≡ all_of (heard_tests own clock heard) }
{
    heard.is_none_or(|(stamp, when, _)| !own && stamp < TICKS_LIMIT && when <= clock)
}

// A first original stands exactly beside another's first, and is at most that.
fn origin_sound(own: bool, span: Span, origin: Origin) -> bool
    ensures { result ≡ origin_sound own span origin }
{
    match (span, origin) {
        (None, None) => true,
        (None, Some(_)) => false,
        (Some(_), None) => own,
        (Some((first, _)), Some(n)) => !own && n.0 <= first.0,
    }
}

// Whether a host was tried, of any host value: the set has no more than eight.
fn is_tried(tried: Hosts, h: Host) -> bool
    ensures { result ≡ bit tried h.0 }
{
    h.0 < 8 && numbers::bits::has_host(tried, h.0)
}

// The marks of a number that may be fetched, or of one that may not.
fn attempt_sound(me: Host, may: bool, a: Attempt) -> bool
    ensures { result ≡ attempt_sound me may a }
{
    if may {
        !is_tried(a.tried, me) && (!a.late || a.tried != 0)
    } else {
        a.tried == 0 && !a.late
    }
}

// The first of the 64 numbers below the first original, or 0.
fn lowest_of(origin: Origin) -> u64
    ensures value { result ≡ lowest origin }
    ensures upper_bound { result < number_limit }
{
    origin.map_or(0, |first| u64::from(first.0).saturating_sub(KEPT))
}

// What stands in each of the 64 places of the marks: they are those of the 64 numbers from the lowest on.
fn attempts_sound(me: Host, origin: Origin, attempts: [Attempt; 64]) -> bool
    ensures value { result ≡ attempts_sound me origin attempts places }
    ensures attempts_len { length attempts ≡ places }
{
    let from = lowest_of(origin);
    let mut ok = true;
    for i in 0..KEPT {
        let n = from + i;
        let may = state::fetchable(origin, n as u32);
        ok &= attempt_sound(me, may, attempts[state::place(n)]);
    }
    ok
}

fn non_member_sound(own: bool, s: Source) -> bool
    ensures { result ≡ all_of (non_member_tests own s) }
{
    s.span.is_none() && s.heard.is_none() && (own || s.distance == 40) && s.pair.is_none()
}

// One source, for the end of host me with this next number and clock.
fn source_sound(me: Host, next: u32, clock: u64, member: bool, h: Host, s: Source) -> bool
    ensures { result ≡ source_sound me next clock member h s }
{
    let own = h.0 == me.0;
    let owner = Owner {
        me,
        source: h,
        pair: s.pair,
        span: s.span,
    };
    span_sound(own, next, s.missed, s.span)
        & distance_sound(own, s.distance)
        & heard_sound(own, clock, s.heard)
        & (member | non_member_sound(own, s))
        & owner.names_sound(s.names)
        & pair_sound(me, s.pair)
        & origin_sound(own, s.span, s.origin)
        & attempts_sound(me, s.origin, s.attempts)
}

// Each of the eight sources. They are read from an array of their own: an end of which parts are read by constant places is taken
// apart by the compiler, and then each copy of it is eight.
fn sources_sound(e: End) -> bool
    ensures { result ≡ sources_sound e host_limit }
{
    let member = state::is_member(e.status);
    let me = e.host;
    let next = e.next;
    let clock = e.clock;
    let sources = e.sources;
    let mut ok = true;
    for h in 0..8u8 {
        ok &= source_sound(me, next, clock, member, Host(h), sources[h as usize]);
    }
    ok
}

// Whether a state is sound, of any state value.
pub fn sound(e: End) -> bool
    ensures { result ≡ sound_of e }
{
    (e.host.0 < 8)
        & state::params_small(e.params)
        & (e.clock < TICKS_LIMIT)
        & (e.next <= NUMBERS)
        & sources_sound(e)
        & state::delay_in(e.params)
}
