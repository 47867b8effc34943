// A source's records by cue number: each function is one definition of the crate end, specs/Records.antt and specs/Names.antt. They
// are helpers of the crates above and no calls of the product: each asks in its `requires` for what soundness and the questions give.
// Where a number's record and draw stand is said by `state::place` alone. What happens when last rises is the crate rises.
#![tactic(auto)]

ghost use Rattle.std.specs.Prelude.{◌≡◌, cond, ◌+◌, ◌≤◌, ◌<◌, length};
ghost use Rattle.message.specs.Limit.{ticks_limit};
ghost use Rattle.end.specs.State.{blank_record, with_origin};
ghost use Rattle.end.specs.Records.{record_at, with_record};
ghost use Rattle.end.specs.Round.{draw_at, request_at, reply_due};
ghost use Rattle.end.specs.Names.{set_round, hold, set_reply, quiet_reply, drop_express, latest, keep_pair, is_requester, open_at};
ghost use Rattle.end.specs.Parts.{Unset, Soon, From};
ghost use Rattle.end.specs.Ready.{Ranges, Numbered};

use end::{Draw, Express, Moment, Pair, Record, Request, Slot, Source};
use message::{CueNumber, Host};

// ---- the record of a number

pub fn blank_record() -> Record
    ensures { result ≡ blank_record }
{
    Record {
        slot: Slot::Empty,
        cue: [0; 24],
        hush: 0,
    }
}

// What the source has of a number: nothing outside first..last.
#[tactic(auto, unfolding(end::specs::Records::record_at))]
pub fn record_at(s: Source, n: CueNumber) -> Record
    ensures { result ≡ record_at s n.0 }
{
    if state::is_within(s.span, u64::from(n.0)) {
        s.names[state::place(u64::from(n.0))]
    } else {
        blank_record()
    }
}

// The source with another record of a number.
pub fn with_record(s: Source, n: CueNumber, r: Record) -> Source
    ensures { result ≡ with_record s n.0 r }
{
    let mut out = s;
    out.names[state::place(u64::from(n.0))] = r;
    out
}

pub fn draw_at(draws: &[Draw], n: CueNumber) -> Draw
    requires { Numbered n.0 (length draws.now) }
    ensures { result ≡ draw_at draws.now n.0 }
{
    draws[state::place(u64::from(n.0))]
}

// ---- what happens to one name of a source

// Round k of a number, with its draw and the distance d to the source.
pub fn request_for(t: Moment, draws: &[Draw], d: u64, n: CueNumber, k: u8) -> Request
    requires ranges { Ranges t d }
    requires numbered { Numbered n.0 (length draws.now) }
    requires le_k { (1 ≤ k) × (k ≤ 16) }
    ensures { result ≡ request_at t draws.now d n.0 k }
{
    timing::request_at(t, draw_at(draws, n), d, k)
}

// When a reply under a number is due, with its draw and the distance d to the requester.
fn reply_time(t: Moment, draws: &[Draw], d: u64, n: CueNumber) -> u64
    requires ranges { Ranges t d }
    requires numbered { Numbered n.0 (length draws.now) }
    ensures { result ≡ reply_due t draws.now d n.0 }
{
    timing::reply_due(t, draw_at(draws, n), d)
}

// Sets round k of a number, with the distance to the source. An express wait beside the request stays.
pub fn set_round(s: Source, t: Moment, draws: &[Draw], n: CueNumber, k: u8) -> Source
    requires ranges { Ranges t s.distance }
    requires numbered { Numbered n.0 (length draws.now) }
    requires le_k { (1 ≤ k) × (k ≤ 16) }
    ensures { result ≡ set_round t draws.now n.0 k s }
{
    let q = request_for(t, draws, s.distance, n, k);
    let r = record_at(s, n);
    let slot = Slot::Waiting(q, state::express_in(r.slot));
    with_record(s, n, Record { slot, ..r })
}

// Holds a cue under a number.
pub fn hold_cue(s: Source, n: CueNumber, cue: [u8; 24]) -> Source
    ensures { result ≡ hold n.0 cue s }
{
    let r = record_at(s, n);
    let slot = Slot::Held(None);
    with_record(s, n, Record { slot, cue, ..r })
}

// Sets a reply to the requester, who is d away.
pub fn set_reply(
    s: Source,
    t: Moment,
    draws: &[Draw],
    n: CueNumber,
    d: u64,
    requester: Host,
) -> Source
    requires ranges { Ranges t d }
    requires numbered { Numbered n.0 (length draws.now) }
    ensures { result ≡ set_reply t draws.now n.0 d requester s }
{
    let due = reply_time(t, draws, d, n);
    let r = record_at(s, n);
    let slot = state::with_reply(Some((due, requester)), r.slot);
    with_record(s, n, Record { slot, ..r })
}

// Drops a number's reply and sets its reply-quiet time, for a requester who is d away.
pub fn quiet_reply(s: Source, t: Moment, n: CueNumber, d: u64) -> Source
    requires { Ranges t d }
    ensures { result ≡ quiet_reply t n.0 d s }
{
    let hush = timing::quiet_after_reply(t, d);
    let r = record_at(s, n);
    let slot = state::with_reply(None, r.slot);
    with_record(s, n, Record { slot, hush, ..r })
}

// Drops a number's express wait.
pub fn drop_express(s: Source, n: CueNumber) -> Source
    ensures { result ≡ drop_express n.0 s }
{
    let r = record_at(s, n);
    let slot = state::with_express(None, r.slot);
    with_record(s, n, Record { slot, ..r })
}

// ---- the kept pair

// The pair after a REPL of a number: the kept one stays where it named a higher number.
fn latest(pair: Pair, requester: Host, sender: Host, n: CueNumber) -> Pair
    ensures { result ≡ latest pair requester sender n }
{
    match pair {
        Some((_, _, kept)) if n.0 < kept.0 => pair,
        _ => Some((requester, sender, n)),
    }
}

// Keeps the requester and the sender of a REPL of a number.
pub fn keep_pair(s: Source, requester: Host, sender: Host, n: CueNumber) -> Source
    ensures { result ≡ keep_pair requester sender n s }
{
    let pair = latest(s.pair, requester, sender, n);
    Source { pair, ..s }
}

fn is_requester(me: Host, pair: Pair) -> bool
    ensures { result ≡ is_requester me pair }
{
    pair.is_some_and(|(requester, _, _)| requester == me)
}

// The express wait beside round 1 by a gap before a DATA: the kept requester sets one.
pub fn express_by_data(t: Moment, pair: Pair) -> Express
    requires { (t.clock < ticks_limit) × (t.params.express ≤ 1000) }
    ensures { result ≡ cond (is_requester t.me pair) (Soon (t.clock + t.params.express)) Unset }
{
    is_requester(t.me, pair).then_some(t.clock + t.params.express)
}

// ---- the first original

// First, last and the first original are n.
pub fn open_at(s: Source, n: CueNumber) -> Source
    ensures { result ≡ with_origin (open_at n.0 s) (From n) }
{
    Source {
        span: Some((n, n)),
        origin: Some(n),
        ..s
    }
}
