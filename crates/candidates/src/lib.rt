// What is chosen in fetching what came before: whether a name may be fetched, which host is asked for it, and what is marked then; whether a
// kind 22 is answered, and whether a kind 23 is handed out. Each is the definition of the crate end, specs/Fetch.antt, or its part that lies in
// one source (specs/Candidates.antt). They are helpers of the crates above and no calls of the product: what they ask for in their `requires` the
// call has seen to.
#![tactic(auto)]

ghost use Rattle.std.specs.Prelude.{◌≡◌, cond, ◌<◌};
ghost use Rattle.message.specs.Limit.{host_limit};
ghost use Rattle.message.specs.Entry.{as_host};
ghost use Rattle.message.specs.Question.{host_in};
ghost use Rattle.end.specs.Fetch.{tries, may_fetch, reported_by, nearer};
ghost use Rattle.candidates.specs.Candidates.{may_on, offered, nearest_of, answers, hands};

use end::{Attempt, End, Heard, Hosts, Nearest, Source};
use message::{CueNumber, Host, Name, NameEntry};

// ---- whether a name may be fetched

// The source of a name, to look it up by: host 0 where it is no host.
pub fn source_of(h: Host) -> Host
    ensures value { result ≡ cond (host_in h) h (as_host 0) }
    ensures result_lt_host_limit { result.0 < host_limit }
{
    if h.0 < 8 { h } else { Host(0) }
}

// By what the end has of the name's source.
pub fn may_on(name: Name, s: Source) -> bool
    ensures { result ≡ may_on name s }
{
    let below = state::fetchable(s.origin, name.number.0 as u32);
    name.source.0 < 8 && below && !state::attempt_at(s, name.number).late
}

pub fn may_fetch(e: End, name: Name) -> bool
    ensures { result ≡ may_fetch e name }
{
    let from = source_of(name.source);
    may_on(name, e.sources[from.0 as usize])
}

// ---- whom to ask

// Whether the latest session message of a host reported a source.
fn reported_by(heard: Heard, source: Host) -> bool
    requires { source.0 < host_limit }
    ensures { result ≡ reported_by heard source }
{
    heard.is_some_and(|(_, _, reported)| numbers::bits::has_host(reported, source.0))
}

// The nearer of the nearest so far and a host d away; of two that are as near the one met first stays.
fn nearer(best: Nearest, h: Host, d: u64) -> Nearest
    ensures { result ≡ nearer best h d }
{
    match best {
        Some((_, least)) if least <= d => best,
        _ => Some((h, d)),
    }
}

// A host joins the comparison if it is another's, reported the source and was not tried.
fn offer(me: Host, source: Host, tried: Hosts, h: Host, s: Source, best: Nearest) -> Nearest
    requires { (source.0 < host_limit) × (h.0 < host_limit) }
    ensures { result ≡ offered me source tried h s best }
{
    let other = h.0 != me.0;
    let untried = !numbers::bits::has_host(tried, h.0);
    if other && reported_by(s.heard, source) && untried {
        nearer(best, h, s.distance)
    } else {
        best
    }
}

// The nearest host that reported a source and was not tried.
pub fn nearest(me: Host, sources: [Source; 8], source: Host, tried: Hosts) -> Nearest
    requires { source.0 < host_limit }
    ensures { result ≡ nearest_of me sources source tried host_limit }
{
    let mut best = None;
    for (h, s) in sources.iter().enumerate() {
        best = offer(me, source, tried, Host(h as u8), *s, best);
    }
    best
}

// The source once a host was tried for a number.
pub fn try_host(s: Source, n: CueNumber, h: Host) -> Source
    requires { h.0 < host_limit }
    ensures { result ≡ tries n.0 h s }
{
    let was = state::attempt_at(s, n);
    let tried = numbers::bits::with_host(was.tried, h.0);
    state::with_attempt(s, n, Attempt { tried, ..was })
}

// ---- the kinds 22 and 23

// Whether the end, `me`, is the host that was asked, and holds the cue.
pub fn may_answer(me: Host, x: NameEntry, s: Source) -> bool
    ensures { result ≡ answers me x s }
{
    let known = records::record_at(s, x.name.number);
    x.host.0 == me.0 && state::is_held(known.slot)
}

// Whether the end, `me`, fetched the cue, tried this sender for it, and has not handed it out.
pub fn may_hand(me: Host, x: NameEntry, sender: Host, s: Source) -> bool
    requires { sender.0 < host_limit }
    ensures { result ≡ hands me x sender s }
{
    let was = state::attempt_at(s, x.name.number);
    x.host.0 == me.0 && numbers::bits::has_host(was.tried, sender.0) && !was.late
}
