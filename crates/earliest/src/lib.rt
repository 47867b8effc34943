// The wait that Fire sends next: each function is one definition of the crate end, specs/Fire.antt. The numbers first..last of
// each source are gone through once, by rising source and number, so that ties go to the lower source and the lower number. They are helpers
// of the crates above and no calls of the product: what they ask for in their `requires` the call has seen to.
#![tactic(auto)]

ghost use Rattle.std.specs.Prelude.{◌≡◌};
ghost use Rattle.message.specs.Limit.{host_limit};
ghost use Rattle.end.specs.Records.{width};
ghost use Rattle.end.specs.Ready.{SpanIn};
ghost use Rattle.end.specs.Fire.{before, earlier, due_at, offered, earliest_name, earliest};
ghost use Rattle.state.specs.Settled.{Settled};

use end::{EXPRESS, Earliest, End, REPLY, REQUEST, Slot, Source, Wait};
use message::{CueNumber, Host, Name};

// A wait comes before another if it is due earlier, or at the same time and has the lower rank.
fn is_before(w: Wait, v: Wait) -> bool
    ensures { result ≡ before w v }
{
    (w.due, w.rank) < (v.due, v.rank)
}

// The earlier of the earliest so far and a wait.
fn earlier_of(best: Earliest, w: Wait) -> Earliest
    ensures { result ≡ earlier best w }
{
    match best {
        Some(v) if !is_before(w, v) => best,
        _ => Some(w),
    }
}

// A wait joins the comparison once it is due.
fn if_due(name: Name, clock: u64, rank: u8, due: u64, best: Earliest) -> Earliest
    ensures { result ≡ due_at name clock rank due best }
{
    if due <= clock {
        earlier_of(best, Wait { due, rank, name })
    } else {
        best
    }
}

// What a record has waiting: its request, beside it perhaps an express wait, or the reply of a held cue.
fn offer(name: Name, clock: u64, slot: Slot, best: Earliest) -> Earliest
    ensures { result ≡ offered name clock slot best }
{
    match slot {
        Slot::Empty | Slot::Held(None) => best,
        Slot::Held(Some((due, _))) => if_due(name, clock, REPLY, due, best),
        Slot::Waiting(q, None) => if_due(name, clock, REQUEST, q.due, best),
        Slot::Waiting(q, Some(due)) => {
            let soon = if_due(name, clock, EXPRESS, due, best);
            if_due(name, clock, REQUEST, q.due, soon)
        }
    }
}

// The earliest wait of one source.
fn earliest_name(h: Host, clock: u64, s: &Source, best: Earliest) -> Earliest
    requires { SpanIn s.now.span }
    ensures { result ≡ earliest_name h clock s.now best (width s.now.span) }
{
    let from = state::start_of(s.span);
    let mut out = best;
    for i in 0..state::width_of(s.span) {
        let n = from + i;
        let name = Name {
            source: h,
            number: CueNumber(n as u16),
        };
        out = offer(name, clock, s.names[state::place(n)].slot, out);
    }
    out
}

// The earliest wait of an end.
pub fn earliest_wait(e: End) -> Earliest
    requires { Settled e }
    ensures { result ≡ earliest e host_limit }
{
    let mut first = None;
    for h in 0..8u8 {
        first = earliest_name(Host(h), e.clock, &e.sources[usize::from(h)], first);
    }
    first
}
