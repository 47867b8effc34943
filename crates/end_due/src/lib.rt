// The next due time of an end: the least of all its waits, or 2^64-1 where nothing waits. The numbers first..last of each source are gone
// through once, as Fire goes through them.
#![tactic(auto)]

ghost use Rattle.std.specs.Prelude.{◌≡◌};
ghost use Rattle.end.specs.Records.{width};
ghost use Rattle.end.specs.Ready.{SpanIn};
ghost use Rattle.state.specs.Settled.{Settled};
ghost use Rattle.end_due.specs.Due.{slot_due, names_due, next_due};

use end::{End, Slot, Source};

fn slot_due(slot: Slot, m: u64) -> u64
    ensures { result ≡ slot_due slot m }
{
    match slot {
        Slot::Empty | Slot::Held(None) => m,
        Slot::Waiting(q, None) => q.due.min(m),
        Slot::Waiting(q, Some(due)) => q.due.min(due.min(m)),
        Slot::Held(Some((due, _))) => due.min(m),
    }
}

fn names_due(s: &Source, m: u64) -> u64
    requires { SpanIn s.now.span }
    ensures { result ≡ names_due s.now m (width s.now.span) }
{
    let from = state::start_of(s.span);
    let mut out = m;
    for i in 0..state::width_of(s.span) {
        let at = state::place(from + i);
        out = slot_due(s.names[at].slot, out);
    }
    out
}

pub fn next_due(e: End) -> u64
    requires { Settled e }
    ensures { result ≡ next_due e }
{
    let mut out = u64::MAX;
    for s in e.sources.iter() {
        out = names_due(s, out);
    }
    out
}
