// Whether two ends are the same in every field.
use crate::flat;
use end::{End, Record, Slot, Source};

fn slots(a: Slot, b: Slot) -> bool {
    match (a, b) {
        (Slot::Empty, Slot::Empty) => true,
        (Slot::Held(r), Slot::Held(q)) => r == q,
        (Slot::Waiting(r, x), Slot::Waiting(q, y)) => {
            flat::request(r) == flat::request(q) && x == y
        }
        _ => false,
    }
}

fn records(a: &Record, b: &Record) -> bool {
    slots(a.slot, b.slot) && a.cue == b.cue && a.hush == b.hush
}

fn heads(a: &Source, b: &Source) -> bool {
    a.span == b.span
        && a.missed == b.missed
        && a.pair == b.pair
        && a.distance == b.distance
        && a.heard == b.heard
        && a.origin == b.origin
}

fn sources(a: &Source, b: &Source) -> bool {
    let mut names = a.names.iter().zip(b.names.iter());
    let mut attempts = a.attempts.iter().zip(b.attempts.iter());
    heads(a, b)
        && names.all(|(r, q)| records(r, q))
        && attempts.all(|(m, n)| flat::attempt(*m) == flat::attempt(*n))
}

// All but the sources.
fn tops(a: &End, b: &End) -> bool {
    a.host == b.host
        && flat::params(a.params) == flat::params(b.params)
        && a.clock == b.clock
        && a.status == b.status
        && a.next == b.next
}

pub fn ends(a: &End, b: &End) -> bool {
    let mut all = a.sources.iter().zip(b.sources.iter());
    tops(a, b) && all.all(|(s, t)| sources(s, t))
}
