// The digest of an end: each number is joined by an exclusive or and one step of xorshift64. docs/TRACES.md gives the order.
use crate::flat;
use crate::text::Numbers;
use end::{End, Record, Slot, Source};

// What the digest is at first.
const START: u64 = 0x243F6A8885A308D3;

// One step of xorshift64: shifts and exclusive ors alone.
fn shifted(x: u64) -> u64 {
    let a = x ^ (x << 13);
    let b = a ^ (a >> 7);
    b ^ (b << 17)
}

// A digest so far.
#[derive(Clone, Copy)]
struct Digest(u64);

impl Digest {
    fn mix(&mut self, v: u64) {
        self.0 = shifted(self.0 ^ v);
    }

    fn numbers<const N: usize>(&mut self, all: Numbers<N>) {
        for v in all.0 {
            self.mix(v);
        }
    }

    // 0, or 1 and what is there.
    fn perhaps<const N: usize>(&mut self, all: Option<Numbers<N>>) {
        self.mix(u64::from(all.is_some()));
        if let Some(all) = all {
            self.numbers(all);
        }
    }

    fn slot(&mut self, s: Slot) {
        match s {
            Slot::Empty => self.mix(0),
            Slot::Held(_) => self.mix(1),
            Slot::Waiting(q, express) => {
                self.mix(2);
                self.numbers(flat::request(q));
                self.perhaps(express.map(|due| Numbers([due])));
            }
        }
    }

    fn record(&mut self, r: &Record) {
        self.slot(r.slot);
        for eight in r.cue.chunks(8) {
            self.mix(eight.iter().fold(0, |v, b| v << 8 | u64::from(*b)));
        }
        self.perhaps(match r.slot {
            Slot::Held(reply) => flat::reply(reply),
            _ => None,
        });
        self.mix(r.hush);
    }

    fn source(&mut self, s: &Source) {
        self.perhaps(flat::span(s));
        self.mix(u64::from(s.missed));
        self.perhaps(flat::pair(s));
        self.mix(s.distance);
        self.perhaps(flat::heard(s));
        self.perhaps(flat::origin(s));
        for r in s.names.iter() {
            self.record(r);
        }
        for a in s.attempts.iter() {
            self.numbers(flat::attempt(*a));
        }
    }
}

// The digest of the whole state.
pub fn end(e: &End) -> u64 {
    let mut d = Digest(START);
    d.mix(u64::from(e.host.0));
    d.numbers(flat::params(e.params));
    d.mix(e.clock);
    d.mix(e.status as u64);
    d.mix(u64::from(e.next));
    for s in e.sources.iter() {
        d.source(s);
    }
    d.0
}
