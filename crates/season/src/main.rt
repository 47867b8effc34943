// A season of cues over the public calls. Host 0 sends a cue for each of its 65,536 numbers, and one more, which is refused; host 1, a member
// too, hears one message in a thousand, and in the end host 0's report. The rows on the way show the sender's next number and its own first
// and last; and beside them how many cues the reader got, and what it has of the sender: first, last, and how many numbers were retired
// without a cue. In each row these are the numbers below the reader's first that it did not get. Then the answers are counted.
#![tactic(auto)]

use end::{Answer, Draw, End, Params, Span, Stepped};
use message::Host;
use std::io;

// So many cues are sent, and the reader hears one message in so many.
const SENDS: u64 = 65536;

const HEARD: u64 = 1000;

// How often each answer came.
#[derive(Clone, Copy, Default)]
struct Counts {
    outs: u64,
    gots: u64,
    sevens: u64,
    others: u64,
}

#[derive(Clone, Copy)]
struct Season {
    sender: End,
    reader: End,
    counts: Counts,
}

static DRAWS: [Draw; 64] = [0; 64];

// One more, up to a number that no season comes to.
fn more(n: u64) -> u64 {
    if n < 1000000 { n + 1 } else { n }
}

impl Counts {
    fn add(&mut self, a: Answer) {
        match a {
            Answer::Out(_) => self.outs = more(self.outs),
            Answer::Got(_) => self.gots = more(self.gots),
            Answer::Refused(7) => self.sevens = more(self.sevens),
            _ => self.others = more(self.others),
        }
    }
}

// ---- the calls

fn member(host: Host) -> End {
    let params = Params {
        c1: 9,
        c2: 8,
        c3: 4,
        d1: 4,
        d2: 4,
        d3: 8,
        express: 0,
    };
    let mut out = [0u8; 128];
    let opened = link::open(host, params).end;
    let joining = link::join(opened, 0, &DRAWS, &mut out).end;
    link::joined(joining, 0, &DRAWS, &mut out).end
}

impl Season {
    fn new() -> Self {
        Season {
            sender: member(Host(0)),
            reader: member(Host(1)),
            counts: Counts::default(),
        }
    }

    // The reader takes what was put out.
    fn hear(&mut self, clock: u64, bytes: &[u8]) {
        let mut out = [0u8; 128];
        let stepped = link::arrival(self.reader, clock, &DRAWS, bytes, &mut out);
        self.reader = stepped.end;
        self.counts.add(stepped.answer);
    }

    // What a call of the sender gave: it is counted, and where the reader listens it hears what was put out.
    fn take(&mut self, stepped: Stepped, listens: bool, clock: u64, out: &[u8]) {
        self.sender = stepped.end;
        self.counts.add(stepped.answer);
        if let Answer::Out(len) = stepped.answer
            && let Some(bytes) = out.get(..len)
            && listens
        {
            self.hear(clock, bytes);
        }
    }

    // The cue of a number is sent, a tick after the last one.
    fn send(&mut self, number: u64) {
        let mut out = [0u8; 128];
        let stepped = link::send(self.sender, number, &DRAWS, [0; 24], &mut out);
        self.take(stepped, number % HEARD == 0, number, &out);
    }

    fn report(&mut self, clock: u64) {
        let mut out = [0u8; 128];
        let stepped = link::report(self.sender, clock, &DRAWS, &mut out);
        self.take(stepped, true, clock, &out);
    }
}

// ---- the rows

// First and last of a source.
fn span(rt: &impl Print, span: Span) -> io::Result<()> {
    match span {
        None => print!(rt; " closed       "),
        Some((first, last)) => print!(rt; "{:>7}{:>7}", first.0, last.0),
    }
}

fn row(rt: &impl Print, sends: u64, s: &Season) -> io::Result<()> {
    let own = &s.sender.sources[0];
    let of = &s.reader.sources[0];
    print!(rt; "{sends:>7}{:>7}", s.sender.next)?;
    span(rt, own.span)?;
    print!(rt; "{:>7}", s.counts.gots)?;
    span(rt, of.span)?;
    println!(rt; "{:>7}", of.missed)
}

// After which sends a row is printed: about the first retired number, about some of those that the reader hears, and at the end.
fn has_row(sends: u64) -> bool {
    matches!(
        sends,
        1 | 2 | 64 | 65 | 1000 | 1001 | 1002 | 2001 | 30001 | 65001 | 65535 | 65536
    )
}

fn totals(rt: &impl Print, c: &Counts) -> io::Result<()> {
    println!(rt; "{:>7} out", c.outs)?;
    println!(rt; "{:>7} got", c.gots)?;
    println!(rt; "{:>7} refused 7", c.sevens)?;
    println!(rt; "{:>7} other", c.others)
}

fn main(rt: HostRuntime) -> io::Result<()> {
    println!(&rt; "  sends   next  first   last    got  first   last missed")?;
    let mut season = Season::new();
    for number in 0..SENDS {
        season.send(number);
        if has_row(number + 1) {
            row(&rt, number + 1, &season)?;
        }
    }
    season.send(SENDS);
    println!(&rt; "and one send more: the answers")?;
    totals(&rt, &season.counts)?;
    println!(&rt; "after a report that the reader hears")?;
    season.report(SENDS);
    row(&rt, SENDS, &season)
}
