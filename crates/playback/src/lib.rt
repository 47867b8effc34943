// Plays a trace from standard input, and prints what docs/TRACES.md says. A line's calls are in the crate desk; here is what stands
// around them. It is a tool of tests: its contracts say no more than that it is safe.
#![tactic(auto)]

mod heading;
mod line;

use desk::{Desk, Mode};
use end::{End, Params};
use heading::Heading;
use intake::Lines;
use message::Host;
use std::io;

// A host's end, freshly opened.
fn fresh(host: u8) -> End {
    let params = Params {
        c1: 9,
        c2: 8,
        c3: 4,
        d1: 4,
        d2: 4,
        d3: 8,
        express: 0,
    };
    link::open(Host(host), params).end
}

// The ends at the start of a trace: the last two places are for copies.
fn opened() -> [End; 10] {
    let mut ends = [fresh(0); 10];
    for host in 1..8u8 {
        ends[host as usize] = fresh(host);
    }
    ends
}

// A trace in play.
#[derive(Drop)]
pub(crate) struct Player {
    desk: Desk,
    ends: [End; 10],
    heading: Heading,
}

impl Player {
    // What is printed at the end of a trace: of a record nothing.
    fn last(&mut self) {
        if self.desk.mode != Mode::Record {
            self.heading.close(&mut self.desk.text);
            let c = self.desk.counts;
            let text = &mut self.desk.text;
            write!(text, "{} lines, {} calls, ", c.lines, c.calls);
            writeln!(text, "{} right, {} wrong", c.right, c.wrong);
        }
    }
}

// Plays standard input in a mode. An error is one of reading or writing.
pub fn run(rt: &(impl Input + Print), mode: Mode) -> io::Result<()> {
    let mut lines = Lines::new(rt.reader());
    let mut player = Player {
        desk: Desk::new(mode),
        ends: opened(),
        heading: Heading::none(),
    };
    for _ in 0..u64::MAX {
        let Some(line) = lines.next()? else {
            player.last();
            break;
        };
        if !player.play(rt, line)? {
            break;
        }
    }
    player.desk.text.flush(rt)
}
