// The desk on which a trace is played: what surrounds the calls, what is counted, and the text to print. Then the calls themselves: events,
// openings, the reader, the writer and the cue test, and what an end is asked. docs/TRACES.md says what each line means. These are
// tools of tests: their contracts say no more than that they are safe and end.
#![tactic(auto)]

mod answer;
mod ask;
mod codec;
mod draws;
mod event;
mod kept;
mod output;
mod why;

pub use answer::Told;
use draws::Draws;
use kept::Kept;
use output::Output;
use picture::text::{Hex, Text};
use trace::Cursor;

// What is printed.
#[derive(Clone, Copy, Debug, PartialEq, Eq)]
pub enum Mode {
    Plain,
    Rows,
    Words,
    Record,
}

// How many lines were read, calls made, and expectations met or not.
#[derive(Clone, Copy, Default)]
pub struct Counts {
    pub lines: u64,
    pub calls: u64,
    pub right: u64,
    pub wrong: u64,
}

#[derive(Drop)]
pub struct Desk {
    pub mode: Mode,
    pub counts: Counts,
    pub told: Told,
    pub text: Text,
    draws: Draws,
    out: Output,
    kept: Kept,
}

impl Desk {
    pub fn new(mode: Mode) -> Self {
        Desk {
            mode,
            counts: Counts::default(),
            told: Told::default(),
            text: Text::new(),
            draws: Draws::new(),
            out: Output::new(),
            kept: Kept::new(),
        }
    }

    // All but what was counted is as at the start of a trace.
    fn start(&mut self) {
        self.draws = Draws::new();
        self.out = Output::new();
        self.kept = Kept::new();
    }

    // Fills the output before a call, and counts the call.
    fn begin(&mut self) {
        self.out.clear();
        self.counts.calls = self.counts.calls.saturating_add(1);
    }

    // `ask output`.
    fn ask_output(&mut self, line: &mut Cursor<'_>) -> Option<()> {
        if !line.follows(b"output") {
            return None;
        }
        write!(self.text, "{}", Hex(self.out.accounted()));
        self.end_answer();
        Some(())
    }

    // A line that is about no end; nothing where it is malformed.
    pub fn without_end(&mut self, word: &[u8], line: &mut Cursor<'_>) -> Option<()> {
        match word {
            b"read" => self.read(line)?,
            b"write" => self.write(line)?,
            b"test" => self.test(line)?,
            b"ask" => self.ask_output(line)?,
            b"start" => self.start(),
            b"draws" => self.draws.set_steps(line)?,
            b"draw" => self.draws.set_one(line)?,
            b"each" => self.draws.set_each(line)?,
            b"room" => self.out.room = line.place(200)?,
            b"fill" => self.out.fill = line.byte()?,
            _ => return None,
        }
        Some(())
    }
}
