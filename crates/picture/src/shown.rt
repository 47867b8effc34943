// An end in words: each part as it is asked for, and the whole as it is shown.
use crate::flat;
use crate::text::{Hex, Numbers, Text};
use end::{Attempt, End, Record, Slot, Source, Status};
use std::fmt::Display;
use std::io;

pub fn status_word(s: Status) -> &'static str {
    match s {
        Status::Idle => "idle",
        Status::Joining => "joining",
        Status::Member => "member",
        Status::Leaving => "leaving",
        Status::Crashed => "crashed",
    }
}

// What is there, or the word for that there is nothing.
pub fn perhaps<D: Display + Drop>(text: &mut Text, known: Option<D>, none: &str) {
    match known {
        Some(all) => write!(text, "{all}"),
        None => write!(text, "{none}"),
    }
}

// The same behind a space, and its word before what is there.
fn part<const N: usize>(text: &mut Text, word: &str, known: Option<Numbers<N>>, none: &str) {
    match known {
        Some(all) => write!(text, " {word} {all}"),
        None => write!(text, " {none}"),
    }
}

fn slot(text: &mut Text, s: Slot) {
    match s {
        Slot::Empty => write!(text, "empty"),
        Slot::Held(r) => {
            write!(text, "held");
            if let Some(all) = flat::reply(r) {
                write!(text, " reply {all}");
            }
        }
        Slot::Waiting(q, express) => {
            write!(text, "waits {}", flat::request(q));
            if let Some(due) = express {
                write!(text, " express {due}");
            }
        }
    }
}

// What a record holds, its reply-quiet and its cue bytes.
pub fn record(text: &mut Text, r: &Record) {
    slot(text, r.slot);
    write!(text, " hush {} cue {}", r.hush, Hex(&r.cue));
}

// The records that are not as an opened end has them.
fn names(rt: &impl Print, text: &mut Text, source: usize, all: &[Record; 64]) -> io::Result<()> {
    for (place, r) in all.iter().enumerate() {
        if !flat::is_blank(r) {
            write!(text, "  record {source} {place} ");
            record(text, r);
            text.push(b'\n');
            text.flush_much(rt)?;
        }
    }
    Ok(())
}

// The places at which something was done.
fn attempts(
    rt: &impl Print,
    text: &mut Text,
    source: usize,
    all: &[Attempt; 64],
) -> io::Result<()> {
    for (place, a) in all.iter().enumerate() {
        let marks = flat::attempt(*a);
        if marks.0 != [0, 0] {
            writeln!(text, "  attempt {source} {place} {marks}");
            text.flush_much(rt)?;
        }
    }
    Ok(())
}

fn head(text: &mut Text, source: usize, s: &Source) {
    write!(text, "  source {source}");
    part(text, "span", flat::span(s), "closed");
    write!(text, " missed {}", s.missed);
    part(text, "pair", flat::pair(s), "nopair");
    write!(text, " distance {}", s.distance);
    part(text, "heard", flat::heard(s), "unheard");
    part(text, "origin", flat::origin(s), "noorigin");
    text.push(b'\n');
}

// The whole state. It is written out where it is much; an error is one of writing.
pub fn end(rt: &impl Print, text: &mut Text, e: &End) -> io::Result<()> {
    writeln!(text, "  host {}", e.host.0);
    writeln!(text, "  params {}", flat::params(e.params));
    writeln!(text, "  clock {}", e.clock);
    writeln!(text, "  status {}", status_word(e.status));
    writeln!(text, "  next {}", e.next);
    for (source, s) in e.sources.iter().enumerate() {
        head(text, source, s);
        names(rt, text, source, &s.names)?;
        attempts(rt, text, source, &s.attempts)?;
    }
    Ok(())
}
