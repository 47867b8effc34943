// Plays a script of docs/DISPLAYS.md from standard input on two ends and a display, and prints what they answer. What the calls give is proved
// of `link` and `display`; this is a tool around them, and its contracts say no more than that it is safe and ends.
#![tactic(auto)]

mod answer;
mod ends;
mod kept;
mod screen;
mod shown;

use end::{End, Params};
use intake::Lines;
use kept::Kept;
use message::Host;
use picture::text::Text;
use screen::Screen;
use std::io;
use trace::Cursor;

// How many bytes the longest line has, without its line feed.
const LONGEST: usize = 600;

// What a script is played on: two ends and a display, and the messages that they have put out.
#[derive(Clone, Copy)]
struct Stage {
    zero: End,
    one: End,
    screen: Screen,
    kept: Kept,
}

// A host's end, opened as house opens it.
fn fresh(host: u8) -> End {
    let params = Params {
        c1: 9,
        c2: 8,
        c3: 4,
        d1: 4,
        d2: 4,
        d3: 8,
        express: 0,
    };
    link::open(Host(host), params).end
}

impl Stage {
    fn new() -> Self {
        Stage {
            zero: fresh(0),
            one: fresh(1),
            screen: Screen::new(),
            kept: Kept::new(),
        }
    }

    // Plays a line, and prints what it gives. Nothing comes of a malformed one: it stops the script.
    fn play(&mut self, line: &[u8], text: &mut Text) -> Option<()> {
        if LONGEST < line.len() {
            return None;
        }
        let Some((first, rest)) = line.split_first() else {
            return Some(());
        };
        match first {
            b'0' => ends::play(&mut self.zero, Cursor::behind(rest), &mut self.kept, text),
            b'1' => ends::play(&mut self.one, Cursor::behind(rest), &mut self.kept, text),
            b'2' => self.screen.play(Cursor::behind(rest), &mut self.kept, text),
            b'r' => self.screen.set_room(line),
            b'#' => Some(()),
            _ => None,
        }
    }
}

// Plays standard input. A proved loop has to end, and nothing says that the input does, so the lines are counted, up to a number that no run
// uses up. An error is one of reading or writing.
pub fn run(rt: &(impl Input + Print)) -> io::Result<()> {
    let mut lines = Lines::new(rt.reader());
    let mut text = Text::new();
    let mut stage = Stage::new();
    for _ in 0..u64::MAX {
        let Some(next) = lines.next()? else {
            break;
        };
        let played = match next {
            Ok(line) => stage.play(line, &mut text),
            Err(_) => None,
        };
        if played.is_none() {
            text.extend(b"bad\n");
            break;
        }
        text.flush_much(rt)?;
    }
    text.flush(rt)
}
