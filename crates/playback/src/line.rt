// One line, played.
ghost use Rattle.std.specs.Prelude.{◌≤◌, IfSome};

use crate::{Player, opened};
use desk::Mode;
use intake::Malformed;
use picture::shown;
use std::io;
use trace::Cursor;
use trace::cut::{Parts, cut};

// From this place on stand copies of ends, which leave no line in a record.
const SPARE: usize = 8;

// The place in the first word of a line on an end, and what is left of the line.
fn place(call: &[u8]) -> Option<(usize, Cursor<'_>)>
    ensures { IfSome result (λ p. p.0 ≤ 9) }
{
    match call.split_first()? {
        (b @ b'0'..=b'9', rest) => Some(((*b - b'0') as usize, Cursor::behind(rest))),
        _ => None,
    }
}

// Whether an answer is these words, or begins with them and a space.
fn is_met(answer: &[u8], words: &[u8]) -> bool {
    match answer.strip_prefix(words) {
        Some([b' ', ..]) | Some([]) => true,
        _ => false,
    }
}

impl Player {
    // A line on one end, but for its place; nothing where it is malformed.
    // Kept: not inlined, nor is `restart`: the ends in their frames are hundreds of kilobytes of stack, which each call touches page by page.
    // Inlined into what plays a line, that was most of the time of a line without an end.
    #[inline(never)]
    fn on_end(&mut self, who: usize, line: &mut Cursor<'_>) -> Option<()>
        requires { who ≤ 9 }
    {
        let e = self.ends[who];
        match line.word()? {
            b"open" => self.ends[who] = self.desk.open(line)?,
            b"set" => changes::set(&mut self.ends[who], line)?,
            b"copy" => self.ends[who] = self.ends[line.place(9)?],
            b"ask" => self.desk.ask(&e, &self.ends, line)?,
            b"why" => self.desk.why(&e, line)?,
            b"show" => self.desk.told.shows = true,
            word => self.ends[who] = self.desk.event(&e, word, line)?,
        }
        if SPARE <= who && self.desk.mode == Mode::Record {
            self.desk.told.from = self.desk.told.start;
        }
        line.is_whole().then_some(())
    }

    // The ends as at the start of a trace.
    #[inline(never)]
    fn restart(&mut self) {
        self.ends = opened();
    }

    // A line without an end; nothing where it is malformed.
    fn on_none(&mut self, call: &[u8]) -> Option<()> {
        let (word, mut line) = Cursor::first(call)?;
        self.desk.without_end(word, &mut line)?;
        if matches!(word, b"start") {
            self.restart();
        }
        line.is_whole().then_some(())
    }

    // Counts what was expected, and answers whether it is wrong.
    fn is_wrong(&mut self, words: &[u8], to: usize) -> bool {
        let answer = self.desk.text.between(self.desk.told.from, to);
        let is_right = is_met(answer, words) && !self.desk.told.marked;
        if is_right {
            self.desk.counts.right = self.desk.counts.right.saturating_add(1);
            self.heading.count();
        } else {
            self.desk.counts.wrong = self.desk.counts.wrong.saturating_add(1);
        }
        !is_right
    }

    // The end of a line that has an answer, up to here, and perhaps an expectation.
    fn answered(&mut self, to: usize, expected: Option<&[u8]>) {
        if self.desk.mode == Mode::Record {
            self.desk.text.truncate(self.desk.told.from);
            return;
        }
        let is_wrong = match expected {
            Some(words) => self.is_wrong(words, to),
            None => false,
        };
        if is_wrong {
            writeln!(self.desk.text, " WRONG");
        } else if self.desk.mode == Mode::Rows {
            self.desk.text.truncate(self.desk.told.start);
        } else {
            self.desk.text.push(b'\n');
        }
    }

    // What of a line is printed; nothing where it is malformed, or expects what it cannot have.
    fn played(&mut self, parts: Parts<'_>) -> Option<()> {
        match place(parts.call) {
            Some((who, mut line)) => self.on_end(who, &mut line)?,
            None => self.on_none(parts.call)?,
        }
        match self.desk.told.to {
            Some(_) if parts.expected.is_some_and(|words| words.is_empty()) => None,
            Some(to) => Some(self.answered(to, parts.expected)),
            None if parts.expected.is_some() => None,
            None => Some(self.desk.text.truncate(self.desk.told.start)),
        }
    }

    // The state of the end that a line is about, where it is to be shown.
    fn show(&mut self, rt: &impl Print, call: &[u8]) -> io::Result<()> {
        let shows = self.desk.mode == Mode::Plain || self.desk.mode == Mode::Words;
        if let Some((who, _)) = place(call) {
            if shows && self.desk.told.shows {
                shown::end(rt, &mut self.desk.text, &self.ends[who])?;
            }
        }
        Ok(())
    }

    // A heading starts: the line without its `#` and one space behind it.
    fn head(&mut self, rt: &impl Print, words: &[u8]) -> io::Result<()> {
        if self.desk.mode == Mode::Rows {
            self.heading.close(&mut self.desk.text);
            self.heading
                .start(words.strip_prefix(b" ").unwrap_or(words));
            self.desk.text.flush_much(rt)?;
        }
        Ok(())
    }

    // A line that is no heading, of which a remark may be all; answers whether it is well written.
    fn call(&mut self, rt: &impl Print, parts: Parts<'_>) -> io::Result<bool> {
        if parts.call.is_empty() && parts.expected.is_none() {
            return Ok(true);
        }
        self.desk.begin_line();
        if self.played(parts).is_none() {
            self.desk.bad();
            return Ok(false);
        }
        self.desk.text.flush_much(rt)?;
        self.show(rt, parts.call)?;
        Ok(true)
    }

    // Plays the next line, and answers whether the trace goes on: a bad line stops it.
    pub fn play(&mut self, rt: &impl Print, line: Result<&[u8], Malformed>) -> io::Result<bool> {
        self.desk.counts.lines = self.desk.counts.lines.saturating_add(1);
        match line {
            Ok([b'#', words @ ..]) => {
                self.head(rt, words)?;
                Ok(true)
            }
            Ok(line) => self.call(rt, cut(line)),
            Err(Malformed) => {
                self.desk.begin_line();
                self.desk.bad();
                Ok(false)
            }
        }
    }
}
