// A line on the display.
use crate::kept::Kept;
use crate::{answer, shown};
use display::Display;
use display_window::Window;
use end::Answer;
use message::{Host, Verdict};
use picture::text::Text;
use trace::{Bytes, Cursor};

// What the display's output is filled with before a call.
pub const FILLING: u8 = 165;

// The display and its output: how many bytes a call may use, and for how many the last answer accounts.
#[derive(Clone, Copy)]
pub struct Screen {
    display: Display,
    out: [u8; 200],
    room: usize,
    last: usize,
}

// What a call is: a message that is heard, or a step.
#[derive(Clone, Copy)]
enum Call {
    Hear(Bytes),
    Step,
}

// How many bytes of the output an answer accounts for.
fn accounted(a: Answer) -> usize {
    match a {
        Answer::Out(len) => len,
        Answer::Got(_) => 24,
        _ => 0,
    }
}

// The message that a `hear` brings: by its number, or in bytes.
fn brought(line: &mut Cursor, kept: &Kept) -> Option<Bytes> {
    if line.follows(b"bytes") {
        line.bytes()
    } else {
        kept.numbered(line)
    }
}

// `unstarted`, or `window TRAIL LEAD SET`, or another field with its value: the display with it.
fn changed(d: Display, line: &mut Cursor) -> Option<Display> {
    let field = line.word()?;
    match field {
        b"unstarted" => Some(Display { window: None, ..d }),
        b"own" => Some(Display {
            own: line.host()?,
            ..d
        }),
        b"sender" => Some(Display {
            sender: line.host()?,
            ..d
        }),
        b"clock" => Some(Display {
            clock: line.number()?,
            ..d
        }),
        b"window" => {
            let trail = line.cue_number()?;
            let lead = line.cue_number()?;
            let set = line.number()?;
            let window = Some(Window { trail, lead, set });
            Some(Display { window, ..d })
        }
        _ => None,
    }
}

impl Screen {
    pub fn new() -> Self {
        Screen {
            display: display::open(Host(2), Host(0)).display,
            out: [FILLING; 200],
            room: 128,
            last: 0,
        }
    }

    // `room BYTES`.
    pub fn set_room(&mut self, line: &[u8]) -> Option<()> {
        let (b"room", mut rest) = Cursor::first(line)? else {
            return None;
        };
        let room = rest.place(200)?;
        if !rest.is_whole() {
            return None;
        }
        self.room = room;
        Some(())
    }

    // The output before a call.
    fn clear(&mut self) {
        self.out.fill(FILLING);
        self.last = 0;
    }

    // `2 open OWN SENDER`: leaves its display, also beside a refusal.
    fn open(&mut self, mut line: Cursor, text: &mut Text) -> Option<()> {
        let own = line.host()?;
        let sender = line.host()?;
        if !line.is_whole() {
            return None;
        }
        self.clear();
        let opened = display::open(own, sender);
        self.display = opened.display;
        match opened.verdict {
            Verdict::Refused(question) => write!(text, "2 refused {question}\n"),
            _ => text.extend(b"2 opened\n"),
        }
        Some(())
    }

    // Makes a call, prints its answer and losses, and keeps the message that it puts out.
    fn call(&mut self, call: Call, clock: u64, kept: &mut Kept, text: &mut Text) {
        self.clear();
        let before = self.display;
        let room = self.room.min(200);
        let out = &mut self.out[..room];
        let shown = match call {
            Call::Hear(message) => display::hear(before, clock, message.as_slice(), out),
            Call::Step => display::step(before, clock, out),
        };
        self.display = shown.display;
        self.last = accounted(shown.answer);
        let focus = numbers::read_i16(&self.out, 0);
        answer::put(text, Host(2), clock, shown.answer, kept.next(), focus);
        shown::lost(text, &shown.lost);
        text.extend(b"\n");
        if let Answer::Out(len) = shown.answer {
            kept.keep(&self.out, len);
        }
    }

    // `2 hear CLOCK MESSAGE`.
    fn hear(&mut self, mut line: Cursor, kept: &mut Kept, text: &mut Text) -> Option<()> {
        let clock = line.number()?;
        let message = brought(&mut line, kept)?;
        if !line.is_whole() {
            return None;
        }
        self.call(Call::Hear(message), clock, kept, text);
        Some(())
    }

    // `2 step CLOCK`.
    fn step(&mut self, mut line: Cursor, kept: &mut Kept, text: &mut Text) -> Option<()> {
        let clock = line.number()?;
        if !line.is_whole() {
            return None;
        }
        self.call(Call::Step, clock, kept, text);
        Some(())
    }

    // `2 set ..`.
    fn set(&mut self, mut line: Cursor) -> Option<()> {
        let changed = changed(self.display, &mut line)?;
        if !line.is_whole() {
            return None;
        }
        self.display = changed;
        Some(())
    }

    // `2 show`.
    fn show(&self, line: Cursor, text: &mut Text) -> Option<()> {
        if !line.is_whole() {
            return None;
        }
        shown::display(text, &self.display);
        shown::output(text, &self.out, self.last);
        text.extend(b"\n");
        Some(())
    }

    // Plays a line on the display.
    pub fn play(&mut self, mut line: Cursor, kept: &mut Kept, text: &mut Text) -> Option<()> {
        let word = line.word()?;
        match word {
            b"open" => self.open(line, text),
            b"hear" => self.hear(line, kept, text),
            b"step" => self.step(line, kept, text),
            b"set" => self.set(line),
            b"show" => self.show(line, text),
            _ => None,
        }
    }
}
