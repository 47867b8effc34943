// What is told of a line: the answers of the calls in words.
use crate::{Desk, Mode};
use end::Answer;
use message::{Message, Name};
use picture::letter;
use picture::text::Text;

// Of the line in play: where in the text it starts, where its answer starts, and where that ends, once there is one; whether it stands with a mark
// such as CHANGED; and whether the state of its end is shown behind it.
#[derive(Clone, Copy, Default)]
pub struct Told {
    pub start: usize,
    pub from: usize,
    pub to: Option<usize>,
    pub marked: bool,
    pub shows: bool,
}

// `out LENGTH`, and the message: its kind, and what it is about; an `annc` has a second number.
fn put_out(text: &mut Text, len: usize, m: &Message) {
    let kind = letter::kind_word(m.kind);
    let first = m.names[0].name;
    let second = m.names[1].name;
    write!(text, "out {len} {kind}");
    match m.kind {
        message::SESS => write!(text, " {} {}", m.counts.reports, m.counts.echoes),
        message::ANNC => write!(
            text,
            " {} {} {}",
            first.source.0, first.number.0, second.number.0
        ),
        _ => write!(text, " {} {}", first.source.0, first.number.0),
    }
}

fn with_name(text: &mut Text, word: &str, name: Name) {
    write!(text, "{word} {} {}", name.source.0, name.number.0);
}

// The answer of an event, which accounts for these bytes.
pub fn put(text: &mut Text, a: Answer, bytes: &[u8]) {
    match a {
        Answer::Refused(question) => write!(text, "refused {question}"),
        Answer::Out(len) => put_out(text, len, &reader::read(bytes).message),
        Answer::Got(name) => with_name(text, "got", name),
        Answer::Done => write!(text, "done"),
        Answer::Ignored => write!(text, "ignored"),
        Answer::Nothing => write!(text, "nothing"),
        Answer::Clash(name) => with_name(text, "clash", name),
        Answer::Late(name) => with_name(text, "late", name),
        Answer::Exhausted => write!(text, "exhausted"),
    }
}

// How many bytes of the output an answer accounts for.
pub fn accounted(a: Answer) -> usize {
    match a {
        Answer::Out(len) => len,
        Answer::Got(_) | Answer::Late(_) => 24,
        _ => 0,
    }
}

impl Desk {
    // Before a line is played: its number, unless a record is printed.
    pub fn begin_line(&mut self) {
        let start = self.text.len();
        if self.mode != Mode::Record {
            write!(self.text, "{} ", self.counts.lines);
        }
        let from = self.text.len();
        self.told = Told {
            start,
            from,
            ..Told::default()
        };
    }

    // A bad line stops the trace.
    pub fn bad(&mut self) {
        self.text.truncate(self.told.start);
        writeln!(self.text, "{} bad", self.counts.lines);
    }

    // The answer is whole: what follows is not compared with what is expected.
    pub(crate) fn end_answer(&mut self) {
        self.told.to = Some(self.text.len());
    }

    // A mark behind the answer: then no expectation is met.
    pub(crate) fn mark(&mut self, mark: &str) {
        write!(self.text, " {mark}");
        self.told.marked = true;
    }
}
