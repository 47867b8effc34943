// The events of an end, and its opening.
use crate::{Desk, Mode, answer, codec, why};
use end::{Answer, End, Event, Move, Params, Why};
use message::Verdict;
use picture::text::Hex;
use picture::{digest, same};
use trace::{Bytes, Cursor};

// What the line of an event says: the event, its clock, the cue of a `send`, which is zeros for the others, and the message that a `hear` brings.
#[derive(Clone, Copy)]
pub struct Said {
    what: Event,
    clock: u64,
    cue: [u8; 24],
    message: Bytes,
}

impl Said {
    fn only(what: Event, clock: u64) -> Self {
        Said {
            what,
            clock,
            cue: [0; 24],
            message: Bytes::none(),
        }
    }

    // The reason of the event.
    pub fn why(&self, e: &End) -> Why {
        let bytes = self.message.as_slice();
        link::reason(*e, self.clock, self.what, self.cue, bytes)
    }
}

// The events that are a word and a clock.
fn plain_event(word: &[u8]) -> Option<Event> {
    match word {
        b"join" => Some(Event::Moves(Move::Join)),
        b"joined" => Some(Event::Moves(Move::Joined)),
        b"leave" => Some(Event::Moves(Move::Leave)),
        b"left" => Some(Event::Moves(Move::Left)),
        b"crash" => Some(Event::Moves(Move::Crash)),
        b"fire" => Some(Event::Fire),
        b"report" => Some(Event::Report),
        b"announce" => Some(Event::Announce),
        _ => None,
    }
}

// Whether an answer has to leave the state as it was.
fn leaves_all(a: Answer, before: &End) -> bool {
    match a {
        Answer::Refused(_) => true,
        Answer::Ignored => state::is_crashed(before.status),
        _ => false,
    }
}

impl Desk {
    // The message that a `hear` brings: by its number, in bytes or in words.
    fn brought(&self, line: &mut Cursor<'_>) -> Option<Bytes> {
        if line.follows(b"bytes") {
            return line.bytes();
        }
        let mut ahead = *line;
        if let Some(number) = ahead.number() {
            if ahead.is_whole() {
                *line = ahead;
                return self.kept.message(number);
            }
        }
        Some(codec::written(&line.message()?))
    }

    // What the words of an event say, behind its first.
    pub(crate) fn said(&self, word: &[u8], line: &mut Cursor<'_>) -> Option<Said> {
        let clock = line.number()?;
        match word {
            b"send" => Some(Said {
                cue: line.cue()?,
                ..Said::only(Event::Send, clock)
            }),
            b"hear" => Some(Said {
                message: self.brought(line)?,
                ..Said::only(Event::Arrival, clock)
            }),
            b"fetch" => Some(Said::only(Event::Fetch(line.name()?), clock)),
            _ => Some(Said::only(plain_event(word)?, clock)),
        }
    }

    // Takes down what an event gave, and whether it changed what it may not.
    fn tell(&mut self, before: &End, a: Answer, after: &End) {
        self.out.account(answer::accounted(a));
        answer::put(&mut self.text, a, self.out.accounted());
        self.end_answer();
        let is_other = leaves_all(a, before) && !same::ends(before, after);
        if is_other || self.out.is_changed() {
            self.mark("CHANGED");
        }
        if let Answer::Out(_) = a {
            self.kept.keep(self.out.accounted());
        }
        self.rest(after);
    }

    // Behind the answer of a call on an end: the output and the digest.
    fn rest(&mut self, after: &End) {
        write!(self.text, "; {}", Hex(self.out.accounted()));
        write!(self.text, "; {:016X}", digest::end(after));
        self.told.shows = self.mode == Mode::Words;
    }

    // The line that the event leaves in a run's record, in place of what was told of it.
    fn keep_line(&mut self, e: &End, said: &Said, a: Answer) {
        let mut line = [0u8; 128];
        let len = keeping::put(
            &mut line,
            0,
            e.host,
            said.what,
            said.cue,
            a,
            self.out.whole(),
        );
        self.text.truncate(self.told.start);
        self.text.extend(line.get(..len).unwrap_or(&[]));
        self.told.from = self.text.len();
    }

    // An event: answers the end that it leaves.
    pub fn event(&mut self, e: &End, word: &[u8], line: &mut Cursor<'_>) -> Option<End> {
        let said = self.said(word, line)?;
        let bytes = said.message.as_slice();
        self.begin();
        let reason = said.why(e);
        let draws = self.draws.as_slice();
        let out = self.out.front();
        let s = link::event(*e, said.clock, draws, said.what, said.cue, bytes, out);
        self.tell(e, s.answer, &s.end);
        write!(self.text, "; ");
        why::put(&mut self.text, reason);
        if self.mode == Mode::Record {
            self.keep_line(e, &said, s.answer);
        }
        Some(s.end)
    }

    // An opening: answers its end, also beside a refusal.
    pub fn open(&mut self, line: &mut Cursor<'_>) -> Option<End> {
        let host = line.host()?;
        let params = params(line)?;
        self.begin();
        let o = link::open(host, params);
        match o.verdict {
            Verdict::Refused(question) => write!(self.text, "refused {question}"),
            _ => write!(self.text, "opened"),
        }
        self.end_answer();
        self.rest(&o.end);
        Some(o.end)
    }
}

// The parameters of an opening: E is 0 where there is no seventh number.
fn params(line: &mut Cursor<'_>) -> Option<Params> {
    let mut ahead = *line;
    let quarters = changes::quarters(&mut ahead)?;
    if ahead.is_whole() {
        *line = ahead;
        return Some(quarters);
    }
    changes::params(line)
}
