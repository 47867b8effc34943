// A message in words, as docs/TRACES.md has it: COMPOSED.
use crate::Cursor;
use message::{Counts, Echo, Message, NameEntry, Report};

// The number of a kind that has this word.
fn kind_of(word: &[u8]) -> Option<u8> {
    match word {
        b"data" => Some(message::DATA),
        b"rqst" => Some(message::RQST),
        b"repl" => Some(message::REPL),
        b"sess" => Some(message::SESS),
        b"xprs" => Some(message::XPRS),
        b"ftch" => Some(message::FTCH),
        b"late" => Some(message::LATE),
        b"annc" => Some(message::ANNC),
        _ => None,
    }
}

// What a message may have several of.
trait Part: Sized {
    // The next words as a part.
    fn read(line: &mut Cursor<'_>) -> Option<Self>;
}

impl Part for NameEntry {
    fn read(line: &mut Cursor<'_>) -> Option<Self> {
        let name = line.name()?;
        let host = line.host()?;
        Some(NameEntry { name, host })
    }
}

impl Part for Report {
    fn read(line: &mut Cursor<'_>) -> Option<Self> {
        let source = line.host()?;
        let last = line.cue_number()?;
        Some(Report { source, last })
    }
}

impl Part for Echo {
    fn read(line: &mut Cursor<'_>) -> Option<Self> {
        let host = line.host()?;
        let stamp = line.number()?;
        let held = line.number()?;
        Some(Echo { host, stamp, held })
    }
}

impl Cursor<'_> {
    fn kind(&mut self) -> Option<u8> {
        let mut ahead = *self;
        match kind_of(ahead.word()?) {
            Some(kind) => {
                *self = ahead;
                Some(kind)
            }
            None => self.byte(),
        }
    }

    // Parts of one kind, each behind its word, as far as there are places for them; answers how many there are.
    fn parts<T: Part + Drop>(&mut self, word: &[u8], places: &mut [T]) -> Option<usize> {
        for (count, place) in places.iter_mut().enumerate() {
            if !self.follows(word) {
                return Some(count);
            }
            *place = T::read(self)?;
        }
        Some(places.len())
    }

    // The cue of a message, and how many cues that is.
    fn message_cue(&mut self) -> Option<(usize, [u8; 24])> {
        if self.follows(b"cue") {
            let focus = self.offset()?;
            return Some((1, self.cue_rest(focus)?));
        }
        if self.follows(b"cuebytes") {
            return Some((1, self.cue_bytes()?));
        }
        Some((0, [0; 24]))
    }

    fn counts(&mut self) -> Option<Counts> {
        Some(Counts {
            names: self.number()? as usize,
            cues: self.number()? as usize,
            reports: self.number()? as usize,
            echoes: self.number()? as usize,
        })
    }

    // The next words as a message. A word that belongs to none of its parts is left, so that the line is not whole.
    pub fn message(&mut self) -> Option<Message> {
        let mut m = message::blank();
        m.kind = self.kind()?;
        m.sender = self.host()?;
        m.stamp = self.number()?;
        let names = self.parts(b"name", &mut m.names)?;
        let (cues, cue) = self.message_cue()?;
        m.cue = cue;
        let reports = self.parts(b"report", &mut m.reports)?;
        let echoes = self.parts(b"echo", &mut m.echoes)?;
        m.counts = Counts {
            names,
            cues,
            reports,
            echoes,
        };
        if self.follows(b"counts") {
            m.counts = self.counts()?;
        }
        Some(m)
    }
}
