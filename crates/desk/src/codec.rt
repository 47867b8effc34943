// The calls without an end: the reader, the writer and the cue test.
use crate::Desk;
use message::{Message, Verdict, Written};
use picture::letter::Letter;
use picture::text::Hex;
use trace::{Bytes, Cursor};

// What the writer gives for a message; no bytes where it refuses.
pub fn written(m: &Message) -> Bytes {
    let mut all = [0u8; 256];
    let w = writer::write(*m, &mut all);
    Bytes::copied(all.get(..w.len).unwrap_or(&[]))
}

// Whether the writer gives the bytes of an accepted message back.
fn comes_back(m: &Message, bytes: &[u8]) -> bool {
    written(m).as_slice() == bytes
}

// Whether bytes are accepted, and the writer gives them back.
fn stands(bytes: &[u8]) -> bool {
    let r = reader::read(bytes);
    matches!(r.verdict, Verdict::Accepted) && comes_back(&r.message, bytes)
}

// Whether an accepted message is written as it should be. An old kind's byte is not its kind: it is written as the new one, and that has to stand.
fn is_kept(m: &Message, bytes: &[u8]) -> bool {
    let is_new = bytes.first().is_some_and(|b| message::kind_of(*b) == *b);
    if is_new {
        comes_back(m, bytes)
    } else {
        stands(written(m).as_slice())
    }
}

impl Desk {
    // `accepted` and the message.
    fn accepted(&mut self, m: &Message, bytes: &[u8]) {
        write!(self.text, "accepted {}", Letter(m));
        self.end_answer();
        if !is_kept(m, bytes) {
            self.mark("OTHER BYTES");
        }
    }

    // `read BYTES`.
    pub(crate) fn read(&mut self, line: &mut Cursor<'_>) -> Option<()> {
        let bytes = line.bytes()?;
        self.begin();
        let r = reader::read(bytes.as_slice());
        match r.verdict {
            Verdict::Accepted => self.accepted(&r.message, bytes.as_slice()),
            Verdict::Probe => {
                write!(self.text, "probe");
                self.end_answer();
            }
            Verdict::Refused(question) => {
                write!(self.text, "refused {question}");
                self.end_answer();
            }
        }
        Some(())
    }

    // The call that `write COMPOSED` and `write probe` make.
    fn write_next(&mut self, line: &mut Cursor<'_>) -> Option<Written> {
        if line.follows(b"probe") {
            self.begin();
            return Some(writer::write_probe(self.out.front()));
        }
        let m = line.message()?;
        self.begin();
        Some(writer::write(m, self.out.front()))
    }

    // `write COMPOSED` or `write probe`: `written LENGTH` and the bytes, or the refusal.
    pub(crate) fn write(&mut self, line: &mut Cursor<'_>) -> Option<()> {
        let w = self.write_next(line)?;
        self.out.account(w.len);
        match w.verdict {
            Verdict::Refused(question) => write!(self.text, "refused {question}"),
            _ => write!(self.text, "written {} {}", w.len, Hex(self.out.accounted())),
        }
        self.end_answer();
        if self.out.is_changed() {
            self.mark("CHANGED");
        }
        Some(())
    }

    // `test CUE`.
    pub(crate) fn test(&mut self, line: &mut Cursor<'_>) -> Option<()> {
        let cue = line.cue()?;
        self.begin();
        if message::cue_in(&cue) {
            write!(self.text, "in range");
        } else {
            write!(self.text, "out of range");
        }
        self.end_answer();
        Some(())
    }
}
