// `END ask ..`: what an end is asked.
use crate::Desk;
use end::{End, Source};
use picture::text::Text;
use picture::{flat, same, shown};
use trace::Cursor;

// The fields of a source and its records.
fn put_source(text: &mut Text, s: &Source, field: &[u8], line: &mut Cursor<'_>) -> Option<()> {
    match field {
        b"missed" => write!(text, "{}", s.missed),
        b"pair" => shown::perhaps(text, flat::pair(s), "none"),
        b"distance" => write!(text, "{}", s.distance),
        b"span" => shown::perhaps(text, flat::span(s), "closed"),
        b"heard" => shown::perhaps(text, flat::heard(s), "unheard"),
        b"origin" => shown::perhaps(text, flat::origin(s), "none"),
        b"attempt" => write!(text, "{}", flat::attempt(s.attempts[line.place(63)?])),
        b"record" => shown::record(text, &s.names[line.place(63)?]),
        _ => return None,
    }
    Some(())
}

impl Desk {
    // What the next words ask of an end, which may ask of the others too.
    pub fn ask(&mut self, e: &End, ends: &[End; 10], line: &mut Cursor<'_>) -> Option<()> {
        let field = line.word()?;
        match field {
            b"clock" => write!(self.text, "{}", e.clock),
            b"next" => write!(self.text, "{}", e.next),
            b"host" => write!(self.text, "{}", e.host.0),
            b"status" => write!(self.text, "{}", shown::status_word(e.status)),
            b"params" => write!(self.text, "{}", flat::params(e.params)),
            b"same" => {
                let is_same = same::ends(e, &ends[line.place(9)?]);
                let word = if is_same { "same" } else { "different" };
                write!(self.text, "{word}");
            }
            _ => {
                let s = &e.sources[line.place(7)?];
                put_source(&mut self.text, s, field, line)?;
            }
        }
        self.end_answer();
        Some(())
    }
}
