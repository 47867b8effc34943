// A message in words, as COMPOSED is written.
use message::{Message, NameEntry};
use std::fmt;
use std::fmt::{Display, Formatter};

// The word of a kind; every message that the reader accepts has one.
pub fn kind_word(kind: u8) -> &'static str {
    match kind {
        message::DATA => "data",
        message::RQST => "rqst",
        message::REPL => "repl",
        message::SESS => "sess",
        message::XPRS => "xprs",
        message::FTCH => "ftch",
        message::LATE => "late",
        message::ANNC => "annc",
        _ => "",
    }
}

// A message, as far as its counts say.
#[derive(Clone, Copy)]
pub struct Letter<'a>(pub &'a Message);

fn name<W: fmt::Write>(f: &mut Formatter<W>, e: NameEntry) -> fmt::Result {
    write!(
        f,
        " name {} {} {}",
        e.name.source.0, e.name.number.0, e.host.0
    )
}

fn cue<W: fmt::Write>(f: &mut Formatter<W>, bytes: &[u8; 24]) -> fmt::Result {
    let c = message::fields(bytes);
    write!(
        f,
        " cue {} {} {} {} {}",
        c.focus, c.zoom, c.sideways, c.upright, c.lamp
    )
}

impl Display for Letter<'_> {
    fn fmt<W: fmt::Write>(&self, f: &mut Formatter<W>) -> fmt::Result {
        let m = self.0;
        write!(f, "{} {} {}", kind_word(m.kind), m.sender.0, m.stamp)?;
        for e in m.names.iter().take(m.counts.names) {
            name(f, *e)?;
        }
        if 0 < m.counts.cues {
            cue(f, &m.cue)?;
        }
        for r in m.reports.iter().take(m.counts.reports) {
            write!(f, " report {} {}", r.source.0, r.last.0)?;
        }
        for e in m.echoes.iter().take(m.counts.echoes) {
            write!(f, " echo {} {} {}", e.host.0, e.stamp, e.held)?;
        }
        Ok(())
    }
}
