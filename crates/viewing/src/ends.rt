// A line on an end.
use crate::answer;
use crate::kept::Kept;
use end::{Answer, Draw, End, Event, Move};
use picture::text::Text;
use trace::{Bytes, Cursor};

static DRAWS: [Draw; 64] = [0; 64];

// What the line of an event says: the focus of a `send` and the message of a `hear`, which are 0 and none for the others.
#[derive(Clone, Copy)]
struct Said {
    what: Event,
    clock: u64,
    focus: i16,
    message: Bytes,
}

fn event_of(word: &[u8]) -> Option<Event> {
    match word {
        b"join" => Some(Event::Moves(Move::Join)),
        b"joined" => Some(Event::Moves(Move::Joined)),
        b"leave" => Some(Event::Moves(Move::Leave)),
        b"left" => Some(Event::Moves(Move::Left)),
        b"crash" => Some(Event::Moves(Move::Crash)),
        b"send" => Some(Event::Send),
        b"hear" => Some(Event::Arrival),
        b"fire" => Some(Event::Fire),
        b"report" => Some(Event::Report),
        b"announce" => Some(Event::Announce),
        _ => None,
    }
}

fn read(mut line: Cursor, kept: &Kept) -> Option<Said> {
    let what = event_of(line.word()?)?;
    let clock = line.number()?;
    let focus = match what {
        Event::Send => line.offset()?,
        _ => 0,
    };
    let message = match what {
        Event::Arrival => kept.numbered(&mut line)?,
        _ => Bytes::none(),
    };
    line.is_whole().then_some(Said {
        what,
        clock,
        focus,
        message,
    })
}

// Plays a line on an end: makes the call, with 64 draws of 0, prints its answer, and keeps the message that it puts out.
pub fn play(e: &mut End, line: Cursor, kept: &mut Kept, text: &mut Text) -> Option<()> {
    let said = read(line, kept)?;
    let cue = message::cue_with(said.focus, 0, 0, 0, 0);
    let mut out = [0u8; 128];
    let host = e.host;
    let stepped = link::event(
        *e,
        said.clock,
        &DRAWS,
        said.what,
        cue,
        said.message.as_slice(),
        &mut out,
    );
    *e = stepped.end;
    let focus = numbers::read_i16(&out, 0);
    answer::put(text, host, said.clock, stepped.answer, kept.next(), focus);
    text.extend(b"\n");
    if let Answer::Out(len) = stepped.answer {
        kept.keep(&out, len);
    }
    Some(())
}
