// `END set ..`: an end with a field changed, sound or not. These are tools of tests: their contracts say no more than that they are safe and end.
#![tactic(auto)]

use end::{Attempt, End, Params, Record, Request, Slot, Source, Status};
use trace::Cursor;

// The parameters in quarters; E is 0.
pub fn quarters(line: &mut Cursor<'_>) -> Option<Params> {
    Some(Params {
        c1: line.small(255)?,
        c2: line.small(255)?,
        c3: line.small(255)?,
        d1: line.small(255)?,
        d2: line.small(255)?,
        d3: line.small(255)?,
        express: 0,
    })
}

// All parameters.
pub fn params(line: &mut Cursor<'_>) -> Option<Params> {
    let quarters = quarters(line)?;
    let express = line.small(65535)?;
    Some(Params {
        express,
        ..quarters
    })
}

fn status(word: &[u8]) -> Option<Status> {
    match word {
        b"idle" => Some(Status::Idle),
        b"joining" => Some(Status::Joining),
        b"member" => Some(Status::Member),
        b"leaving" => Some(Status::Leaving),
        b"crashed" => Some(Status::Crashed),
        _ => None,
    }
}

// The sources that were reported, where there is a third number; otherwise none.
fn reported(line: &mut Cursor<'_>) -> Option<u8> {
    if line.is_whole() {
        return Some(0);
    }
    line.byte()
}

fn heard(line: &mut Cursor<'_>) -> Option<(u64, u64, u8)> {
    let stamp = line.number()?;
    let when = line.number()?;
    Some((stamp, when, reported(line)?))
}

fn request(line: &mut Cursor<'_>) -> Option<Request> {
    Some(Request {
        round: line.byte()?,
        due: line.number()?,
        quiet: line.number()?,
    })
}

// A waiting request, and perhaps `express DUE` behind it.
fn waiting(line: &mut Cursor<'_>) -> Option<Slot> {
    let q = request(line)?;
    let mut express = None;
    if line.follows(b"express") {
        express = Some(line.number()?);
    }
    Some(Slot::Waiting(q, express))
}

fn set_record(r: &mut Record, field: &[u8], line: &mut Cursor<'_>) -> Option<()> {
    match field {
        b"empty" => r.slot = Slot::Empty,
        b"held" => r.slot = Slot::Held(None),
        b"waits" => r.slot = waiting(line)?,
        b"reply" => r.slot = Slot::Held(Some((line.number()?, line.host()?))),
        b"cue" => r.cue = line.cue()?,
        b"hush" => r.hush = line.number()?,
        _ => return None,
    }
    Some(())
}

// What was done to fetch the number of a place.
fn attempt(line: &mut Cursor<'_>) -> Option<Attempt> {
    let tried = line.byte()?;
    let late = line.small(1)? == 1;
    Some(Attempt { tried, late })
}

// The fields that have a place.
fn set_place(s: &mut Source, field: &[u8], line: &mut Cursor<'_>) -> Option<()> {
    let place = line.place(63)?;
    match field {
        b"attempt" => s.attempts[place] = attempt(line)?,
        _ => set_record(&mut s.names[place], field, line)?,
    }
    Some(())
}

fn set_source(s: &mut Source, field: &[u8], line: &mut Cursor<'_>) -> Option<()> {
    match field {
        b"span" => s.span = Some((line.cue_number()?, line.cue_number()?)),
        b"closed" => s.span = None,
        b"missed" => s.missed = line.count()?,
        b"pair" => s.pair = Some((line.host()?, line.host()?, line.cue_number()?)),
        b"nopair" => s.pair = None,
        b"distance" => s.distance = line.number()?,
        b"heard" => s.heard = Some(heard(line)?),
        b"unheard" => s.heard = None,
        b"origin" => s.origin = Some(line.cue_number()?),
        b"noorigin" => s.origin = None,
        _ => return set_place(s, field, line),
    }
    Some(())
}

// Sets what the next words say, or nothing of it or a part where they are malformed.
pub fn set(e: &mut End, line: &mut Cursor<'_>) -> Option<()> {
    let field = line.word()?;
    match field {
        b"host" => e.host = line.host()?,
        b"clock" => e.clock = line.number()?,
        b"status" => e.status = status(line.word()?)?,
        b"next" => e.next = line.count()?,
        b"params" => e.params = params(line)?,
        _ => {
            let source = line.place(7)?;
            return set_source(&mut e.sources[source], field, line);
        }
    }
    Some(())
}
