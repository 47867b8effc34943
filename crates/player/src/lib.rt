// Plays a line of a script on the end that it names, and prints what it gives. The definitions are in specs/: Play.antt (what a line
// gives), Explain.antt (the reason after "ignored") and House.antt (what is printed, for a line and for a whole script).
#![tactic(auto)]

ghost use Rattle.std.specs.Prelude.{◌≡◌, true, cond, ◌+◌, ◌≤◌, ◌<◌, length};
ghost use Rattle.message.specs.Cue.{steps_at};
ghost use Rattle.store.specs.Store.{most, room, message_in, kept};
ghost use Rattle.answers.specs.Put.{Put};
ghost use Rattle.end.specs.Event.{event_of};
ghost use Rattle.end.specs.Answer.{called_of, buffer_of};
ghost use Rattle.end.specs.Why.{why_of};
ghost use Rattle.player.specs.Play.{draws, event_for, heard_number, is_known};
ghost use Rattle.player.specs.Explain.{ignored_for};
ghost use Rattle.player.specs.House.{widest, bad_line, printed_line};
ghost use Rattle.player.specs.Promise.{Plays, Tells, Shelf, InOutput, kind_for, cue_for};

use answers::Shown;
use end::{Answer, Draw, End, Event, Move, Stepped, Why};
use message::Host;
use script::Verb;
use store::Store;

// What a played line gives: the answer that is printed for it, or none where "bad" is, after which the house stops; and the end that is left.
#[derive(Clone, Copy)]
pub struct Played {
    pub printed: Option<Shown>,
    pub end: End,
}

// What an event gives, and why it was ignored, where that is asked for.
#[derive(Clone, Copy)]
struct Happened {
    stepped: Stepped,
    why: Why,
}

// A line names a message that was put out.
fn is_known(verb: Verb, count: usize) -> bool
    ensures { result ≡ is_known verb count }
{
    match verb {
        Verb::Hear(n) => n < count as u64,
        _ => true,
    }
}

fn heard_number(verb: Verb) -> u64
    ensures { result ≡ heard_number verb }
{
    match verb {
        Verb::Hear(n) => n,
        _ => 0,
    }
}

// The event of a verb, without the cue of a send and the bytes of a hear.
fn event_of(verb: Verb) -> Event
    ensures { result ≡ kind_for verb }
{
    match verb {
        Verb::Join => Event::Moves(Move::Join),
        Verb::Joined => Event::Moves(Move::Joined),
        Verb::Leave => Event::Moves(Move::Leave),
        Verb::Left => Event::Moves(Move::Left),
        Verb::Crash => Event::Moves(Move::Crash),
        Verb::Send(_) => Event::Send,
        Verb::Hear(_) => Event::Arrival,
        Verb::Fire => Event::Fire,
        Verb::Report => Event::Report,
    }
}

// The cue of a send, and zeros for another verb, with which nothing is said.
fn cue_of(verb: Verb) -> [u8; 24]
    ensures { result ≡ cue_for verb }
{
    match verb {
        Verb::Send(focus) => message::cue_with(focus, 0, 0, 0, 0),
        _ => [0; 24],
    }
}

// Makes the call of a verb, with 64 draws of 0; `bytes` are those of the message that is heard.
fn event(e: End, verb: Verb, clock: u64, bytes: &[u8], out: &mut [u8]) -> Stepped
    ensures value { result ≡ called_of (event_of e (event_for verb bytes.now) clock (length out.old) draws) }
    ensures out_after { out.new ≡ buffer_of (event_of e (event_for verb bytes.now) clock (length out.old) draws).outcome out.old }
{
    let draws: [Draw; 64] = [0; 64];
    link::event(e, clock, &draws, event_of(verb), cue_of(verb), bytes, out)
}

// Why the event of a verb would be ignored.
fn reason(e: End, verb: Verb, clock: u64, bytes: &[u8]) -> Why
    ensures { result ≡ why_of e clock (event_for verb bytes.now) }
{
    link::reason(e, clock, event_of(verb), cue_of(verb), bytes)
}

// The same where it is asked for.
fn reason_asked(explains: bool, e: End, verb: Verb, clock: u64, bytes: &[u8]) -> Why
    ensures { result ≡ cond explains (why_of e clock (event_for verb bytes.now)) Why.NoReason }
{
    if explains {
        reason(e, verb, clock, bytes)
    } else {
        Why::NoReason
    }
}

// The event, with the message that is heard in its place, and why the end as it was before it ignores it, where that is asked for.
fn event_in(
    explains: bool,
    e: End,
    verb: Verb,
    clock: u64,
    store: &Store,
    out: &mut [u8],
) -> Happened
    requires { heard_number verb < most }
    ensures stepped_value { result.stepped ≡ called_of (event_of e (event_for verb (message_in store.now.places store.now.lengths (heard_number verb))) clock (length out.old) draws) }
    ensures out_after { out.new ≡ buffer_of (event_of e (event_for verb (message_in store.now.places store.now.lengths (heard_number verb))) clock (length out.old) draws).outcome out.old }
    ensures why_value { result.why ≡ cond explains (why_of e clock (event_for verb (message_in store.now.places store.now.lengths (heard_number verb)))) Why.NoReason }
{
    let message = store.message(heard_number(verb) as usize);
    Happened {
        stepped: event(e, verb, clock, message, out),
        why: reason_asked(explains, e, verb, clock, message),
    }
}

// A message of n bytes that was put out is kept under the next number, if there is one.
fn put_out(n: usize, out: &[u8], store: &mut Store) -> Option<Shown>
    requires n_in_bounds { n ≤ length out.now }
    requires shelf { Shelf out.now store.old }
    ensures { Tells Why.NoReason (Answer.Out n) out.now store.old store.new result }
{
    if store.count < store::MOST {
        let number = store.count as u64;
        store.keep(&out[..n]);
        Some(Shown::Out(number))
    } else {
        None
    }
}

fn ignored_for(why: Why) -> Shown
    ensures { result ≡ ignored_for why }
{
    match why {
        Why::Because(reason) => Shown::IgnoredFor(reason),
        _ => Shown::Ignored,
    }
}

// The focus of the cue that an answer hands out.
fn focus_in(out: &[u8]) -> i16
    requires { length out.now ≡ room }
    ensures { result ≡ steps_at out.now 0 }
{
    numbers::read_i16(out, 0)
}

// What is printed for an answer, with the output that the call left, and with the reason where it was asked for. What was put out is kept.
fn tell(why: Why, answer: Answer, out: &[u8], store: &mut Store) -> Option<Shown>
    requires in_output { InOutput answer out.now }
    requires shelf { Shelf out.now store.old }
    ensures { Tells why answer out.now store.old store.new result }
{
    match answer {
        Answer::Refused(question) => Some(Shown::Refused(question)),
        Answer::Out(n) => put_out(n, out, store),
        Answer::Got(name) => Some(Shown::Got(name, focus_in(out))),
        Answer::Done => Some(Shown::Done),
        Answer::Ignored => Some(ignored_for(why)),
        Answer::Nothing => Some(Shown::Nothing),
        Answer::Clash(name) => Some(Shown::Clash(name)),
        Answer::Late(name) => Some(Shown::Late(name, focus_in(out))),
        Answer::Exhausted => Some(Shown::Exhausted),
    }
}

// Plays a line that names no unknown message.
fn play_known(explains: bool, e: End, verb: Verb, clock: u64, store: &mut Store) -> Played
    requires known { is_known verb store.old.count ≡ true }
    requires few { store.old.count ≤ most }
    ensures { Plays explains e verb clock (kept store.old) result (kept store.new) }
{
    let mut out = [0u8; 128];
    let happened = event_in(explains, e, verb, clock, store, &mut out);
    Played {
        printed: tell(happened.why, happened.stepped.answer, &out, store),
        end: happened.stepped.end,
    }
}

// Plays a line: the verb and the clock on an end, with the messages that were put out so far, 64 at most. The next message goes into the
// next place. Where it explains, the reason follows "ignored".
pub fn play(explains: bool, e: End, verb: Verb, clock: u64, store: &mut Store) -> Played
    ensures { Plays explains e verb clock (kept store.old) result (kept store.new) }
{
    store.count = store.used();
    if is_known(verb, store.count) {
        play_known(explains, e, verb, clock, store)
    } else {
        Played {
            printed: None,
            end: e,
        }
    }
}

fn put_bad(out: &mut [u8], at: usize) -> usize
    requires { at + 4 ≤ length out.old }
    ensures { Put 4 at bad_line out.old out.new result }
{
    answers::text(out, at, b"bad\n")
}

// Writes what is printed for a line from a place on, and answers where it ends. A helper of the interpreter, which has seen to the room.
pub fn put_printed(
    out: &mut [u8],
    at: usize,
    end: Host,
    clock: u64,
    printed: Option<Shown>,
) -> usize
    requires { at + widest ≤ length out.old }
    ensures { Put widest at (printed_line end clock printed) out.old out.new result }
{
    match printed {
        None => put_bad(out, at),
        Some(a) => answers::put_line(out, at, end, clock, a),
    }
}
