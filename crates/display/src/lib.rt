// Foyer displays: document 02, P11. A display sends no cues and follows one sender, by the simplified PGM of source document 003. Its window,
// which says what is received, missing and lost, is of the crate display_window. The definitions are in specs/: Display (the state), Hear
// (messages), Request (what a step puts out), Call (questions, and what a call gives), Frame (what the functions below the calls are given),
// Rows (cases). What holds over the list of a display's calls is stated and proved in the crate display_history.
#![tactic(auto)]

ghost use Rattle.std.specs.Prelude.{◌≡◌, Some, None, true, ◌-◌, ◌≤◌, ◌<◌, length};
ghost use Rattle.message.specs.Limit.{room_needed};
ghost use Rattle.message.specs.Message.{Meaning, held_as, Small, number_width, meaning_of};
ghost use Rattle.message.specs.Question.{outcome, refusal_of};
ghost use Rattle.end.specs.Answer.{Got, Done, Did, Refused, answer_of, buffer_of};
ghost use Rattle.display_window.specs.Window.{window_sound, raised, start_at, taken, none_lost, lost_by};
ghost use Rattle.display.specs.Display.{hosts_apart, sound_of, fresh, opening_of, with_window};
ghost use Rattle.display.specs.Hear.{hearing, passed_over, heard_in};
ghost use Rattle.display.specs.Request.{request_for, request_if, step_of};
ghost use Rattle.display.specs.Call.{Hear, Step, gives, leaves};
ghost use Rattle.display.specs.Frame.{shown_of, first_of, Ready, saying, later_of};

use display_window::{Lost, Window};
use end::Answer;
use message::{
    ANNC, Counts, CueNumber, DATA, HOST_LIMIT, Host, Message, Name, NameEntry, REPL, ROOM_NEEDED,
    RQST, Refusal, TICKS_LIMIT, Verdict,
};

// The state of a display: its own host, its sender's, its clock and its window.
#[derive(Clone, Copy)]
pub struct Display {
    pub own: Host,
    pub sender: Host,
    pub clock: u64,
    pub window: Option<Window>,
}

// What a call gives: its answer (Refused, Out, Got, Done, Ignored or Nothing), the numbers that became lost, and the display that it leaves.
#[derive(Clone, Copy)]
pub struct Shown {
    pub answer: Answer,
    pub lost: Lost,
    pub display: Display,
}

// What an opening answers: whether it was refused, and the display.
// Kept: (a) a display beside the verdict, since `open` promises one beside a refusal too (specs/Display.antt, display_for).
#[derive(Clone, Copy)]
pub struct OpenedDisplay {
    pub verdict: Verdict,
    pub display: Display,
}

// ---- the state

fn hosts_apart(own: Host, sender: Host) -> bool
    ensures { result ≡ hosts_apart own sender }
{
    (own.0 < HOST_LIMIT) & ((sender.0 < HOST_LIMIT) & !(own.0 == sender.0))
}

fn fresh(own: Host, sender: Host) -> Display
    ensures { result ≡ fresh own sender }
{
    Display {
        own,
        sender,
        clock: 0,
        window: None,
    }
}

// Opens a display: question 12. Refused, it gives a fresh display of host 0 that follows host 1 beside the number.
#[tactic(auto, unfolding(crate::specs::Display::opening_of))]
pub fn open(own: Host, sender: Host) -> OpenedDisplay
    ensures { result ≡ opening_of own sender }
{
    if hosts_apart(own, sender) {
        OpenedDisplay {
            verdict: Verdict::Accepted,
            display: fresh(own, sender),
        }
    } else {
        OpenedDisplay {
            verdict: Verdict::Refused(12),
            display: fresh(Host(0), Host(1)),
        }
    }
}

#[tactic(auto, unfolding(crate::specs::Display::sound_of))]
fn sound(d: Display) -> bool
    ensures { result ≡ sound_of d }
{
    hosts_apart(d.own, d.sender)
        & ((d.clock < TICKS_LIMIT) & display_window::window_sound(d.window))
}

// ---- messages

// A cue is handed out: it stands in the first output bytes.
#[tactic(auto, unfolding(end::specs::Answer::answer_of, end::specs::Answer::buffer_of))]
fn hand_out(name: Name, cue: &[u8; 24], out: &mut [u8]) -> Answer
    requires { room_needed ≤ length out.old }
    ensures value { result ≡ answer_of (Did (Got name cue.now)) }
    ensures out_after { out.new ≡ buffer_of (Did (Got name cue.now)) out.old }
{
    numbers::put_bytes(out, 0, cue);
    Answer::Got(name)
}

#[tactic(auto, unfolding(end::specs::Answer::answer_of))]
fn passed_over(d: Display) -> Shown
    ensures { result ≡ shown_of (passed_over d) }
{
    Shown {
        answer: Answer::Ignored,
        lost: display_window::none_lost(),
        display: d,
    }
}

// The sender's first DATA: trail and lead are its number.
fn started(d: Display, name: Name, cue: [u8; 24], out: &mut [u8]) -> Shown
    requires { room_needed ≤ length out.old }
    ensures value { result ≡ shown_of (hearing (Got name cue) none_lost (with_window d (start_at name.number.0))) }
    ensures out_after { out.new ≡ buffer_of (Did (Got name cue)) out.old }
{
    let window = Window {
        trail: name.number,
        lead: name.number,
        set: 1,
    };
    Shown {
        answer: hand_out(name, &cue, out),
        lost: display_window::none_lost(),
        display: Display {
            window: Some(window),
            ..d
        },
    }
}

// A cue that is new.
fn got(d: Display, name: Name, cue: [u8; 24], out: &mut [u8]) -> Shown
    requires { Ready d (length out.old) }
    ensures value { result ≡ shown_of (hearing (Got name cue) (lost_by (name.number.0 - 63) d.window) (with_window d (taken name.number.0 d.window))) }
    ensures out_after { out.new ≡ buffer_of (Did (Got name cue)) out.old }
{
    let n = name.number;
    Shown {
        answer: hand_out(name, &cue, out),
        lost: display_window::lost_by(display_window::trail_for(n), d.window),
        display: Display {
            window: display_window::taken(n, d.window),
            ..d
        },
    }
}

// The sender's trail and lead.
#[tactic(auto, unfolding(end::specs::Answer::answer_of))]
fn announced(d: Display, trail: CueNumber, lead: CueNumber) -> Shown
    requires { window_sound d.window ≡ true }
    ensures { result ≡ shown_of (hearing Done (lost_by trail.0 d.window) (with_window d (raised trail.0 lead.0 d.window))) }
{
    Shown {
        answer: Answer::Done,
        lost: display_window::lost_by(trail, d.window),
        display: Display {
            window: display_window::raised(trail, lead, d.window),
            ..d
        },
    }
}

// What a message says to a display that has started, by its kind and sender.
#[tactic(auto, unfolding(end::specs::Answer::buffer_of))]
fn heard_later(
    d: Display,
    cues: bool,
    tells: bool,
    name: Name,
    lead: CueNumber,
    cue: [u8; 24],
    out: &mut [u8],
) -> Shown
    requires { Ready d (length out.old) }
    ensures value { result ≡ shown_of (later_of cues tells name lead cue d) }
    ensures out_after { out.new ≡ buffer_of (Did (later_of cues tells name lead cue d).effect) out.old }
{
    if cues {
        if display_window::is_new(d.window, name.number) {
            got(d, name, cue, out)
        } else {
            passed_over(d)
        }
    } else if tells {
        announced(d, name.number, lead)
    } else {
        passed_over(d)
    }
}

// The parts of a message that a display goes by: a probe, which is read as zeros, is of no kind and is passed over.
fn heard(
    d: Display,
    kind: u8,
    from: Host,
    name: Name,
    lead: CueNumber,
    cue: [u8; 24],
    out: &mut [u8],
) -> Shown
    requires { Ready d (length out.old) }
    ensures value { result ≡ shown_of (heard_in d.window (saying kind from name lead cue) d) }
    ensures out_after { out.new ≡ buffer_of (Did (heard_in d.window (saying kind from name lead cue) d).effect) out.old }
{
    let by_sender = message::same_host(from, d.sender);
    let original = (kind == DATA) & by_sender;
    let repair = (kind == REPL) & message::same_host(name.source, d.sender);
    let tells = (kind == ANNC) & by_sender;
    if d.window.is_some() {
        heard_later(d, original | repair, tells, name, lead, cue, out)
    } else if original {
        started(d, name, cue, out)
    } else {
        passed_over(d)
    }
}

fn heard_message(d: Display, m: Message, out: &mut [u8]) -> Shown
    requires { Ready d (length out.old) }
    ensures value { (M : Meaning) → m ≡ held_as M → result ≡ shown_of (heard_in d.window M d) }
    ensures out_after { (M : Meaning) → m ≡ held_as M → out.new ≡ buffer_of (Did (heard_in d.window M d).effect) out.old }
{
    let [first, second] = m.names;
    heard(
        d,
        m.kind,
        m.sender,
        first.name,
        second.name.number,
        m.cue,
        out,
    )
}

// ---- requests

// The RQST of a number.
fn request_for(d: Display, number: CueNumber) -> Message
    ensures result_value { meaning_of result ≡ request_for d number.0 }
    ensures small { Small (number_width result.kind) result.counts }
{
    let asked = NameEntry {
        name: Name {
            source: d.sender,
            number,
        },
        host: d.own,
    };
    Message {
        kind: RQST,
        sender: d.own,
        stamp: d.clock,
        counts: Counts {
            names: 1,
            cues: 0,
            reports: 0,
            echoes: 0,
        },
        names: [asked, message::no_name()],
        cue: [0; 24],
        reports: [message::no_report(); 8],
        echoes: [message::no_echo(); 7],
    }
}

fn requested(d: Display, number: CueNumber, out: &mut [u8]) -> Shown
    requires { room_needed ≤ length out.old }
    ensures value { result ≡ shown_of (request_if (Some number.0) d) }
    ensures out_after { out.new ≡ buffer_of (Did (request_if (Some number.0) d).effect) out.old }
{
    let len = layout::put_message(out, request_for(d, number));
    Shown {
        answer: Answer::Out(len),
        lost: display_window::none_lost(),
        display: d,
    }
}

#[tactic(auto, unfolding(end::specs::Answer::answer_of))]
fn nothing_missing(d: Display) -> Shown
    ensures { result ≡ shown_of (request_if None d) }
{
    Shown {
        answer: Answer::Nothing,
        lost: display_window::none_lost(),
        display: d,
    }
}

fn stepped(d: Display, out: &mut [u8]) -> Shown
    requires { Ready d (length out.old) }
    ensures value { result ≡ shown_of (step_of d) }
    ensures out_after { out.new ≡ buffer_of (Did (step_of d).effect) out.old }
{
    match display_window::lowest_missing(d.window) {
        Some(n) => requested(d, n, out),
        None => nothing_missing(d),
    }
}

// ---- the calls

// Questions 1, 3, 4 and 5, before others that gave this verdict.
fn asked(d: Display, clock: u64, room: usize, verdict: Verdict) -> Result<(), Refusal>
    ensures { result ≡ outcome (first_of d clock room (refusal_of verdict)) }
{
    message::ask(ROOM_NEEDED <= room, 1)?;
    message::ask(sound(d), 3)?;
    message::ask(clock < TICKS_LIMIT, 4)?;
    message::ask(d.clock <= clock, 5)?;
    match message::number_of(verdict) {
        0 => Ok(()),
        number => Err(Refusal(number)),
    }
}

#[tactic(auto, unfolding(end::specs::Answer::answer_of))]
fn refused(refusal: Refusal, d: Display) -> Shown
    ensures { result ≡ record { answer = answer_of (Refused refusal.0); lost = none_lost; display = d } }
{
    Shown {
        answer: Answer::Refused(refusal.0),
        lost: display_window::none_lost(),
        display: d,
    }
}

// Hear: a display takes a message. After questions 1 and 3 to 5 it asks the reader's, 8 to 11.
pub fn hear(d: Display, clock: u64, bytes: &[u8], out: &mut [u8]) -> Shown
    ensures value { result ≡ gives d (Hear bytes.now) clock out.old }
    ensures out_after { out.new ≡ leaves d (Hear bytes.now) clock out.old }
{
    let reading = reader::read(bytes);
    match asked(d, clock, out.len(), reading.verdict) {
        Ok(()) => heard_message(Display { clock, ..d }, reading.message, out),
        Err(refusal) => refused(refusal, d),
    }
}

// Step: the RQST of the lowest missing number goes out.
pub fn step(d: Display, clock: u64, out: &mut [u8]) -> Shown
    ensures value { result ≡ gives d Step clock out.old }
    ensures out_after { out.new ≡ leaves d Step clock out.old }
{
    match asked(d, clock, out.len(), Verdict::Accepted) {
        Ok(()) => stepped(Display { clock, ..d }, out),
        Err(refusal) => refused(refusal, d),
    }
}
