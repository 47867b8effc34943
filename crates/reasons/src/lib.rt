// Why an event would be ignored: the reason call, and what it finds of an event that is not refused, one definition of specs/Reason.antt each.
// The crate link gives the call under its own name.
#![tactic(auto)]

ghost use Rattle.std.specs.Prelude.{◌≡◌};
ghost use Rattle.message.specs.Message.{meaning_of};
ghost use Rattle.end.specs.Event.{action_of};
ghost use Rattle.end.specs.State.{with_clock};
ghost use Rattle.end.specs.Why.{refused_as, because, why_of, why_refusal};
ghost use Rattle.reasons.specs.Reason.{suits, Heard, fetch_reason, member_reason, first_reason};

use end::{End, Event, Reason, Status, Why};
use message::{Message, Name};

// Whether the end's status lets it do what the event asks.
fn suits(what: Event, status: Status) -> bool
    ensures { result ≡ suits what status }
{
    let taken = taking::takes(what, status);
    match what {
        Event::Moves(m) => membership::may_move(m, status),
        Event::Send => taken,
        Event::Arrival => taken,
        Event::Fire => taken,
        Event::Report => taken,
        Event::Fetch(_) => taken,
        Event::Announce => taken,
    }
}

// Why a member's fetch is ignored, if it is.
fn fetch_reason(end: End, name: Name) -> Why
    ensures { result ≡ because (fetch_reason name end) }
{
    if candidates::may_fetch(end, name) {
        Why::NoReason
    } else {
        Why::Because(Reason::NoFetch)
    }
}

// A fetch that a member may not make is ignored; of its other events only an arrival may be.
fn member_reason(end: End, what: Event, message: Message) -> Why
    requires { Heard what message }
    ensures { result ≡ because (member_reason what (meaning_of message) end) }
{
    match what {
        Event::Moves(_) => Why::NoReason,
        Event::Send => Why::NoReason,
        Event::Arrival => receive::reason(end, message),
        Event::Fire => Why::NoReason,
        Event::Report => Why::NoReason,
        Event::Fetch(name) => fetch_reason(end, name),
        Event::Announce => Why::NoReason,
    }
}

// Why an event that is not refused is ignored, if it is.
fn unrefused_reason(e: End, clock: u64, what: Event, message: Message) -> Why
    requires { Heard what message }
    ensures { result ≡ because (first_reason what (meaning_of message) (with_clock e clock)) }
{
    let status = e.status;
    if state::is_crashed(status) {
        return Why::Because(Reason::Crashed);
    }
    if suits(what, status) {
        let end = state::with_clock(e, clock);
        member_reason(end, what, message)
    } else {
        Why::Because(Reason::WrongStatus)
    }
}

// Why an event would be ignored, or the number that would refuse it. Nothing is lent to write, and there are neither an output nor draws, so
// questions 1 and 2 are not asked.
pub fn reason(e: End, clock: u64, what: Event, cue: [u8; 24], bytes: &[u8]) -> Why
    ensures value { result ≡ why_of e clock (action_of what cue bytes.now) }
    ensures result_value { why_refusal result ≡ refused_as e clock (action_of what cue bytes.now) }
{
    let reading = taking::reading_for(what, bytes);
    let said = reading.verdict;
    let message = reading.message;
    let q = questions::refused_as(e, clock, what, cue, said);
    let probe = taking::is_probe(said);
    let taken = taking::taken_as(what, probe);
    if q == 0 {
        unrefused_reason(e, clock, taken, message)
    } else {
        Why::Refused(q)
    }
}
