// What a call takes its event for: the reading that goes with it, a probe as a Report, and whether an end takes it. Each function is one
// definition of specs/Taking.antt. Helpers of the calls' frame and of the reason call, and no calls of the product.
#![tactic(auto)]

ghost use Rattle.std.specs.Prelude.{◌≡◌};
ghost use Rattle.taking.specs.Taking.{nothing_read, reading_for, is_probe, taken_as, takes};

use end::{Event, Status};
use message::{Reading, Verdict};

// The reading of an event that brings no bytes: nothing is refused.
pub fn unread() -> Reading
    ensures { result ≡ nothing_read }
{
    Reading {
        verdict: Verdict::Accepted,
        message: message::blank(),
    }
}

// Only an arrival brings bytes.
pub fn reading_for(what: Event, bytes: &[u8]) -> Reading
    ensures { result ≡ reading_for what bytes.now }
{
    match what {
        Event::Arrival => reader::read(bytes),
        _ => unread(),
    }
}

// Only the reader says so, and only of no bytes.
pub fn is_probe(verdict: Verdict) -> bool
    ensures { result ≡ is_probe verdict }
{
    matches!(verdict, Verdict::Probe)
}

// The event that a call counts as: a probe is a Report.
pub fn taken_as(what: Event, probe: bool) -> Event
    ensures { result ≡ taken_as what probe }
{
    if probe { Event::Report } else { what }
}

// Whether an end that is not crashed takes the event.
pub fn takes(what: Event, status: Status) -> bool
    ensures { result ≡ takes what status }
{
    matches!(what, Event::Moves(_)) || state::is_member(status)
}
