// The one frame of all events: the questions, the crashed end, the clock, membership. What an event that is taken does is the crate acting's.
// Its promise, specs/Promise.antt, is that of every event's call. It is a helper of the crate link and no call of the product: it asks in its
// `requires` for the reading that goes with the event.
#![tactic(auto)]

ghost use Rattle.std.specs.Prelude.{◌≡◌, ℕ, List};
ghost use Rattle.end.specs.Event.{action_of};
ghost use Rattle.taking.specs.Taking.{reading_for};
ghost use Rattle.frame.specs.Promise.{Promised};
ghost use Rattle.frame.specs.Frame.{Brought};

use end::{Answer, Draw, End, Event, Stepped};
use message::Reading;

// What the event answers, and does to the end, in its place. A refusal changes nothing; an unrefused event sets the clock, but on a crashed end.
fn answer(
    e: &mut End,
    clock: u64,
    draws: &[Draw],
    what: Event,
    cue: [u8; 24],
    reading: Reading,
    out: &mut [u8],
) -> Answer
    requires { Brought what reading }
    ensures { (bytes : List ℕ) → reading ≡ reading_for what bytes → Promised e.old (action_of what cue bytes) clock draws.now out.old (record { answer = result; end = e.new }) out.new }
{
    let verdict = reading.verdict;
    let number = questions::refusal(*e, clock, out.len(), draws.len(), what, cue, verdict);
    if number != 0 {
        return Answer::Refused(number);
    }
    if state::is_crashed(e.status) {
        return Answer::Ignored;
    }
    e.clock = clock;
    let taken = taking::taken_as(what, taking::is_probe(verdict));
    if taking::takes(taken, e.status) {
        acting::act(e, draws, taken, cue, reading.message, out)
    } else {
        Answer::Ignored
    }
}

// The frame of an event, once its bytes are read.
pub fn frame(
    e: End,
    clock: u64,
    draws: &[Draw],
    what: Event,
    cue: [u8; 24],
    reading: Reading,
    out: &mut [u8],
) -> Stepped
    requires { Brought what reading }
    ensures { (bytes : List ℕ) → reading ≡ reading_for what bytes → Promised e (action_of what cue bytes) clock draws.now out.old result out.new }
{
    let mut end = e;
    let answer = answer(&mut end, clock, draws, what, cue, reading, out);
    Stepped { answer, end }
}
