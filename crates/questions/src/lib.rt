// The questions that an event asks before it moves an end: `question_of` of the crate end, specs/Event.antt. A question that is answered
// no gives its number; otherwise the questions after it decide.
#![tactic(auto)]

ghost use Rattle.std.specs.Prelude.{◌≡◌, cond, List, ℕ, leb};
ghost use Rattle.message.specs.Question.{first_no, ticks_in};
ghost use Rattle.end.specs.Sound.{sound_of};
ghost use Rattle.end.specs.Event.{Send, action_of, own_questions, question_of};
ghost use Rattle.end.specs.Why.{refused_as};
ghost use Rattle.questions.specs.Read.{ReadAs};

use end::{DRAWS, End, Event, NUMBERS};
use message::{ROOM_NEEDED, TICKS_LIMIT, Verdict};

// Questions 6 and 7: only a member's Send takes a number.
fn send_refusal(e: End, cue: [u8; 24]) -> u8
    ensures { result ≡ first_no (own_questions (Send cue) e) }
{
    let status = e.status;
    let numbered = !state::is_member(status) | (e.next < NUMBERS);
    let seven = message::asked(numbered, 7, 0);
    message::asked(message::cue_in(&cue), 6, seven)
}

// An event's own questions: Send's, and the reader's of an arrival.
fn own_refusal(e: End, what: Event, cue: [u8; 24], verdict: Verdict) -> u8
    ensures { (bytes : List ℕ) → ReadAs what verdict bytes → result ≡ first_no (own_questions (action_of what cue bytes) e) }
{
    match what {
        Event::Moves(_) => 0,
        Event::Send => send_refusal(e, cue),
        Event::Arrival => message::number_of(verdict),
        Event::Fire => 0,
        Event::Report => 0,
        Event::Fetch(_) => 0,
        Event::Announce => 0,
    }
}

// Questions 3, 4 and 5, before others whose first no is `rest`.
fn state_refusal(e: End, clock: u64, rest: u8) -> u8
    ensures { result ≡ cond (sound_of e) (cond (ticks_in clock) (cond (leb e.clock clock) rest 5) 4) 3 }
{
    let five = message::asked(e.clock <= clock, 5, rest);
    let four = message::asked(clock < TICKS_LIMIT, 4, five);
    message::asked(sound::sound(e), 3, four)
}

// The first no of those that need neither output nor draws: the reason call's.
pub fn refused_as(e: End, clock: u64, what: Event, cue: [u8; 24], verdict: Verdict) -> u8
    ensures { (bytes : List ℕ) → ReadAs what verdict bytes → result ≡ refused_as e clock (action_of what cue bytes) }
{
    let own = own_refusal(e, what, cue, verdict);
    state_refusal(e, clock, own)
}

// The first no of a call, 0 where every answer is yes. `verdict` is the reader's where the event is an arrival. The state is tested
// once, and only where the output and the draws are as they must be.
pub fn refusal(
    e: End,
    clock: u64,
    room: usize,
    draws: usize,
    what: Event,
    cue: [u8; 24],
    verdict: Verdict,
) -> u8
    ensures { (bytes : List ℕ) → ReadAs what verdict bytes → result ≡ question_of e (action_of what cue bytes) clock room draws }
{
    let own = own_refusal(e, what, cue, verdict);
    if ROOM_NEEDED <= room {
        if draws == DRAWS {
            state_refusal(e, clock, own)
        } else {
            2
        }
    } else {
        1
    }
}
