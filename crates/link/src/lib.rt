// The calls of the product: opening an end, its eleven events, when to fire, and why an event would be ignored. No call asks anything of its caller: what is
// bad is refused by its number, and a refusal changes no byte. All events are one call, `event`, and have one frame, `frame::frame`: the
// questions, the crashed end, the clock, membership. Each contract gives the answer and the end by `gives` and the output by `leaves`:
// the crate end, specs/Event.antt. The last says document 01's number of the answer, 0 where the call was not refused, and its values:
// the crate frame, specs/Promise.antt.
#![tactic(auto)]

ghost use Rattle.std.specs.Prelude.{◌≡◌};
ghost use Rattle.message.specs.Question.{refusal_of};
ghost use Rattle.end.specs.declared.Move.TheVariants.{Join, Joined, Leave, Left, Crash};
ghost use Rattle.end.specs.Opening.{open_refusal, opening_of};
ghost use Rattle.end.specs.Event.{Moves, Send, Arrival, Else, Fire, Report, Fetch, Announce, action_of, gives, leaves};
ghost use Rattle.end.specs.Why.{refused_as, why_of, why_refusal};
ghost use Rattle.end_due.specs.Due.{due_of};
ghost use Rattle.end_reopen.specs.Reopening.{reopen_refusal, reopening_of};
ghost use Rattle.frame.specs.Promise.{AnswerIs};

use end::{Draw, End, Event, Move, Opened, Params, Stepped, Why};
use message::{Host, Name};

// Opens an end: questions 12, 13 and 14. Refused, it gives host 0's crashed end beside the number.
pub fn open(me: Host, params: Params) -> Opened
    ensures value { result ≡ opening_of me params }
    ensures verdict_value { refusal_of result.verdict ≡ open_refusal me params }
{
    membership::opening(me, params)
}

// Opens an end again after a restart, with the clock and the next own number that were stored: questions 12, 13, 14, 4 and 7. Of an end with this
// host, these parameters and this next number that is a member or joining, or that came from an opening and did not crash, it is the very end that
// Leave and then Left leave at that clock (lent_runs: Reopening). Refused, it gives what a refused opening gives.
pub fn reopen(me: Host, params: Params, clock: u64, next: u64) -> Opened
    ensures value { result ≡ reopening_of me params clock next }
    ensures verdict_value { refusal_of result.verdict ≡ reopen_refusal me params clock next }
{
    end_reopen::reopening(me, params, clock, next)
}

// ---- when to fire

// The least due time of all waits, 2^64−1 where nothing waits: a member's Fire before it answers Nothing, and from it on it puts a message out.
// Of an end that is not sound it is 2^64−1 too.
pub fn next_due(e: End) -> u64
    ensures { result ≡ due_of e }
{
    if sound::sound(e) {
        return end_due::next_due(e);
    }
    18446744073709551615
}

// ---- one call for all events

// An event of an end: the one call of which the others are cases. `cue` counts where the event is Send, `bytes` where it is Arrival.
pub fn event(
    e: End,
    clock: u64,
    draws: &[Draw],
    what: Event,
    cue: [u8; 24],
    bytes: &[u8],
    out: &mut [u8],
) -> Stepped
    ensures value { result ≡ gives e (action_of what cue bytes.now) clock draws.now out.old }
    ensures out_after { out.new ≡ leaves e (action_of what cue bytes.now) clock draws.now out.old }
    ensures answer_is { AnswerIs e (action_of what cue bytes.now) clock draws.now out.old result.answer }
{
    let reading = taking::reading_for(what, bytes);
    frame::frame(e, clock, draws, what, cue, reading, out)
}

// ---- the reason call

// Why an event would be ignored, or the number that would refuse it. Nothing is lent to write, and there are neither an output nor draws, so
// questions 1 and 2 are not asked.
pub fn reason(e: End, clock: u64, what: Event, cue: [u8; 24], bytes: &[u8]) -> Why
    ensures value { result ≡ why_of e clock (action_of what cue bytes.now) }
    ensures result_value { why_refusal result ≡ refused_as e clock (action_of what cue bytes.now) }
{
    reasons::reason(e, clock, what, cue, bytes)
}

// ---- the calls

// A move of the membership.
fn moved(e: End, clock: u64, draws: &[Draw], m: Move, out: &mut [u8]) -> Stepped
    ensures value { result ≡ gives e (Moves m) clock draws.now out.old }
    ensures out_after { out.new ≡ leaves e (Moves m) clock draws.now out.old }
    ensures answer_is { AnswerIs e (Moves m) clock draws.now out.old result.answer }
{
    let reading = taking::unread();
    frame::frame(e, clock, draws, Event::Moves(m), [0; 24], reading, out)
}

// Join: idle to joining.
pub fn join(e: End, clock: u64, draws: &[Draw], out: &mut [u8]) -> Stepped
    ensures value { result ≡ gives e (Moves Join) clock draws.now out.old }
    ensures out_after { out.new ≡ leaves e (Moves Join) clock draws.now out.old }
    ensures answer_is { AnswerIs e (Moves Join) clock draws.now out.old result.answer }
{
    moved(e, clock, draws, Move::Join, out)
}

// Joined: joining to member.
pub fn joined(e: End, clock: u64, draws: &[Draw], out: &mut [u8]) -> Stepped
    ensures value { result ≡ gives e (Moves Joined) clock draws.now out.old }
    ensures out_after { out.new ≡ leaves e (Moves Joined) clock draws.now out.old }
    ensures answer_is { AnswerIs e (Moves Joined) clock draws.now out.old result.answer }
{
    moved(e, clock, draws, Move::Joined, out)
}

// Leave: joining or member to leaving.
pub fn leave(e: End, clock: u64, draws: &[Draw], out: &mut [u8]) -> Stepped
    ensures value { result ≡ gives e (Moves Leave) clock draws.now out.old }
    ensures out_after { out.new ≡ leaves e (Moves Leave) clock draws.now out.old }
    ensures answer_is { AnswerIs e (Moves Leave) clock draws.now out.old result.answer }
{
    moved(e, clock, draws, Move::Leave, out)
}

// Left: leaving to idle.
pub fn left(e: End, clock: u64, draws: &[Draw], out: &mut [u8]) -> Stepped
    ensures value { result ≡ gives e (Moves Left) clock draws.now out.old }
    ensures out_after { out.new ≡ leaves e (Moves Left) clock draws.now out.old }
    ensures answer_is { AnswerIs e (Moves Left) clock draws.now out.old result.answer }
{
    moved(e, clock, draws, Move::Left, out)
}

// Crash: to crashed, for good.
pub fn crash(e: End, clock: u64, draws: &[Draw], out: &mut [u8]) -> Stepped
    ensures value { result ≡ gives e (Moves Crash) clock draws.now out.old }
    ensures out_after { out.new ≡ leaves e (Moves Crash) clock draws.now out.old }
    ensures answer_is { AnswerIs e (Moves Crash) clock draws.now out.old result.answer }
{
    moved(e, clock, draws, Move::Crash, out)
}

// Send: a member's cue goes out under its next number.
pub fn send(e: End, clock: u64, draws: &[Draw], cue: [u8; 24], out: &mut [u8]) -> Stepped
    ensures value { result ≡ gives e (Send cue) clock draws.now out.old }
    ensures out_after { out.new ≡ leaves e (Send cue) clock draws.now out.old }
    ensures answer_is { AnswerIs e (Send cue) clock draws.now out.old result.answer }
{
    let reading = taking::unread();
    frame::frame(e, clock, draws, Event::Send, cue, reading, out)
}

// Arrival: a member takes a message, and no bytes as a Report. After questions 1 to 5 it asks the reader's, 8 to 11.
pub fn arrival(e: End, clock: u64, draws: &[Draw], bytes: &[u8], out: &mut [u8]) -> Stepped
    ensures value { result ≡ gives e (Arrival bytes.now) clock draws.now out.old }
    ensures out_after { out.new ≡ leaves e (Arrival bytes.now) clock draws.now out.old }
    ensures answer_is { AnswerIs e (Arrival bytes.now) clock draws.now out.old result.answer }
{
    let reading = reader::read(bytes);
    frame::frame(e, clock, draws, Event::Arrival, [0; 24], reading, out)
}

// Fire: the earliest wait that is due goes out.
pub fn fire(e: End, clock: u64, draws: &[Draw], out: &mut [u8]) -> Stepped
    ensures value { result ≡ gives e (Else Fire) clock draws.now out.old }
    ensures out_after { out.new ≡ leaves e (Else Fire) clock draws.now out.old }
    ensures answer_is { AnswerIs e (Else Fire) clock draws.now out.old result.answer }
{
    let reading = taking::unread();
    frame::frame(e, clock, draws, Event::Fire, [0; 24], reading, out)
}

// Report: a session message goes out.
pub fn report(e: End, clock: u64, draws: &[Draw], out: &mut [u8]) -> Stepped
    ensures value { result ≡ gives e (Else Report) clock draws.now out.old }
    ensures out_after { out.new ≡ leaves e (Else Report) clock draws.now out.old }
    ensures answer_is { AnswerIs e (Else Report) clock draws.now out.old result.answer }
{
    let reading = taking::unread();
    frame::frame(e, clock, draws, Event::Report, [0; 24], reading, out)
}

// Fetch: the nearest host that was not tried yet is asked for a cue from before the first original of its source.
pub fn fetch(e: End, clock: u64, draws: &[Draw], name: Name, out: &mut [u8]) -> Stepped
    ensures value { result ≡ gives e (Else (Fetch name)) clock draws.now out.old }
    ensures out_after { out.new ≡ leaves e (Else (Fetch name)) clock draws.now out.old }
    ensures answer_is { AnswerIs e (Else (Fetch name)) clock draws.now out.old result.answer }
{
    let reading = taking::unread();
    frame::frame(e, clock, draws, Event::Fetch(name), [0; 24], reading, out)
}

// Announce: the own first and last go out, for displays.
pub fn announce(e: End, clock: u64, draws: &[Draw], out: &mut [u8]) -> Stepped
    ensures value { result ≡ gives e (Else Announce) clock draws.now out.old }
    ensures out_after { out.new ≡ leaves e (Else Announce) clock draws.now out.old }
    ensures answer_is { AnswerIs e (Else Announce) clock draws.now out.old result.answer }
{
    let reading = taking::unread();
    frame::frame(e, clock, draws, Event::Announce, [0; 24], reading, out)
}
