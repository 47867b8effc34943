// What a member, its clock set, does with a message that passed its questions: the definition `arrival_of` of the crate end,
// specs/Arrival.antt, with its answer and its output. A message is steps on single sources (specs/Steps.antt), each in its place in the end.
// Nothing here refuses, tests the membership or sets the clock: these are the calls' frame, in the crate frame. What a message says is the crate
// says, and what a SESS does to a source the crate session. Helpers of the crates above and no calls of the product: each asks in its `requires`
// for what soundness and the questions give.
#![tactic(auto)]

ghost use Rattle.std.specs.Prelude.{◌≡◌, true, ◌-◌, length};
ghost use Rattle.message.specs.Limit.{number_limit};
ghost use Rattle.message.specs.Message.{meaning_of};
ghost use Rattle.message.specs.Question.{in_range};
ghost use Rattle.end.specs.Answer.{Did, answer_of, done, called_of, buffer_of};
ghost use Rattle.end.specs.Session.{all_reported};
ghost use Rattle.end.specs.Why.{because};
ghost use Rattle.end.specs.Arrival.{arrival_of};
ghost use Rattle.receive.specs.Steps.{unnamed_effect, unnamed_source, effect_on, left_on};
ghost use Rattle.receive.specs.Reason.{named_reason, fetch_reason, reason_for};
ghost use Rattle.receive.specs.Hearing.{AllCounted, Reporting, Hearing, HeardOn, HearingOn};

use end::{Answer, Draw, End, Moment, Reason, Source, Why};
use message::{ANNC, FTCH, LATE, Message, Report};

// ---- why a message is ignored

// What is decided on a message about a name, if it is that the message is ignored. No distance is looked at.
fn named_reason(e: End, m: Message) -> Why
    requires { in_range (number_limit - 1) (meaning_of m) ≡ true }
    ensures { result ≡ because (named_reason (meaning_of m) e) }
{
    let t = state::moment_of(e);
    let w = says::word_in(m, 0);
    let at = w.name.source.0 as usize;
    let s = e.sources[at];
    let known = records::record_at(s, w.name.number);
    let span = s.span;
    let d = decide::decide(t, w, known, span);
    decide::reason_of(d)
}

// Why a message of the kinds 22 and 23 is ignored, if it is; a SESS and a kind 24 never are.
fn fetch_reason(e: End, m: Message) -> Why
    requires { in_range (number_limit - 1) (meaning_of m) ≡ true }
    ensures { result ≡ because (fetch_reason (meaning_of m) e) }
{
    let entry = says::entry_of(m);
    let sender = m.sender;
    let at = entry.name.source.0 as usize;
    let s = e.sources[at];
    let answers = candidates::may_answer(e.host, entry, s);
    let hands = candidates::may_hand(e.host, entry, sender, s);
    let none = ((m.kind == FTCH) & !answers) | ((m.kind == LATE) & !hands);
    if none {
        Why::Because(Reason::NoFetch)
    } else {
        Why::NoReason
    }
}

// The reasons of a member, its clock set: a message of one's own, or what the message's kind has for one.
pub fn reason(e: End, m: Message) -> Why
    requires { in_range (number_limit - 1) (meaning_of m) ≡ true }
    ensures { result ≡ because (reason_for (meaning_of m) e) }
{
    if m.sender.0 == e.host.0 {
        return Why::Because(Reason::OwnMessage);
    }
    if says::is_named(m.kind) {
        named_reason(e, m)
    } else {
        fetch_reason(e, m)
    }
}

// ---- a message of any kind

// The step of the kinds 22 to 24 and of SESS on the source that it is about. Kind 24 is for displays, and changes nothing.
#[tactic(auto, unfolding(end::specs::Answer::answer_of, end::specs::Answer::buffer_of))]
fn step_unnamed(t: Moment, m: Message, s: &mut Source, out: &mut [u8]) -> Answer
    requires { HeardOn t m (length out.old) }
    ensures value { result ≡ answer_of (Did (unnamed_effect t (meaning_of m) s.old)) }
    ensures source { s.new ≡ unnamed_source t (meaning_of m) s.old }
    ensures out_after { out.new ≡ buffer_of (Did (unnamed_effect t (meaning_of m) s.old)) out.old }
{
    match m.kind {
        FTCH => fetch::answer_fetch(t, says::entry_of(m), m.sender, s, out),
        LATE => fetch::hand_late(t.me, says::entry_of(m), m.sender, says::cue_of(m), s, out),
        ANNC => Answer::Done,
        _ => {
            *s = session::hear(t, m, *s);
            Answer::Done
        }
    }
}

// Its step on the source that it is about, with the distance d to who asked. A message of one's own is ignored.
#[tactic(auto, unfolding(crate::specs::Steps::effect_on, crate::specs::Steps::left_on, end::specs::Answer::answer_of, end::specs::Answer::buffer_of))]
fn step_source(
    t: Moment,
    draws: &[Draw],
    m: Message,
    d: u64,
    s: &mut Source,
    out: &mut [u8],
) -> Answer
    requires { HearingOn t s.old d m (length draws.now) (length out.old) }
    ensures value { result ≡ answer_of (Did (effect_on t d (meaning_of m) s.old)) }
    ensures source { s.new ≡ left_on t draws.now d (meaning_of m) s.old }
    ensures out_after { out.new ≡ buffer_of (Did (effect_on t d (meaning_of m) s.old)) out.old }
{
    if m.sender.0 == t.me.0 {
        Answer::Ignored
    } else if says::is_named(m.kind) {
        heed::step(t, draws, says::word_in(m, d), s, out)
    } else {
        step_unnamed(t, m, s, out)
    }
}

// The reports step their sources one by one.
fn take_reports(e: &mut End, t: Moment, draws: &[Draw], reports: &[Report])
    requires { Reporting t e.old reports.now (length draws.now) }
    ensures left { e.new ≡ all_reported t draws.now reports.now e.old }
    ensures counted { AllCounted e.new }
{
    for r in reports {
        let at = r.source.0 as usize;
        e.sources[at] = session::report(t, draws, *r, e.sources[at]);
    }
}

// Arrival: the reports step their sources, and then the message the source that it is about.
pub fn arrival(e: &mut End, draws: &[Draw], m: Message, out: &mut [u8]) -> Answer
    requires { Hearing e.old m (length draws.now) (length out.old) }
    ensures value { called_of (done (arrival_of draws.now (meaning_of m) e.old)) ≡ record { answer = result; end = e.new } }
    ensures out_after { out.new ≡ buffer_of (Did (arrival_of draws.now (meaning_of m) e.old).effect) out.old }
{
    let t = state::moment_of(*e);
    let d = e.sources[says::asker_in(m).0 as usize].distance;
    let count = says::report_count(t.me, m);
    take_reports(e, t, draws, &m.reports[..count]);
    let at = says::subject_of(m).0 as usize;
    step_source(t, draws, m, d, &mut e.sources[at], out)
}
