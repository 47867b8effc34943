// A message about a name is heeded: what is decided (`decide`) is done to the name's source, and answered and put out. Each function is one
// definition of the crate end, specs/Decide.antt. They are helpers of the crates above and no calls of the product: each asks in its
// `requires` for what soundness and the questions give.
#![tactic(auto)]

ghost use Rattle.std.specs.Prelude.{◌≡◌, ◌≤◌, length};
ghost use Rattle.message.specs.Limit.{room_needed};
ghost use Rattle.end.specs.declared.Decision.TheVariants.{Repairs};
ghost use Rattle.end.specs.Answer.{Did, answer_of, buffer_of};
ghost use Rattle.end.specs.Ready.{Ranges, Numbered};
ghost use Rattle.end.specs.Round.{next_round};
ghost use Rattle.end.specs.Names.{set_round, hold, quiet_reply};
ghost use Rattle.end.specs.Decide.{number, risen, risen_by_data, paired, opened, decide, apply, effect_of};
ghost use Rattle.state.specs.Counted.{Counted};
ghost use Rattle.heed.specs.Step.{Heeded, decided_effect};

use end::{Answer, Decision, Draw, Moment, Record, Source, Word};
use message::REPL;

// ---- what is done

// The first cue of a source: its first original.
fn open_source(w: Word, s: Source) -> Source
    ensures { result ≡ hold (number w) w.cue (opened w s) }
{
    let open = records::open_at(s, w.name.number);
    records::hold_cue(open, w.name.number, w.cue)
}

// A later DATA of an open source: the numbers between are asked for, by the kept requester also express, and it is held.
fn take_cue(t: Moment, draws: &[Draw], w: Word, s: Source) -> Source
    requires ranges { Ranges t s.distance }
    requires numbered { Numbered (number w) (length draws.now) }
    requires counted { Counted s }
    ensures { result ≡ hold (number w) w.cue (risen_by_data t draws.now w s) }
{
    let higher = rises::rise_by_data(s, t, draws, w.name.number);
    records::hold_cue(higher, w.name.number, w.cue)
}

// A REPL that is heeded: its waiting reply goes, its quiet time is set, and its requester and sender are kept.
fn hush(t: Moment, w: Word, s: Source) -> Source
    requires { Ranges t w.distance }
    ensures { result ≡ paired w (quiet_reply t (number w) w.distance s) }
{
    let n = w.name.number;
    let quieted = records::quiet_reply(s, t, n, w.distance);
    records::keep_pair(quieted, w.requester, w.sender, n)
}

// A REPL of a cue that is not held: the numbers between are asked for, and it is held.
fn repair(t: Moment, draws: &[Draw], w: Word, s: Source) -> Source
    requires { Heeded t w s (length draws.now) }
    ensures { result ≡ apply t draws.now w Repairs s }
{
    let higher = rises::rise_to(s, t, draws, w.name.number);
    hush(t, w, records::hold_cue(higher, w.name.number, w.cue))
}

// The numbers up to this one are asked for, this one in round 2.
fn learn(t: Moment, draws: &[Draw], w: Word, s: Source) -> Source
    requires ranges { Ranges t s.distance }
    requires numbered { Numbered (number w) (length draws.now) }
    requires counted { Counted s }
    ensures { result ≡ set_round t draws.now (number w) 2 (risen t draws.now w s) }
{
    let n = w.name.number;
    let higher = rises::rise_to(s, t, draws, n);
    records::set_round(higher, t, draws, n, 2)
}

// The round after k, which waits.
fn back_off(t: Moment, draws: &[Draw], w: Word, k: u8, s: Source) -> Source
    requires ranges { Ranges t s.distance }
    requires numbered { Numbered (number w) (length draws.now) }
    ensures { result ≡ set_round t draws.now (number w) (next_round k) s }
{
    records::set_round(s, t, draws, w.name.number, timing::next_round(k))
}

// What the decision does.
#[tactic(auto, unfolding(end::specs::Decide::apply))]
fn apply(t: Moment, draws: &[Draw], w: Word, d: Decision, s: Source) -> Source
    requires { Heeded t w s (length draws.now) }
    ensures { result ≡ apply t draws.now w d s }
{
    let n = w.name.number;
    match d {
        Decision::Ignores(_) | Decision::Clashes => s,
        Decision::Opens => open_source(w, s),
        Decision::Takes => take_cue(t, draws, w, s),
        Decision::Repairs => repair(t, draws, w, s),
        Decision::Hushes => hush(t, w, s),
        Decision::Replies => records::set_reply(s, t, draws, n, w.distance, w.requester),
        Decision::Learns => learn(t, draws, w, s),
        Decision::BacksOff(k) => back_off(t, draws, w, k, s),
        Decision::Expresses => records::quiet_reply(s, t, n, w.distance),
    }
}

// ---- what is answered

// What the decision answers and puts out: a cue that is new, in the first output bytes, or as a REPL the one that the record holds.
#[tactic(auto, unfolding(end::specs::Decide::effect_of, end::specs::Answer::answer_of, end::specs::Answer::buffer_of))]
fn answer_of(t: Moment, w: Word, r: Record, d: Decision, out: &mut [u8]) -> Answer
    requires { room_needed ≤ length out.old }
    ensures value { result ≡ answer_of (Did (effect_of t w r d)) }
    ensures out_after { out.new ≡ buffer_of (Did (effect_of t w r d)) out.old }
{
    match d {
        Decision::Ignores(_) => Answer::Ignored,
        Decision::Opens | Decision::Takes | Decision::Repairs => {
            numbers::put_bytes(out, 0, &w.cue);
            Answer::Got(w.name)
        }
        Decision::Hushes | Decision::Replies | Decision::Learns | Decision::BacksOff(_) => {
            Answer::Done
        }
        Decision::Clashes => Answer::Clash(w.name),
        Decision::Expresses => compose::put_name(REPL, t, w.name, w.requester, Some(r.cue), out),
    }
}

// ---- the whole step

// A message about a name, on the name's source: what is decided is done, and answered.
pub fn step(t: Moment, draws: &[Draw], w: Word, s: &mut Source, out: &mut [u8]) -> Answer
    requires heeded { Heeded t w s.old (length draws.now) }
    requires room_needed_in_bounds { room_needed ≤ length out.old }
    ensures value { result ≡ answer_of (Did (decided_effect t w s.old)) }
    ensures source { s.new ≡ apply t draws.now w (decide t w s.old) s.old }
    ensures out_after { out.new ≡ buffer_of (Did (decided_effect t w s.old)) out.old }
{
    let known = records::record_at(*s, w.name.number);
    let d = decide::decide(t, w, known, s.span);
    *s = apply(t, draws, w, d, *s);
    answer_of(t, w, known, d, out)
}
