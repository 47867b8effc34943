// Fetching what came before, of a member whose clock is set: the event Fetch, `fetch_of`, and the kinds 22 and 23, `fetched_of` and `late_of`,
// of the crate end, specs/Fetch.antt; what is chosen in them is the crate candidates'. The event changes one source, in its place in the end. A
// message of kind 22 or 23 is a step on the one source that its name is of (specs/Steps.antt), as the crate heed's. They are helpers of the crates
// above and no calls of the product: what they ask for in their `requires` the call has seen to.
#![tactic(auto)]

ghost use Rattle.std.specs.Prelude.{◌≡◌, ◌≤◌, ◌<◌, length};
ghost use Rattle.message.specs.Limit.{host_limit, room_needed};
ghost use Rattle.end.specs.Answer.{Did, done, answer_of, called_of, buffer_of};
ghost use Rattle.end.specs.Fetch.{fetch_of};
ghost use Rattle.fetch.specs.Steps.{answered_effect, late_effect, late_source};

use end::{Answer, Attempt, End, Moment, Source};
use message::{FTCH, Host, LATE, Name, NameEntry};

// ---- the event

// The nearest host that was not tried yet is asked for the cue, and marked as tried.
pub fn fetch(e: &mut End, name: Name, out: &mut [u8]) -> Answer
    requires { room_needed ≤ length out.old }
    ensures value { called_of (done (fetch_of name e.old)) ≡ record { answer = result; end = e.new } }
    ensures out_after { out.new ≡ buffer_of (Did (fetch_of name e.old).effect) out.old }
{
    if !candidates::may_fetch(*e, name) {
        return Answer::Ignored;
    }
    let s = e.sources[name.source.0 as usize];
    let was = state::attempt_at(s, name.number);
    let Some((h, _)) = candidates::nearest(e.host, e.sources, name.source, was.tried) else {
        return Answer::Exhausted;
    };
    e.sources[name.source.0 as usize] = candidates::try_host(s, name.number, h);
    compose::put_name(FTCH, state::moment_of(*e), name, h, None, out)
}

// ---- kind 22, on the name's source

// The held cue goes out to who fetches it, and nothing else happens.
pub fn answer_fetch(t: Moment, x: NameEntry, sender: Host, s: &Source, out: &mut [u8]) -> Answer
    requires { room_needed ≤ length out.old }
    ensures value { result ≡ answer_of (Did (answered_effect t x sender s.now)) }
    ensures out_after { out.new ≡ buffer_of (Did (answered_effect t x sender s.now)) out.old }
{
    if candidates::may_answer(t.me, x, *s) {
        let known = records::record_at(*s, x.name.number);
        compose::put_name(LATE, t, x.name, sender, Some(known.cue), out)
    } else {
        Answer::Ignored
    }
}

// ---- kind 23, on the name's source

// The fetched cue is handed out, once: it stands in the first output bytes.
pub fn hand_late(
    me: Host,
    x: NameEntry,
    sender: Host,
    cue: [u8; 24],
    s: &mut Source,
    out: &mut [u8],
) -> Answer
    requires { (sender.0 < host_limit) × (room_needed ≤ length out.old) }
    ensures value { result ≡ answer_of (Did (late_effect me x sender cue s.old)) }
    ensures source { s.new ≡ late_source me x sender s.old }
    ensures out_after { out.new ≡ buffer_of (Did (late_effect me x sender cue s.old)) out.old }
{
    if candidates::may_hand(me, x, sender, *s) {
        let was = state::attempt_at(*s, x.name.number);
        *s = state::with_attempt(*s, x.name.number, Attempt { late: true, ..was });
        numbers::put_bytes(out, 0, &cue);
        Answer::Late(x.name)
    } else {
        Answer::Ignored
    }
}
