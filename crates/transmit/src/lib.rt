// Fire, Report and Announce of a member whose clock is set and whose questions were answered: `fire_of`, Report's line of `other_of` and
// `announce_of` of the crate end, specs/Event.antt and specs/Fire.antt. Fire changes one source, in its place in the end; the others change
// nothing. They are helpers of the crates above and no calls of the product: what they ask for in their `requires`, the records of
// specs/Given.antt, the call has seen to.
#![tactic(auto)]

ghost use Rattle.std.specs.Prelude.{◌≡◌, [], length};
ghost use Rattle.end.specs.Answer.{Did, done, called_of, buffer_of};
ghost use Rattle.end.specs.Parts.{First};
ghost use Rattle.end.specs.Fire.{kept_sender, fired, fire_of};
ghost use Rattle.end.specs.Event.{Report, announce_of, other_of};
ghost use Rattle.transmit.specs.Given.{Firing, FiringOf, Reporting};

use end::{Answer, Draw, EXPRESS, End, Pair, Slot, Wait};
use message::{Host, REPL, RQST, XPRS};

// ---- Fire

// The sender of the kept pair; where none is kept, host 0.
fn kept_sender(pair: Pair) -> Host
    ensures { result ≡ kept_sender pair }
{
    pair.map_or(Host(0), |(_, sender, _)| sender)
}

// A wait goes out: an express wait as XPRS, which names the kept sender, and it is dropped; a request as RQST, and its next round is set; a reply
// as REPL, and it is dropped and the quiet time set, by the distance to who asked.
fn fire_wait(e: &mut End, draws: &[Draw], w: Wait, out: &mut [u8]) -> Answer
    requires { FiringOf e.old w (length draws.now) (length out.old) }
    ensures value { called_of (done (fired draws.now e.old (First w))) ≡ record { answer = result; end = e.new } }
    ensures out_after { out.new ≡ buffer_of (Did (fired draws.now e.old (First w)).effect) out.old }
{
    let t = state::moment_of(*e);
    let n = w.name.number;
    let at = w.name.source.0 as usize;
    let s = e.sources[at];
    let r = records::record_at(s, n);
    match r.slot {
        Slot::Empty => Answer::Nothing,
        Slot::Waiting(q, _) => {
            let rank = w.rank;
            if rank == EXPRESS {
                e.sources[at] = records::drop_express(s, n);
                compose::put_name(XPRS, t, w.name, kept_sender(s.pair), None, out)
            } else {
                e.sources[at] = records::set_round(s, t, draws, n, timing::next_round(q.round));
                compose::put_name(RQST, t, w.name, t.me, None, out)
            }
        }
        Slot::Held(reply) => {
            let Some((_, requester)) = reply else {
                return Answer::Nothing;
            };
            let d = e.sources[requester.0 as usize].distance;
            e.sources[at] = records::quiet_reply(s, t, n, d);
            compose::put_name(REPL, t, w.name, requester, Some(r.cue), out)
        }
    }
}

// The earliest wait that is due goes out.
pub fn fire(e: &mut End, draws: &[Draw], out: &mut [u8]) -> Answer
    requires { Firing e.old (length draws.now) (length out.old) }
    ensures value { called_of (done (fire_of draws.now e.old)) ≡ record { answer = result; end = e.new } }
    ensures out_after { out.new ≡ buffer_of (Did (fire_of draws.now e.old).effect) out.old }
{
    let Some(w) = earliest::earliest_wait(*e) else {
        return Answer::Nothing;
    };
    fire_wait(e, draws, w, out)
}

// ---- Report

// A session message goes out, and nothing else happens.
pub fn report(e: &End, out: &mut [u8]) -> Answer
    requires { Reporting e.now (length out.old) }
    ensures value { called_of (done (other_of [] Report e.now)) ≡ record { answer = result; end = e.now } }
    ensures out_after { out.new ≡ buffer_of (Did (other_of [] Report e.now).effect) out.old }
{
    compose::put(compose::session_message(*e), out)
}

// ---- Announce

// The own first and last go out, if there are any, and nothing else happens.
pub fn announce(e: &End, out: &mut [u8]) -> Answer
    requires { Reporting e.now (length out.old) }
    ensures value { called_of (done (announce_of e.now)) ≡ record { answer = result; end = e.now } }
    ensures out_after { out.new ≡ buffer_of (Did (announce_of e.now).effect) out.old }
{
    match e.sources[e.host.0 as usize].span {
        None => Answer::Nothing,
        Some((first, last)) => compose::put_announce(state::moment_of(*e), first, last, out),
    }
}
