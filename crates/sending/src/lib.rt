// Send of a member whose clock is set and whose questions were answered: `send_of` of the crate end, specs/Event.antt. It changes the own source,
// in its place in the end, and the next number. These are helpers of the crates above and no calls of the product: what they ask for in their
// `requires`, the records of specs/Given.antt, the call has seen to.
#![tactic(auto)]

ghost use Rattle.std.specs.Prelude.{◌≡◌, length};
ghost use Rattle.end.specs.Answer.{Did, done, called_of, buffer_of};
ghost use Rattle.end.specs.Event.{extended, sent_source, send_of};
ghost use Rattle.sending.specs.Given.{Sending, Rising};

use end::{Answer, Draw, End, Moment, Source};
use message::{CueNumber, DATA, Name};

// The own source with n for its last number: what goes out of the window is retired, as where another's last rises.
fn extend(s: Source, t: Moment, draws: &[Draw], n: CueNumber) -> Source
    requires { Rising t s n.0 (length draws.now) }
    ensures { result ≡ extended t draws.now n.0 s s.span }
{
    match s.span {
        None => Source {
            span: Some((n, n)),
            ..s
        },
        Some(_) => rises::rise_to(s, t, draws, n),
    }
}

// The own source once cue n is sent.
fn sent_source(s: Source, t: Moment, draws: &[Draw], n: CueNumber, cue: [u8; 24]) -> Source
    requires { Rising t s n.0 (length draws.now) }
    ensures { result ≡ sent_source t draws.now n.0 cue s }
{
    let open = extend(s, t, draws, n);
    records::hold_cue(open, n, cue)
}

// The cue goes out as DATA under the next number, and is held in the own source.
pub fn send(e: &mut End, draws: &[Draw], cue: [u8; 24], out: &mut [u8]) -> Answer
    requires { Sending e.old (length draws.now) (length out.old) }
    ensures value { called_of (done (send_of draws.now cue e.old)) ≡ record { answer = result; end = e.new } }
    ensures out_after { out.new ≡ buffer_of (Did (send_of draws.now cue e.old).effect) out.old }
{
    let t = state::moment_of(*e);
    let me = e.host;
    let number = CueNumber(e.next as u16);
    let own = e.sources[me.0 as usize];
    e.sources[me.0 as usize] = sent_source(own, t, draws, number, cue);
    e.next += 1;
    compose::put_name(DATA, t, Name { source: me, number }, me, Some(cue), out)
}
