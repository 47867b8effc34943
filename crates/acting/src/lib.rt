// What an event does on an end that takes it. The frame of the calls, `frame::frame`, has asked every question by then, and set the clock. It
// is a helper of the crate frame and no call of the product: it asks in its `requires` for what the questions give.
#![tactic(auto)]

ghost use Rattle.std.specs.Prelude.{◌≡◌, length};
ghost use Rattle.message.specs.Message.{meaning_of};
ghost use Rattle.end.specs.Answer.{Did, done, called_of, buffer_of};
ghost use Rattle.acting.specs.Acting.{acted, Acting};

use end::{Answer, Draw, End, Event};
use message::Message;

// What an event does on an end that takes it: its clock is set, and every question was answered yes.
pub fn act(
    e: &mut End,
    draws: &[Draw],
    what: Event,
    cue: [u8; 24],
    message: Message,
    out: &mut [u8],
) -> Answer
    requires { Acting what e.old message (length draws.now) (length out.old) }
    ensures value { called_of (done (acted draws.now what cue (meaning_of message) e.old)) ≡ record { answer = result; end = e.new } }
    ensures out_after { out.new ≡ buffer_of (Did (acted draws.now what cue (meaning_of message) e.old).effect) out.old }
{
    match what {
        Event::Moves(m) => {
            let stepped = membership::moved(*e, m);
            *e = stepped.end;
            stepped.answer
        }
        Event::Send => sending::send(e, draws, cue, out),
        Event::Arrival => receive::arrival(e, draws, message, out),
        Event::Fire => transmit::fire(e, draws, out),
        Event::Report => transmit::report(e, out),
        Event::Fetch(name) => fetch::fetch(e, name, out),
        Event::Announce => transmit::announce(e, out),
    }
}
