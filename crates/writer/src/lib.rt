// The writer: a message into the first bytes of an output, or the number of the question that it fails; and the probe, which is no bytes.
// Its promises are `written_of` and `output_of` of the crate message, specs/Question.antt.
#![tactic(auto)]

ghost use Rattle.std.specs.Prelude.{◌≡◌};
ghost use Rattle.message.specs.Message.{Probe, Saying};
ghost use Rattle.message.specs.Question.{first_no, outcome, room_questions, refusal_of, write_refusal, written_of, output_of};

use message::{Message, ROOM_NEEDED, Refusal, Verdict, Written};

// Questions 1, 9, 10 and 11, of a message and an output with so many bytes.
fn ask_all(m: Message, room: usize) -> Result<(), Refusal>
    ensures { result ≡ outcome (first_no (room_questions m room)) }
{
    message::ask(ROOM_NEEDED <= room, 1)?;
    message::ask(message::kind_has_counts(m.kind, m.counts), 9)?;
    message::ask_meaning(m.kind, m)
}

// Writes a message into the first bytes of `out`: questions 1, 9, 10 and 11, in this order.
// Kept: (a) the length beside the verdict, since the clauses `value` and `verdict_value` promise the 0 beside a refusal.
pub fn write(m: Message, out: &mut [u8]) -> Written
    ensures value { result ≡ written_of (Saying m) out.old }
    ensures verdict_value { refusal_of result.verdict ≡ write_refusal (Saying m) out.old }
    ensures out_after { out.new ≡ output_of (Saying m) out.old }
{
    match ask_all(m, out.len()) {
        Ok(()) => Written {
            verdict: Verdict::Accepted,
            len: layout::put_message(out, m),
        },
        Err(Refusal(number)) => Written {
            verdict: Verdict::Refused(number),
            len: 0,
        },
    }
}

// Writes a probe into `out`: question 1, and then no byte. A call of its own, since no value of the message's type stands for the probe.
pub fn write_probe(out: &mut [u8]) -> Written
    ensures value { result ≡ written_of Probe out.old }
    ensures verdict_value { refusal_of result.verdict ≡ write_refusal Probe out.old }
    ensures out_after { out.new ≡ output_of Probe out.old }
{
    let verdict = match message::ask(ROOM_NEEDED <= out.len(), 1) {
        Ok(()) => Verdict::Accepted,
        Err(Refusal(number)) => Verdict::Refused(number),
    };
    Written { verdict, len: 0 }
}
