// What a member decides on a message about a name, and why one is ignored: each function is one definition of the crate end,
// specs/Decide.antt. Of the source, `decide` is given first and last and the name's record alone, so that no source is copied. They are
// helpers of the crates above and no calls of the product.
#![tactic(auto)]

ghost use Rattle.std.specs.Prelude.{◌≡◌};
ghost use Rattle.end.specs.Decide.{if_same, decide_data, reached, decide_reply, decide_round, decide_request};
ghost use Rattle.end.specs.Decide.{decide_express, decide_repair, decide_as};
ghost use Rattle.end.specs.Reasons.{reason_of};
ghost use Rattle.end.specs.Why.{because};

use end::{Decision, Moment, Reason, Record, Reply, Says, Slot, Span, Why, Word};

// What is decided on: the member's moment, what the message says, and of the source the name's record and first and last.
#[derive(Clone, Copy)]
struct Case {
    t: Moment,
    w: Word,
    r: Record,
    span: Span,
}

impl Case {
    // Of a held cue: this where the message has the same bytes, and a clash where it has others.
    fn if_same(self, decided: Decision) -> Decision
        ensures { result ≡ if_same self.w self.r decided }
    {
        if self.w.cue == self.r.cue {
            decided
        } else {
            Decision::Clashes
        }
    }

    #[tactic(auto, unfolding(end::specs::Decide::decide_data))]
    fn decide_data(self) -> Decision
        ensures { result ≡ decide_data self.w self.r self.span }
    {
        let Some((first, _)) = self.span else {
            return Decision::Opens;
        };
        if self.w.name.number.0 < first.0 {
            return Decision::Ignores(Reason::BelowFirst);
        }
        if state::is_held(self.r.slot) {
            self.if_same(Decision::Ignores(Reason::AlreadyHeld))
        } else {
            Decision::Takes
        }
    }

    // The first line of RQST, REPL and XPRS.
    #[tactic(auto, unfolding(end::specs::Decide::reached))]
    fn reached(self, otherwise: Decision) -> Decision
        ensures { result ≡ reached self.t self.w self.span otherwise }
    {
        let Some((first, last)) = self.span else {
            return Decision::Ignores(Reason::NotOpen);
        };
        let name = self.w.name;
        if name.number.0 < first.0 {
            return Decision::Ignores(Reason::BelowFirst);
        }
        if name.source == self.t.me && last.0 < name.number.0 {
            return Decision::Ignores(Reason::OwnAboveLast);
        }
        otherwise
    }

    // RQST, past its first line.
    #[tactic(auto, unfolding(end::specs::Decide::decide_request))]
    fn decide_request(self) -> Decision
        ensures { result ≡ decide_request self.t self.w self.r self.span }
    {
        if let Slot::Held(reply) = self.r.slot {
            return decide_reply(self.t, reply, self.r.hush);
        }
        if state::is_above(self.span, self.w.name.number) {
            return Decision::Learns;
        }
        decide_round(self.t, self.r.slot)
    }

    // XPRS, past its first line: the named sender answers at once, if it holds the cue and is not quiet; otherwise it is a RQST.
    #[tactic(auto, unfolding(end::specs::Decide::decide_express))]
    fn decide_express(self) -> Decision
        ensures { result ≡ decide_express self.t self.w self.r self.span }
    {
        if self.w.host == self.t.me && state::is_held(self.r.slot) && self.r.hush <= self.t.clock {
            return Decision::Expresses;
        }
        self.decide_request()
    }

    // REPL, past its first line.
    #[tactic(auto, unfolding(end::specs::Decide::decide_repair))]
    fn decide_repair(self) -> Decision
        ensures { result ≡ decide_repair self.w self.r }
    {
        if state::is_held(self.r.slot) {
            self.if_same(Decision::Hushes)
        } else {
            Decision::Repairs
        }
    }
}

// RQST of a held cue.
#[tactic(auto, unfolding(end::specs::Decide::decide_reply))]
fn decide_reply(t: Moment, reply: Reply, quiet: u64) -> Decision
    ensures { result ≡ decide_reply t reply quiet }
{
    if reply.is_some() {
        return Decision::Ignores(Reason::ReplyWaiting);
    }
    if t.clock < quiet {
        return Decision::Ignores(Reason::ReplyQuiet);
    }
    Decision::Replies
}

// RQST of a cue not held, up to last.
#[tactic(auto, unfolding(end::specs::Decide::decide_round))]
fn decide_round(t: Moment, slot: Slot) -> Decision
    ensures { result ≡ decide_round t slot }
{
    match slot {
        Slot::Waiting(q, _) if q.quiet < t.clock => Decision::BacksOff(q.round),
        _ => Decision::Ignores(Reason::RequestQuiet),
    }
}

// What a member decides on a message about a name, of which it has this record in a source with this first and last.
#[tactic(auto, unfolding(end::specs::Decide::decide_as))]
pub fn decide(t: Moment, w: Word, r: Record, span: Span) -> Decision
    ensures { result ≡ decide_as w.says t w r span }
{
    let case = Case { t, w, r, span };
    match w.says {
        Says::Data => case.decide_data(),
        Says::Rqst => case.reached(case.decide_request()),
        Says::Repl => case.reached(case.decide_repair()),
        Says::Xprs => case.reached(case.decide_express()),
    }
}

// Why a message is ignored, if that is decided.
pub fn reason_of(d: Decision) -> Why
    ensures { result ≡ because (reason_of d) }
{
    match d {
        Decision::Ignores(reason) => Why::Because(reason),
        _ => Why::NoReason,
    }
}
