// An end opened again after a restart, with the clock and the next own number that were stored. The definitions are in specs/: Reopen (the end),
// Reopening (the questions, and what is given). What it equals, the state that Leave and Left leave, is proofs/ReopenLaws.antt.
#![tactic(auto)]

ghost use Rattle.std.specs.Prelude.{◌≡◌};
ghost use Rattle.message.specs.Entry.{as_host};
ghost use Rattle.end.specs.declared.Status.TheVariants.{Crashed};
ghost use Rattle.end.specs.State.{fresh_end};
ghost use Rattle.end.specs.Opening.{house_params};
ghost use Rattle.end_reopen.specs.Reopen.{reopened_from};
ghost use Rattle.end_reopen.specs.Reopening.{verdict_with, reopening_of};

use end::{End, Opened, Params};
use message::{Host, TICKS_LIMIT, Verdict};

// The highest next own number.
const NEXT_MOST: u64 = 65536;

// A fresh end with the two stored numbers.
fn reopened(fresh: End, clock: u64, next: u32) -> End
    ensures { result ≡ reopened_from fresh clock next }
{
    End {
        clock,
        next,
        ..fresh
    }
}

// The verdict of an opening's own questions, then of questions 4 and 7.
fn verdict_with(own: Verdict, clock: u64, next: u64) -> Verdict
    ensures { result ≡ verdict_with own clock next }
{
    match own {
        Verdict::Accepted if TICKS_LIMIT <= clock => Verdict::Refused(4),
        Verdict::Accepted if NEXT_MOST < next => Verdict::Refused(7),
        _ => own,
    }
}

// What a refused opening gives: that of host 255, which there is not.
fn refused_end(params: Params) -> End
    ensures { result ≡ fresh_end (as_host 0) house_params Crashed }
{
    membership::opening(Host(255), params).end
}

pub fn reopening(me: Host, params: Params, clock: u64, next: u64) -> Opened
    ensures { result ≡ reopening_of me params clock next }
{
    let o = membership::opening(me, params);
    match verdict_with(o.verdict, clock, next) {
        Verdict::Accepted => Opened {
            verdict: Verdict::Accepted,
            end: reopened(o.end, clock, next as u32),
        },
        refused => Opened {
            verdict: refused,
            end: refused_end(params),
        },
    }
}
