// Opening an end, and the five moves of its membership: each function is one definition of the crate end, specs/Opening.antt and
// specs/Event.antt. The moves are a helper of the crates above and no call of the product: they come after the questions, on an end
// whose clock is set, and ask in their `requires` for what soundness gives.
#![tactic(auto)]

ghost use Rattle.std.specs.Prelude.{◌≡◌, ◌&&◌, true, ◌<◌};
ghost use Rattle.message.specs.Limit.{host_limit};
ghost use Rattle.end.specs.State.{unheard, unheard_sources, fresh_end, with_sources};
ghost use Rattle.end.specs.Sound.{all_of, params_tests};
ghost use Rattle.end.specs.Opening.{constrained_tests, house_params, opening_of};
ghost use Rattle.message.specs.Entry.{as_host};
ghost use Rattle.message.specs.declared.Verdict.TheVariants.{Refused};
ghost use Rattle.end.specs.declared.Status.TheVariants.{Crashed};
ghost use Rattle.end.specs.Event.{moves, moves_to, clears, moved_end, move_of};
ghost use Rattle.end.specs.Answer.{done, called_of};

use end::{Answer, End, Move, Opened, Params, Record, Slot, Source, Status, Stepped};
use message::{Host, Verdict};

// A source of which nothing is kept.
fn unheard_source(distance: u64) -> Source
    ensures { result ≡ unheard distance }
{
    let blank = Record {
        slot: Slot::Empty,
        cue: [0; 24],
        hush: 0,
    };
    Source {
        span: None,
        missed: 0,
        pair: None,
        distance,
        heard: None,
        names: [blank; 64],
        origin: None,
        attempts: [state::no_attempt(); 64],
    }
}

// The eight sources of which nothing is kept: 0 to oneself, 40 to the others.
fn unheard_sources(me: Host) -> [Source; 8]
    requires { me.0 < host_limit }
    ensures { result ≡ unheard_sources me.0 }
{
    let mut sources = [unheard_source(40); 8];
    sources[usize::from(me.0)] = unheard_source(0);
    sources
}

fn fresh_end(me: Host, params: Params, status: Status) -> End
    requires { me.0 < host_limit }
    ensures { result ≡ fresh_end me params status }
{
    let sources = unheard_sources(me);
    End {
        host: me,
        params,
        clock: 0,
        status,
        next: 0,
        sources,
    }
}

// "C3 < C1, D1+D2+8 < 2×C1, D1+D2+D3 < 2×C1".
fn params_constrained(p: Params) -> bool
    requires { all_of (params_tests p) ≡ true }
    ensures { result ≡ all_of (constrained_tests p) }
{
    let replies = p.d1 + p.d2;
    let requests = 2 * p.c1;
    p.c3 < p.c1 && replies + 8 < requests && replies + p.d3 < requests
}

// Question 13.
fn params_open(p: Params) -> bool
    ensures { result ≡ (all_of (params_tests p) && all_of (constrained_tests p)) }
{
    state::params_small(p) && params_constrained(p)
}

// What a refused opening gives: host 0's crashed end, otherwise fresh.
fn refused_opening(number: u8) -> Opened
    ensures { result ≡ record { verdict = Refused number; end = fresh_end (as_host 0) house_params Crashed } }
{
    let params = Params {
        c1: 9,
        c2: 8,
        c3: 4,
        d1: 4,
        d2: 4,
        d3: 8,
        express: 0,
    };
    Opened {
        verdict: Verdict::Refused(number),
        end: fresh_end(Host(0), params, Status::Crashed),
    }
}

// Questions 12, 13 and 14, and the end that an opening gives.
pub fn opening(me: Host, params: Params) -> Opened
    ensures { result ≡ opening_of me params }
{
    if 8 <= me.0 {
        return refused_opening(12);
    }
    if !params_open(params) {
        return refused_opening(13);
    }
    if !state::delay_in(params) {
        return refused_opening(14);
    }
    Opened {
        verdict: Verdict::Accepted,
        end: fresh_end(me, params, Status::Idle),
    }
}

// ---- the moves: from which status, to which, and whether what was heard is forgotten

pub fn may_move(m: Move, status: Status) -> bool
    ensures { result ≡ moves m status }
{
    match m {
        Move::Join => status == Status::Idle,
        Move::Joined => status == Status::Joining,
        Move::Leave => matches!(status, Status::Joining | Status::Member),
        Move::Left => status == Status::Leaving,
        Move::Crash => status != Status::Crashed,
    }
}

// To which status a move leads.
pub fn moves_to(m: Move) -> Status
    ensures { result ≡ moves_to m }
{
    match m {
        Move::Join => Status::Joining,
        Move::Joined => Status::Member,
        Move::Leave => Status::Leaving,
        Move::Left => Status::Idle,
        Move::Crash => Status::Crashed,
    }
}

fn forgets(m: Move) -> bool
    ensures { result ≡ clears m }
{
    matches!(m, Move::Leave | Move::Crash)
}

// An end that forgets what it heard; its next own number stays.
fn without_heard(e: End) -> End
    requires { e.host.0 < host_limit }
    ensures { result ≡ with_sources e (unheard_sources e.host.0) }
{
    let sources = unheard_sources(e.host);
    End { sources, ..e }
}

fn moved_end(e: End, m: Move) -> End
    requires { e.host.0 < host_limit }
    ensures { result ≡ moved_end m e }
{
    let end = End {
        status: moves_to(m),
        ..e
    };
    if forgets(m) { without_heard(end) } else { end }
}

// A move of an end whose clock is set: Done, and Ignored from any other status.
pub fn moved(e: End, m: Move) -> Stepped
    requires { e.host.0 < host_limit }
    ensures { result ≡ called_of (done (move_of m e)) }
{
    if may_move(m, e.status) {
        Stepped {
            answer: Answer::Done,
            end: moved_end(e, m),
        }
    } else {
        Stepped {
            answer: Answer::Ignored,
            end: e,
        }
    }
}
