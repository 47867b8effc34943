// When a request and a reply are due, and how far a host is: each function is one definition of the crate end, specs/Round.antt.
// They are helpers of the crates above and no calls of the product: each asks in its `requires` for the ranges that soundness and
// questions 3 and 4 give, so that no product leaves 64 bits.
#![tactic(auto)]

ghost use Rattle.std.specs.Prelude.{◌≡◌, ◌*◌, ◌≤◌, ◌<◌};
ghost use Rattle.message.specs.Limit.{ticks_limit};
ghost use Rattle.end.specs.Round.{factor, share, request_with, next_round, reply_with, quiet_after_reply, half_trip};
ghost use Rattle.end.specs.Ready.{Ranges};

use end::{Draw, Moment, Request};

// The greatest value of a draw.
const MOST_DRAW: u64 = 65535;

// The factor of round k, 2^(k-1): one shift, no loop and no stored table (document 02, P6).
fn round_factor(k: u8) -> u64
    requires { (1 ≤ k) × (k ≤ 16) }
    ensures value { result ≡ factor k }
    ensures upper_bound { result ≤ 32768 }
{
    1u64 << (k - 1)
}

// Parameter times distance, in ticks: a wait for a reply.
fn reply_wait(c: u64, d: u64) -> u64
    requires { (c ≤ 32) × (d ≤ 1000) }
    ensures value { result ≡ c * d }
    ensures upper_bound { result ≤ 32000 }
{
    c * d
}

// Factor times parameter times distance: a wait for a request.
fn request_wait(f: u64, c: u64, d: u64) -> u64
    requires { (f ≤ 32768) × (c ≤ 32) × (d ≤ 1000) }
    ensures value { result ≡ f * c * d }
    ensures upper_bound { result ≤ 1048576000 }
{
    f * c * d
}

// The share of a wait that the draw u takes.
fn drawn(wait: u64, u: Draw) -> u64
    requires { wait ≤ 1048576000 }
    ensures value { result ≡ share wait u }
    ensures upper_bound { result ≤ 1048576000 }
{
    wait * (u as u64) / MOST_DRAW
}

// Round k at a moment, with the draw u and the distance d to the source.
pub fn request_at(t: Moment, u: Draw, d: u64, k: u8) -> Request
    requires ranges { Ranges t d }
    requires le_k { (1 ≤ k) × (k ≤ 16) }
    ensures { result ≡ request_with t u d k }
{
    let f = round_factor(k);
    let sure = request_wait(f, t.params.c1, d);
    let whole = request_wait(f, t.params.c2, d);
    let share = drawn(whole, u);
    let quiet = request_wait(f, t.params.c3, d);
    Request {
        round: k,
        due: t.clock + sure + share,
        quiet: t.clock + quiet,
    }
}

// "After 16 comes 16."
pub fn next_round(k: u8) -> u8
    ensures { result ≡ next_round k }
{
    k.min(15) + 1
}

// When a reply is due, with the draw u and the distance d to the requester.
pub fn reply_due(t: Moment, u: Draw, d: u64) -> u64
    requires { Ranges t d }
    ensures { result ≡ reply_with t u d }
{
    let sure = reply_wait(t.params.d1, d);
    let whole = reply_wait(t.params.d2, d);
    let share = drawn(whole, u);
    t.clock + sure + share
}

// Until when no reply is set, with the distance d to the requester.
pub fn quiet_after_reply(t: Moment, d: u64) -> u64
    requires { Ranges t d }
    ensures { result ≡ quiet_after_reply t d }
{
    t.clock + reply_wait(t.params.d3, d)
}

// Half a round trip of e ticks, rounded up to whole milliseconds and brought into 1..1000. The clock's limit keeps the sum from wrapping:
// it is below 2^49.
pub fn half_trip(e: u64) -> u64
    requires { e < ticks_limit }
    ensures { result ≡ half_trip e }
{
    let ms = (e + 7) / 8;
    ms.clamp(1, 1000)
}
