// What a SESS does to a source: a report may make its last rise, and of its sender the distance is measured and what it reported is kept. Each
// function is one definition of the crate end, specs/Session.antt. They are helpers of the crate receive and no calls of the product: each asks
// in its `requires` for what soundness and the questions give.
#![tactic(auto)]

ghost use Rattle.std.specs.Prelude.{◌≡◌, true, cond, ◌&&◌, ◌+◌, ◌-◌, ◌≤◌, ◌<◌, length, leb};
ghost use Rattle.message.specs.Limit.{number_limit, ticks_limit};
ghost use Rattle.message.specs.Section.{all};
ghost use Rattle.message.specs.Message.{report_places, echo_places, meaning_of};
ghost use Rattle.message.specs.Question.{echo_in, report_in, in_range, same_host};
ghost use Rattle.end.specs.Round.{half_trip};
ghost use Rattle.end.specs.Ready.{Ranges, Numbered};
ghost use Rattle.end.specs.Session.{reported_source, measured, reported_in, heard_from};
ghost use Rattle.state.specs.Counted.{Counted};

use end::{Draw, Hosts, Moment, Source};
use message::{Echo, Host, Message, Report};

// The source of a report: where the report makes its last rise, the new numbers are asked for.
pub fn report(t: Moment, draws: &[Draw], r: Report, s: Source) -> Source
    requires ranges { Ranges t s.distance }
    requires numbered { Numbered r.last.0 (length draws.now) }
    requires counted { Counted s }
    ensures { result ≡ reported_source t draws.now r s }
{
    if r.source.0 != t.me.0 && state::is_above(s.span, r.last) {
        rises::rise_to(s, t, draws, r.last)
    } else {
        s
    }
}

// The distance after an echo, from what it was: an echo of oneself measures half the round trip.
fn by_echo(me: Host, clock: u64, x: Echo, d: u64) -> u64
    requires { (x.stamp < ticks_limit) × (x.held < ticks_limit) × (clock < ticks_limit) }
    ensures { result ≡ cond (same_host x.host me && leb (x.stamp + x.held) clock) (half_trip (clock - (x.stamp + x.held))) d }
{
    let gone = x.stamp + x.held;
    if x.host.0 == me.0 && gone <= clock {
        timing::half_trip(clock - gone)
    } else {
        d
    }
}

// The distance after all echoes.
fn measure(me: Host, clock: u64, echoes: &[Echo], d: u64) -> u64
    requires { (all echo_in echoes.now ≡ true) × (clock < ticks_limit) }
    ensures { result ≡ measured me clock echoes.now d }
{
    let mut out = d;
    for x in echoes {
        out = by_echo(me, clock, *x, out);
    }
    out
}

// The sources that a session message reported.
fn reported_in(reports: &[Report]) -> Hosts
    requires { all (report_in (number_limit - 1)) reports.now ≡ true }
    ensures { result ≡ reported_in reports.now }
{
    let mut out = 0;
    for r in reports {
        out = numbers::bits::with_host(out, r.source.0);
    }
    out
}

// The sender's source: it is heard now, with what it reported, and its distance measured.
pub fn hear(t: Moment, m: Message, s: Source) -> Source
    requires reports_le_report_places { (m.counts.reports ≤ report_places) × (m.counts.echoes ≤ echo_places) }
    requires m_value { in_range (number_limit - 1) (meaning_of m) ≡ true }
    requires clock_lt_ticks_limit { t.clock < ticks_limit }
    ensures { result ≡ heard_from t (meaning_of m) s }
{
    let d = measure(t.me, t.clock, &m.echoes[..m.counts.echoes], s.distance);
    let reported = reported_in(&m.reports[..m.counts.reports]);
    state::with_heard(s, d, Some((m.stamp, t.clock, reported)))
}
