// Last of a source rises: first rises with it, what goes out of the window is retired and counted, and each new number is asked for. Each
// function is a part of the definition `rise_with` of the crate end, specs/Names.antt; `rise_to` and `rise_by_data` are the whole of it, one
// for all events but a DATA, one for a DATA. They are helpers of the crates above and no calls of the product: each asks in its `requires`
// for what soundness and the questions give.
#![tactic(auto)]

ghost use Rattle.std.specs.Prelude.{◌≡◌, ◌-◌, ◌≤◌, ◌<◌, min, max, length};
ghost use Rattle.message.specs.Limit.{number_limit};
ghost use Rattle.end.specs.Records.{is_held, raw_at};
ghost use Rattle.end.specs.Round.{draw_count};
ghost use Rattle.end.specs.Names.{expressed, asked, filled, lacks, lacking, rise_with, rise, rise_by_data};
ghost use Rattle.end.specs.Parts.{Open};
ghost use Rattle.end.specs.Ready.{Ranges, Numbered};
ghost use Rattle.state.specs.Counted.{Counted};

use end::{Draw, Express, KEPT, Moment, Record, Slot, Source};
use message::CueNumber;

// ---- what is retired

// 1 for a number without a cue.
fn lack(slot: Slot) -> u64
    ensures value { result ≡ lacks (is_held slot) }
    ensures upper_bound { result ≤ 1 }
{
    u64::from(!state::is_held(slot))
}

// How many of the numbers from `from` on, below `to`, have no cue in their places.
fn count_lacking(names: [Record; 64], from: u64, to: u64) -> u64
    requires { to ≤ number_limit }
    ensures value { result ≡ lacking (λ m. is_held (raw_at names m).slot) (to - from) from }
    ensures upper_bound { result ≤ number_limit }
{
    let mut count = 0;
    for i in from..to {
        count += lack(names[state::place(i)].slot);
    }
    count
}

// ---- what is new

// Kept: (d) the moment is a value and the draws are lent by the call: a struct of both would be built anew, with a lifetime, in every caller.
// What an end keeps of a new number: round 1, with the distance d to the source, and this express wait beside it.
fn fresh_record(t: Moment, draws: &[Draw], d: u64, x: Express, n: CueNumber) -> Record
    requires ranges { Ranges t d }
    requires numbered { Numbered n.0 (length draws.now) }
    ensures { result ≡ expressed x (asked t draws.now d n.0) }
{
    let q = records::request_for(t, draws, d, n, 1);
    Record {
        slot: Slot::Waiting(q, x),
        cue: [0; 24],
        hush: 0,
    }
}

// The numbers from `from` on, below `to`, are new.
fn request_all(
    names: [Record; 64],
    t: Moment,
    draws: &[Draw],
    d: u64,
    x: Express,
    from: u64,
    to: u64,
) -> [Record; 64]
    requires ranges { Ranges t d }
    requires draws_len { (length draws.now ≡ draw_count) × (to ≤ number_limit) }
    ensures { result ≡ filled (λ m. expressed x (asked t draws.now d m)) (to - from) from names }
{
    let mut out = names;
    for i in from..to {
        out[state::place(i)] = fresh_record(t, draws, d, x, CueNumber(i as u16));
    }
    out
}

// ---- the whole rise

// Last rises from first..last to n. Numbers below `lo` are retired: of those up to last the ones without a cue are counted, and all that
// are passed over. Neither loop has more than 64 turns, however far last rises.
fn risen(
    s: Source,
    t: Moment,
    draws: &[Draw],
    x: Express,
    first: CueNumber,
    last: CueNumber,
    n: CueNumber,
) -> Source
    requires missed_lt_number_limit { (s.missed < number_limit) × (s.span ≡ Open first last) }
    requires ranges { Ranges t s.distance }
    requires numbered { Numbered n.0 (length draws.now) }
    ensures { result ≡ rise_with (λ m. expressed x (asked t draws.now s.distance m)) n.0 s (Open first last) }
{
    let names = s.names;
    let low = first.0 as u64;
    let next = last.0 as u64 + 1;
    let l = (last.0 as u64).max(n.0 as u64);
    let floor = l.saturating_sub(KEPT - 1);
    let lo = low.max(floor);
    let old = lo.min(next);
    let new = lo.max(next);
    let lacked = count_lacking(names, low, old);
    let passed = lo.saturating_sub(next);
    let renewed = request_all(names, t, draws, s.distance, x, new, l + 1);
    let lowest = lo as u16;
    let highest = l as u16;
    let missed = s.missed + lacked as u32 + passed as u32;
    Source {
        span: Some((CueNumber(lowest), CueNumber(highest))),
        missed,
        names: renewed,
        ..s
    }
}

// All that happens when last of a source rises to n, with this express wait beside each new request.
fn rise_with(s: Source, t: Moment, draws: &[Draw], x: Express, n: CueNumber) -> Source
    requires ranges { Ranges t s.distance }
    requires numbered { Numbered n.0 (length draws.now) }
    requires counted { Counted s }
    ensures { result ≡ rise_with (λ m. expressed x (asked t draws.now s.distance m)) n.0 s s.span }
{
    match s.span {
        None => s,
        Some((first, last)) => risen(s, t, draws, x, first, last, n),
    }
}

// Last of a source rises to n, by anything but a DATA.
pub fn rise_to(s: Source, t: Moment, draws: &[Draw], n: CueNumber) -> Source
    requires ranges { Ranges t s.distance }
    requires numbered { Numbered n.0 (length draws.now) }
    requires counted { Counted s }
    ensures { result ≡ rise t draws.now n.0 s s.span }
{
    rise_with(s, t, draws, None, n)
}

// Last of a source rises to n, by a DATA.
pub fn rise_by_data(s: Source, t: Moment, draws: &[Draw], n: CueNumber) -> Source
    requires ranges { Ranges t s.distance }
    requires numbered { Numbered n.0 (length draws.now) }
    requires counted { Counted s }
    ensures { result ≡ rise_by_data t draws.now n.0 s s.span }
{
    let x = records::express_by_data(t, s.pair);
    rise_with(s, t, draws, x, n)
}
