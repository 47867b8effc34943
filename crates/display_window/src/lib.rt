// The window of a foyer display, document 02, P11: trail, lead and which of the numbers from trail on were received; how they rise, which
// numbers that loses, and the lowest number that is missing. The crate display has the messages, requests and calls over it. The definitions
// are in specs/: Parts (its words), Window (the window, its losses and its lowest missing number), Frame (what the functions here are given and promise).
#![tactic(auto)]

ghost use Rattle.std.specs.Prelude.{◌≡◌, true, ◌+◌, ◌-◌, ◌/◌, ◌^◌, ◌≤◌, ◌<◌, ltb, option_map};
ghost use Rattle.numbers.specs.Bits.{bit};
ghost use Rattle.message.specs.Entry.{as_number};
ghost use Rattle.message.specs.Limit.{number_limit};
ghost use Rattle.display_window.specs.Window.{window_sound, raised, received, is_new, taken, unreceived, lost_above, none_lost, lost_by, lowest_clear, lowest_missing};
ghost use Rattle.display_window.specs.Frame.{places, above_trail};

use message::CueNumber;

// Trail and lead, and which of the numbers from trail on were received: bit i of the set stands for trail + i. Before its sender's first DATA
// a display has no window.
#[derive(Clone, Copy)]
pub struct Window {
    pub trail: CueNumber,
    pub lead: CueNumber,
    pub set: u64,
}

// The first and the last of some numbers, both among them.
#[derive(Clone, Copy)]
pub struct Span {
    pub first: CueNumber,
    pub last: CueNumber,
}

// The numbers that a call lost: of those up to the old lead a set up from the old trail, bit i for `trail` + i; and those above it. Where a
// call can lose none (the start, an Ignored, a step, a refusal) `trail` is 0.
#[derive(Clone, Copy)]
pub struct Lost {
    pub trail: CueNumber,
    pub set: u64,
    pub above: Option<Span>,
}

// How many numbers a display keeps track of from trail on: as many as its set has digits.
const PLACES: u64 = 64;

// ---- sets: a place from 64 on is in none of them. It is branched on, since a processor shifts by 64 as by 0

fn has(set: u64, i: u64) -> bool
    ensures { result ≡ bit set i }
{
    i < PLACES && numbers::bits::has(set, i)
}

// The set up from its place k.
fn up_from(set: u64, k: u64) -> u64
    ensures { result ≡ set / 2 ^ k }
{
    if k < PLACES { set >> k } else { 0 }
}

// Whether the set has places below k only.
fn is_below(set: u64, k: u64) -> bool
    ensures { result ≡ ltb set (2 ^ k) }
{
    up_from(set, k) == 0
}

// The first k places turned over.
fn unreceived(k: u64, set: u64) -> u64
    requires { k ≤ places }
    ensures { result ≡ unreceived k set }
{
    if k < PLACES {
        let whole = 1u64 << k;
        whole - 1 - set % whole
    } else {
        !set
    }
}

// The lowest place below k that is not in the set.
fn lowest_clear(set: u64, k: u64) -> Option<u64>
    ensures { result ≡ lowest_clear set k }
{
    (0..k).find(|i| !has(set, *i))
}

// ---- the window

impl Window {
    // How many numbers trail..lead has.
    fn width(self) -> u64
        ensures value { result ≡ self.lead.0 + 1 - self.trail.0 }
        ensures result_bound { self.trail.0 + result ≤ number_limit }
    {
        (self.lead.0 as u64 + 1).saturating_sub(self.trail.0 as u64)
    }

    // How far a number stands above trail; 0 below it.
    fn place_of(self, n: CueNumber) -> u64
        ensures { result ≡ n.0 - self.trail.0 }
    {
        n.0.saturating_sub(self.trail.0) as u64
    }
}

pub fn window_sound(window: Option<Window>) -> bool
    ensures { result ≡ window_sound window }
{
    window.is_none_or(|w| {
        (w.trail.0 <= w.lead.0)
            & ((w.lead.0 as u64 <= w.trail.0 as u64 + 63) & is_below(w.set, w.width()))
    })
}

// ---- trail, lead and receptions

// Trail and lead rise to what was heard, and receptions stay those of their numbers.
#[tactic(auto, unfolding(crate::specs::Window::raised))]
pub fn raised(t: CueNumber, l: CueNumber, window: Option<Window>) -> Option<Window>
    ensures { result ≡ raised t.0 l.0 window }
{
    let w = window?;
    let trail = CueNumber(w.trail.0.max(t.0));
    let lead = CueNumber(w.lead.0.max(l.0));
    let set = up_from(w.set, w.place_of(trail));
    Some(Window { trail, lead, set })
}

#[tactic(auto, unfolding(crate::specs::Window::received))]
fn received(n: CueNumber, window: Option<Window>) -> Option<Window>
    requires { above_trail n.0 window < places }
    ensures { result ≡ received n.0 window }
{
    let w = window?;
    let set = numbers::bits::with(w.set, w.place_of(n));
    Some(Window { set, ..w })
}

// The trail that a cue counts as: 63 below it, or 0.
pub fn trail_for(n: CueNumber) -> CueNumber
    ensures { result.0 ≡ n.0 - 63 }
{
    CueNumber(n.0.saturating_sub(63))
}

// A cue is taken: it counts as a trail 63 below it and as a lead.
pub fn taken(n: CueNumber, window: Option<Window>) -> Option<Window>
    ensures { result ≡ taken n.0 window }
{
    received(n, raised(trail_for(n), n, window))
}

#[tactic(auto, unfolding(crate::specs::Window::is_new))]
pub fn is_new(window: Option<Window>, n: CueNumber) -> bool
    ensures { result ≡ is_new window n.0 }
{
    window.is_some_and(|w| (w.trail.0 <= n.0) & !has(w.set, w.place_of(n)))
}

// ---- losses

fn lost_above(lead: CueNumber, t: u16) -> Option<Span>
    ensures { result ≡ lost_above lead.0 t }
{
    let next = lead.0 as u32 + 1;
    if next < t as u32 {
        Some(Span {
            first: CueNumber(next as u16),
            last: CueNumber(t - 1),
        })
    } else {
        None
    }
}

pub fn none_lost() -> Lost
    ensures { result ≡ none_lost }
{
    Lost {
        trail: CueNumber(0),
        set: 0,
        above: None,
    }
}

// The numbers that are lost when trail rises to t, or stays where it is above it.
#[tactic(auto, unfolding(crate::specs::Window::lost_by))]
pub fn lost_by(t: CueNumber, window: Option<Window>) -> Lost
    requires { window_sound window ≡ true }
    ensures { result ≡ lost_by t.0 window }
{
    let Some(Window { trail, lead, set }) = window else {
        return none_lost();
    };
    let to = trail.0.max(t.0);
    let passed = (to as u64)
        .min(lead.0 as u64 + 1)
        .saturating_sub(trail.0 as u64);
    Lost {
        trail,
        set: unreceived(passed, set),
        above: lost_above(lead, to),
    }
}

// ---- the lowest missing number

#[tactic(auto, unfolding(crate::specs::Window::lowest_missing))]
pub fn lowest_missing(window: Option<Window>) -> Option<CueNumber>
    ensures { result ≡ option_map as_number (lowest_missing window) }
{
    let w = window?;
    let place = lowest_clear(w.set, w.width())?;
    Some(CueNumber((w.trail.0 as u64 + place) as u16))
}
