// libcuelink: the end, foyer displays and lens windows for hosts in C and Rust, as plain numbers and byte buffers. Each function here is one line
// over a function of lent_calls, lent_looks, lent_display or lent_lens and has its contract. The crate cuelink_c exports them; the C header is
// cuelink/cuelink.h at the repository's root. A buffer comes from C as a pointer and a length; a state is 31,136 bytes and a display 25, which the
// host lends to each call. The functions ask nothing of their caller but buffers of the lengths that it says. Answers are numbers: the crate
// lent_answer, specs/Number.antt.
#![tactic(auto)]

ghost use Rattle.std.specs.Prelude.{◌≡◌, length};
ghost use Rattle.display.specs.Call.{Step};
ghost use Rattle.end.specs.declared.Move.TheVariants.{Join, Joined, Leave, Left, Crash};
ghost use Rattle.end.specs.Event.{Moves, Send, Arrival, Else, Fire, Report, Fetch, Announce};
ghost use Rattle.lent_end.specs.State.{state_width};
ghost use Rattle.lent_calls.specs.Arguments.{name_of, cue_of};
ghost use Rattle.lent_calls.specs.Call.{CallIs};
ghost use Rattle.lent_calls.specs.Open.{OpensAs, open_of, reopen_of};
ghost use Rattle.lent_calls.specs.Reason.{reason_of};
ghost use Rattle.lent_display.specs.Bytes.{display_width};
ghost use Rattle.lent_display.specs.Call.{OpenIs, HearIs, hear_lost, CallIs as DisplayCallIs, look as displayLook, trail_of, lead_of};
ghost use Rattle.lent_lens.specs.Lens.{find_number, roll_number};
ghost use Rattle.lent_looks.specs.Looks.{look, host_in, clock_in, status_in, next_in, due_in, look_at, first_in, last_in, missed_in, origin_in, distance_in};

use end::{Draw, Event, Move};

// ---- the state

// How many bytes a state has.
pub fn cuelink_size() -> u64
    ensures { result ≡ state_width }
{
    31136
}

// Opens an end: 0, or 3 where the state has another length, 12, 13 or 14.
pub fn cuelink_open(host: u64, params: &[u64], state: &mut [u8]) -> u64
    ensures { OpensAs (open_of host params.now) state.old state.new result }
{
    lent_calls::open(host, params, state)
}

// Opens an end again after a restart: 0, or 3 where the state has another length, 12, 13, 14, 4 or 7.
pub fn cuelink_reopen(host: u64, params: &[u64], clock: u64, next: u64, state: &mut [u8]) -> u64
    ensures { OpensAs (reopen_of host params.now clock next) state.old state.new result }
{
    lent_calls::reopen(host, params, clock, next, state)
}

// ---- the eleven events

// Idle to joining.
pub fn cuelink_join(state: &mut [u8], clock: u64, draws: &[Draw], out: &mut [u8]) -> u64
    ensures { CallIs (Moves Join) clock draws.now out.old out.new state.old state.new result }
{
    lent_calls::event(
        state,
        clock,
        draws,
        Event::Moves(Move::Join),
        [0; 24],
        &[0; 0],
        out,
    )
}

// Joining to member.
pub fn cuelink_joined(state: &mut [u8], clock: u64, draws: &[Draw], out: &mut [u8]) -> u64
    ensures { CallIs (Moves Joined) clock draws.now out.old out.new state.old state.new result }
{
    lent_calls::event(
        state,
        clock,
        draws,
        Event::Moves(Move::Joined),
        [0; 24],
        &[0; 0],
        out,
    )
}

// Joining or member to leaving.
pub fn cuelink_leave(state: &mut [u8], clock: u64, draws: &[Draw], out: &mut [u8]) -> u64
    ensures { CallIs (Moves Leave) clock draws.now out.old out.new state.old state.new result }
{
    lent_calls::event(
        state,
        clock,
        draws,
        Event::Moves(Move::Leave),
        [0; 24],
        &[0; 0],
        out,
    )
}

// Leaving to idle.
pub fn cuelink_left(state: &mut [u8], clock: u64, draws: &[Draw], out: &mut [u8]) -> u64
    ensures { CallIs (Moves Left) clock draws.now out.old out.new state.old state.new result }
{
    lent_calls::event(
        state,
        clock,
        draws,
        Event::Moves(Move::Left),
        [0; 24],
        &[0; 0],
        out,
    )
}

// To crashed, for good.
pub fn cuelink_crash(state: &mut [u8], clock: u64, draws: &[Draw], out: &mut [u8]) -> u64
    ensures { CallIs (Moves Crash) clock draws.now out.old out.new state.old state.new result }
{
    lent_calls::event(
        state,
        clock,
        draws,
        Event::Moves(Move::Crash),
        [0; 24],
        &[0; 0],
        out,
    )
}

// A member's cue goes out under its next number. A cue that is not of 24 bytes is refused as 6, in 6's place.
pub fn cuelink_send(state: &mut [u8], clock: u64, draws: &[Draw], cue: &[u8], out: &mut [u8]) -> u64
    ensures { CallIs (Send (cue_of cue.now)) clock draws.now out.old out.new state.old state.new result }
{
    lent_calls::send(state, clock, draws, cue, out)
}

// A message, or a probe where there are no bytes.
pub fn cuelink_arrival(
    state: &mut [u8],
    clock: u64,
    draws: &[Draw],
    bytes: &[u8],
    out: &mut [u8],
) -> u64
    ensures { CallIs (Arrival bytes.now) clock draws.now out.old out.new state.old state.new result }
{
    lent_calls::event(state, clock, draws, Event::Arrival, [0; 24], bytes, out)
}

// The earliest wait that is due goes out.
pub fn cuelink_fire(state: &mut [u8], clock: u64, draws: &[Draw], out: &mut [u8]) -> u64
    ensures { CallIs (Else Fire) clock draws.now out.old out.new state.old state.new result }
{
    lent_calls::event(state, clock, draws, Event::Fire, [0; 24], &[0; 0], out)
}

// A session message goes out.
pub fn cuelink_report(state: &mut [u8], clock: u64, draws: &[Draw], out: &mut [u8]) -> u64
    ensures { CallIs (Else Report) clock draws.now out.old out.new state.old state.new result }
{
    lent_calls::event(state, clock, draws, Event::Report, [0; 24], &[0; 0], out)
}

// A cue from before the first original is asked for. A source or number that there is not is ignored.
pub fn cuelink_fetch(
    state: &mut [u8],
    clock: u64,
    draws: &[Draw],
    source: u64,
    number: u64,
    out: &mut [u8],
) -> u64
    ensures { CallIs (Else (Fetch (name_of source number))) clock draws.now out.old out.new state.old state.new result }
{
    lent_calls::fetch(state, clock, draws, source, number, out)
}

// The own first and last go out, for displays.
pub fn cuelink_announce(state: &mut [u8], clock: u64, draws: &[Draw], out: &mut [u8]) -> u64
    ensures { CallIs (Else Announce) clock draws.now out.old out.new state.old state.new result }
{
    lent_calls::event(state, clock, draws, Event::Announce, [0; 24], &[0; 0], out)
}

// Why an event would be ignored, or the number that would refuse it. `event` is 0 to 10 in the order of the functions above.
pub fn cuelink_reason(
    state: &[u8],
    clock: u64,
    event: u64,
    source: u64,
    number: u64,
    bytes: &[u8],
) -> u64
    ensures { result ≡ reason_of clock event source number bytes.now state.now }
{
    lent_calls::reason(state, clock, event, source, number, bytes)
}

// ---- looks: 2^64−1 where there is nothing to tell, or the bytes are no state

// The least due time of all waits: before it a Fire has nothing to put out.
pub fn cuelink_due(state: &[u8]) -> u64
    ensures { result ≡ look due_in state.now }
{
    lent_looks::due(state)
}

pub fn cuelink_host(state: &[u8]) -> u64
    ensures { result ≡ look host_in state.now }
{
    lent_looks::host(state)
}

pub fn cuelink_clock(state: &[u8]) -> u64
    ensures { result ≡ look clock_in state.now }
{
    lent_looks::clock(state)
}

// 0 idle, 1 joining, 2 member, 3 leaving, 4 crashed.
pub fn cuelink_status(state: &[u8]) -> u64
    ensures { result ≡ look status_in state.now }
{
    lent_looks::status(state)
}

// The next own cue number.
pub fn cuelink_next(state: &[u8]) -> u64
    ensures { result ≡ look next_in state.now }
{
    lent_looks::next(state)
}

// The first number that is kept of a source.
pub fn cuelink_first(state: &[u8], source: u64) -> u64
    ensures { result ≡ look_at first_in source state.now }
{
    lent_looks::first(state, source)
}

// The last.
pub fn cuelink_last(state: &[u8], source: u64) -> u64
    ensures { result ≡ look_at last_in source state.now }
{
    lent_looks::last(state, source)
}

// How many numbers were retired without a cue since joining.
pub fn cuelink_missed(state: &[u8], source: u64) -> u64
    ensures { result ≡ look_at missed_in source state.now }
{
    lent_looks::missed(state, source)
}

// The first original's number since joining: the 64 just below it may be fetched.
pub fn cuelink_origin(state: &[u8], source: u64) -> u64
    ensures { result ≡ look_at origin_in source state.now }
{
    lent_looks::origin(state, source)
}

// The distance to a host, in milliseconds.
pub fn cuelink_distance(state: &[u8], host: u64) -> u64
    ensures { result ≡ look_at distance_in host state.now }
{
    lent_looks::distance(state, host)
}

// ---- foyer displays

// How many bytes a display has.
pub fn cuelink_display_size() -> u64
    ensures { result ≡ display_width }
{
    25
}

// Opens a display that follows a sender: 0, or 3 where it has another length, or 12.
pub fn cuelink_display_open(own: u64, sender: u64, display: &mut [u8]) -> u64
    ensures { OpenIs own sender display.old display.new result }
{
    lent_display::open(own, sender, display)
}

// A display takes a message. `lost` has room for four numbers: from which the set counts, the set, first and last of those lost above the old lead.
pub fn cuelink_display_hear(
    display: &mut [u8],
    clock: u64,
    bytes: &[u8],
    lost: &mut [u64],
    out: &mut [u8],
) -> u64
    ensures hear_is { HearIs bytes.now clock lost.old display.old display.new out.old out.new result }
    ensures lost_after { lost.new ≡ hear_lost bytes.now clock lost.old display.old out.old }
{
    lent_display::hear(display, clock, bytes, lost, out)
}

// The request of the lowest missing number goes out.
pub fn cuelink_display_step(display: &mut [u8], clock: u64, out: &mut [u8]) -> u64
    ensures { DisplayCallIs Step clock (length out.old) display.old display.new out.old out.new result }
{
    lent_display::step(display, clock, out)
}

pub fn cuelink_display_own(display: &[u8]) -> u64
    ensures { result ≡ displayLook (λ d. d.own.0) display.now }
{
    lent_display::own(display)
}

pub fn cuelink_display_sender(display: &[u8]) -> u64
    ensures { result ≡ displayLook (λ d. d.sender.0) display.now }
{
    lent_display::sender(display)
}

pub fn cuelink_display_clock(display: &[u8]) -> u64
    ensures { result ≡ displayLook (λ d. d.clock) display.now }
{
    lent_display::clock(display)
}

pub fn cuelink_display_trail(display: &[u8]) -> u64
    ensures { result ≡ displayLook (λ d. trail_of d.window) display.now }
{
    lent_display::trail(display)
}

pub fn cuelink_display_lead(display: &[u8]) -> u64
    ensures { result ≡ displayLook (λ d. lead_of d.window) display.now }
{
    lent_display::lead(display)
}

// ---- lens windows

// The earliest minute, not before the given one, that lies in a window of the list, of eight numbers each.
pub fn cuelink_windows_find(windows: &[u64], year: u64, month: u64, day: u64, minute: u64) -> u64
    ensures { result ≡ find_number windows.now year month day minute }
{
    lent_lens::find(windows, year, month, day, minute)
}

// The day after.
pub fn cuelink_date_roll(year: u64, month: u64, day: u64) -> u64
    ensures { result ≡ roll_number year month day }
{
    lent_lens::roll(year, month, day)
}
