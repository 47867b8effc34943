// The archive for hosts in C and Rust: the calls of the crate cuelink under C's names, each with that call's own clauses. The C header is
// cuelink/cuelink.h at the repository's root, and the archive that its Makefile makes of this is libcuelink.a. A buffer comes from C as a pointer and
// a length.
#![tactic(auto)]

ghost use Rattle.std.specs.Prelude.{◌≡◌, length};
ghost use Rattle.display.specs.Call.{Step};
ghost use Rattle.end.specs.declared.Move.TheVariants.{Join, Joined, Leave, Left, Crash};
ghost use Rattle.end.specs.Event.{Moves, Send, Arrival, Else, Fire, Report, Fetch, Announce};
ghost use Rattle.lent_end.specs.State.{state_width};
ghost use Rattle.lent_calls.specs.Arguments.{name_of, cue_of};
ghost use Rattle.lent_calls.specs.Call.{CallIs};
ghost use Rattle.lent_calls.specs.Open.{OpensAs, open_of, reopen_of};
ghost use Rattle.lent_calls.specs.Reason.{reason_of};
ghost use Rattle.lent_display.specs.Bytes.{display_width};
ghost use Rattle.lent_display.specs.Call.{OpenIs, HearIs, hear_lost, CallIs as DisplayCallIs, look as displayLook, trail_of, lead_of};
ghost use Rattle.lent_lens.specs.Lens.{find_number, roll_number};
ghost use Rattle.lent_looks.specs.Looks.{look, host_in, clock_in, status_in, next_in, due_in, look_at, first_in, last_in, missed_in, origin_in, distance_in};

use end::Draw;

// ---- the state

// How many bytes a state has.
#[unsafe(no_mangle)]
pub extern "C" fn cuelink_size() -> u64
    ensures { result ≡ state_width }
{
    cuelink::cuelink_size()
}

// Opens an end: 0, or 3 where the state has another length, 12, 13 or 14.
#[unsafe(no_mangle)]
pub extern "C" fn cuelink_open(host: u64, params: &[u64], state: &mut [u8]) -> u64
    ensures { OpensAs (open_of host params.now) state.old state.new result }
{
    cuelink::cuelink_open(host, params, state)
}

// Opens an end again after a restart: 0, or 3 where the state has another length, 12, 13, 14, 4 or 7.
#[unsafe(no_mangle)]
pub extern "C" fn cuelink_reopen(
    host: u64,
    params: &[u64],
    clock: u64,
    next: u64,
    state: &mut [u8],
) -> u64
    ensures { OpensAs (reopen_of host params.now clock next) state.old state.new result }
{
    cuelink::cuelink_reopen(host, params, clock, next, state)
}

// ---- the eleven events

// Idle to joining.
#[unsafe(no_mangle)]
pub extern "C" fn cuelink_join(state: &mut [u8], clock: u64, draws: &[Draw], out: &mut [u8]) -> u64
    ensures { CallIs (Moves Join) clock draws.now out.old out.new state.old state.new result }
{
    cuelink::cuelink_join(state, clock, draws, out)
}

// Joining to member.
#[unsafe(no_mangle)]
pub extern "C" fn cuelink_joined(
    state: &mut [u8],
    clock: u64,
    draws: &[Draw],
    out: &mut [u8],
) -> u64
    ensures { CallIs (Moves Joined) clock draws.now out.old out.new state.old state.new result }
{
    cuelink::cuelink_joined(state, clock, draws, out)
}

// Joining or member to leaving.
#[unsafe(no_mangle)]
pub extern "C" fn cuelink_leave(state: &mut [u8], clock: u64, draws: &[Draw], out: &mut [u8]) -> u64
    ensures { CallIs (Moves Leave) clock draws.now out.old out.new state.old state.new result }
{
    cuelink::cuelink_leave(state, clock, draws, out)
}

// Leaving to idle.
#[unsafe(no_mangle)]
pub extern "C" fn cuelink_left(state: &mut [u8], clock: u64, draws: &[Draw], out: &mut [u8]) -> u64
    ensures { CallIs (Moves Left) clock draws.now out.old out.new state.old state.new result }
{
    cuelink::cuelink_left(state, clock, draws, out)
}

// To crashed, for good.
#[unsafe(no_mangle)]
pub extern "C" fn cuelink_crash(state: &mut [u8], clock: u64, draws: &[Draw], out: &mut [u8]) -> u64
    ensures { CallIs (Moves Crash) clock draws.now out.old out.new state.old state.new result }
{
    cuelink::cuelink_crash(state, clock, draws, out)
}

// A member's cue goes out under its next number. A cue that is not of 24 bytes is refused as 6, in 6's place.
#[unsafe(no_mangle)]
pub extern "C" fn cuelink_send(
    state: &mut [u8],
    clock: u64,
    draws: &[Draw],
    cue: &[u8],
    out: &mut [u8],
) -> u64
    ensures { CallIs (Send (cue_of cue.now)) clock draws.now out.old out.new state.old state.new result }
{
    cuelink::cuelink_send(state, clock, draws, cue, out)
}

// A message, or a probe where there are no bytes.
#[unsafe(no_mangle)]
pub extern "C" fn cuelink_arrival(
    state: &mut [u8],
    clock: u64,
    draws: &[Draw],
    bytes: &[u8],
    out: &mut [u8],
) -> u64
    ensures { CallIs (Arrival bytes.now) clock draws.now out.old out.new state.old state.new result }
{
    cuelink::cuelink_arrival(state, clock, draws, bytes, out)
}

// The earliest wait that is due goes out.
#[unsafe(no_mangle)]
pub extern "C" fn cuelink_fire(state: &mut [u8], clock: u64, draws: &[Draw], out: &mut [u8]) -> u64
    ensures { CallIs (Else Fire) clock draws.now out.old out.new state.old state.new result }
{
    cuelink::cuelink_fire(state, clock, draws, out)
}

// A session message goes out.
#[unsafe(no_mangle)]
pub extern "C" fn cuelink_report(
    state: &mut [u8],
    clock: u64,
    draws: &[Draw],
    out: &mut [u8],
) -> u64
    ensures { CallIs (Else Report) clock draws.now out.old out.new state.old state.new result }
{
    cuelink::cuelink_report(state, clock, draws, out)
}

// A cue from before the first original is asked for. A source or number that there is not is ignored.
#[unsafe(no_mangle)]
pub extern "C" fn cuelink_fetch(
    state: &mut [u8],
    clock: u64,
    draws: &[Draw],
    source: u64,
    number: u64,
    out: &mut [u8],
) -> u64
    ensures { CallIs (Else (Fetch (name_of source number))) clock draws.now out.old out.new state.old state.new result }
{
    cuelink::cuelink_fetch(state, clock, draws, source, number, out)
}

// The own first and last go out, for displays.
#[unsafe(no_mangle)]
pub extern "C" fn cuelink_announce(
    state: &mut [u8],
    clock: u64,
    draws: &[Draw],
    out: &mut [u8],
) -> u64
    ensures { CallIs (Else Announce) clock draws.now out.old out.new state.old state.new result }
{
    cuelink::cuelink_announce(state, clock, draws, out)
}

// Why an event would be ignored, or the number that would refuse it. `event` is 0 to 10 in the order of the functions above.
#[unsafe(no_mangle)]
pub extern "C" fn cuelink_reason(
    state: &[u8],
    clock: u64,
    event: u64,
    source: u64,
    number: u64,
    bytes: &[u8],
) -> u64
    ensures { result ≡ reason_of clock event source number bytes.now state.now }
{
    cuelink::cuelink_reason(state, clock, event, source, number, bytes)
}

// ---- looks: 2^64−1 where there is nothing to tell, or the bytes are no state

// The least due time of all waits: before it a Fire has nothing to put out.
#[unsafe(no_mangle)]
pub extern "C" fn cuelink_due(state: &[u8]) -> u64
    ensures { result ≡ look due_in state.now }
{
    cuelink::cuelink_due(state)
}

#[unsafe(no_mangle)]
pub extern "C" fn cuelink_host(state: &[u8]) -> u64
    ensures { result ≡ look host_in state.now }
{
    cuelink::cuelink_host(state)
}

#[unsafe(no_mangle)]
pub extern "C" fn cuelink_clock(state: &[u8]) -> u64
    ensures { result ≡ look clock_in state.now }
{
    cuelink::cuelink_clock(state)
}

// 0 idle, 1 joining, 2 member, 3 leaving, 4 crashed.
#[unsafe(no_mangle)]
pub extern "C" fn cuelink_status(state: &[u8]) -> u64
    ensures { result ≡ look status_in state.now }
{
    cuelink::cuelink_status(state)
}

// The next own cue number.
#[unsafe(no_mangle)]
pub extern "C" fn cuelink_next(state: &[u8]) -> u64
    ensures { result ≡ look next_in state.now }
{
    cuelink::cuelink_next(state)
}

// The first number that is kept of a source.
#[unsafe(no_mangle)]
pub extern "C" fn cuelink_first(state: &[u8], source: u64) -> u64
    ensures { result ≡ look_at first_in source state.now }
{
    cuelink::cuelink_first(state, source)
}

// The last.
#[unsafe(no_mangle)]
pub extern "C" fn cuelink_last(state: &[u8], source: u64) -> u64
    ensures { result ≡ look_at last_in source state.now }
{
    cuelink::cuelink_last(state, source)
}

// How many numbers were retired without a cue since joining.
#[unsafe(no_mangle)]
pub extern "C" fn cuelink_missed(state: &[u8], source: u64) -> u64
    ensures { result ≡ look_at missed_in source state.now }
{
    cuelink::cuelink_missed(state, source)
}

// The first original's number since joining: the 64 just below it may be fetched.
#[unsafe(no_mangle)]
pub extern "C" fn cuelink_origin(state: &[u8], source: u64) -> u64
    ensures { result ≡ look_at origin_in source state.now }
{
    cuelink::cuelink_origin(state, source)
}

// The distance to a host, in milliseconds.
#[unsafe(no_mangle)]
pub extern "C" fn cuelink_distance(state: &[u8], host: u64) -> u64
    ensures { result ≡ look_at distance_in host state.now }
{
    cuelink::cuelink_distance(state, host)
}

// ---- foyer displays

// How many bytes a display has.
#[unsafe(no_mangle)]
pub extern "C" fn cuelink_display_size() -> u64
    ensures { result ≡ display_width }
{
    cuelink::cuelink_display_size()
}

// Opens a display that follows a sender: 0, or 3 where it has another length, or 12.
#[unsafe(no_mangle)]
pub extern "C" fn cuelink_display_open(own: u64, sender: u64, display: &mut [u8]) -> u64
    ensures { OpenIs own sender display.old display.new result }
{
    cuelink::cuelink_display_open(own, sender, display)
}

// A display takes a message. `lost` has room for four numbers: from which the set counts, the set, first and last of those lost above the old lead.
#[unsafe(no_mangle)]
pub extern "C" fn cuelink_display_hear(
    display: &mut [u8],
    clock: u64,
    bytes: &[u8],
    lost: &mut [u64],
    out: &mut [u8],
) -> u64
    ensures hear_is { HearIs bytes.now clock lost.old display.old display.new out.old out.new result }
    ensures lost_after { lost.new ≡ hear_lost bytes.now clock lost.old display.old out.old }
{
    cuelink::cuelink_display_hear(display, clock, bytes, lost, out)
}

// The request of the lowest missing number goes out.
#[unsafe(no_mangle)]
pub extern "C" fn cuelink_display_step(display: &mut [u8], clock: u64, out: &mut [u8]) -> u64
    ensures { DisplayCallIs Step clock (length out.old) display.old display.new out.old out.new result }
{
    cuelink::cuelink_display_step(display, clock, out)
}

#[unsafe(no_mangle)]
pub extern "C" fn cuelink_display_own(display: &[u8]) -> u64
    ensures { result ≡ displayLook (λ d. d.own.0) display.now }
{
    cuelink::cuelink_display_own(display)
}

#[unsafe(no_mangle)]
pub extern "C" fn cuelink_display_sender(display: &[u8]) -> u64
    ensures { result ≡ displayLook (λ d. d.sender.0) display.now }
{
    cuelink::cuelink_display_sender(display)
}

#[unsafe(no_mangle)]
pub extern "C" fn cuelink_display_clock(display: &[u8]) -> u64
    ensures { result ≡ displayLook (λ d. d.clock) display.now }
{
    cuelink::cuelink_display_clock(display)
}

#[unsafe(no_mangle)]
pub extern "C" fn cuelink_display_trail(display: &[u8]) -> u64
    ensures { result ≡ displayLook (λ d. trail_of d.window) display.now }
{
    cuelink::cuelink_display_trail(display)
}

#[unsafe(no_mangle)]
pub extern "C" fn cuelink_display_lead(display: &[u8]) -> u64
    ensures { result ≡ displayLook (λ d. lead_of d.window) display.now }
{
    cuelink::cuelink_display_lead(display)
}

// ---- lens windows

// The earliest minute, not before the given one, that lies in a window of the list, of eight numbers each.
#[unsafe(no_mangle)]
pub extern "C" fn cuelink_windows_find(
    windows: &[u64],
    year: u64,
    month: u64,
    day: u64,
    minute: u64,
) -> u64
    ensures { result ≡ find_number windows.now year month day minute }
{
    cuelink::cuelink_windows_find(windows, year, month, day, minute)
}

// The day after.
#[unsafe(no_mangle)]
pub extern "C" fn cuelink_date_roll(year: u64, month: u64, day: u64) -> u64
    ensures { result ≡ roll_number year month day }
{
    cuelink::cuelink_date_roll(year, month, day)
}
