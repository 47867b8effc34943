// A display that a host lends as 25 bytes, and the calls on it:
//   0 mark CD | 1 layout 01 | 2 own 1 | 3 sender 1 | 4 clock 8 | 12 tag 1 (0 unstarted, else 1) | 13 trail 2 | 15 lead 2 | 17 set 8
// Numbers are big-endian; with tag 0 the rest is 0, so each display has exactly one form. The definitions are in specs/: Bytes (the form), Call (the
// calls), Rows (two displays and their bytes). What a call does on the display itself is the crate display's.
#![tactic(auto)]

ghost use Rattle.std.specs.Prelude.{◌≡◌, true, ◌∷◌, ◌++◌, ◌≤◌, length, drop};
ghost use Rattle.layout.specs.Puts.{Puts};
ghost use Rattle.lent_fields.specs.Fields.{four};
ghost use Rattle.display.specs.Call.{Hear, Step};
ghost use Rattle.lent_display.specs.Bytes.{four_bytes, FourFit, window_from, window_test, window_bytes, WindowFits};
ghost use Rattle.lent_display.specs.Bytes.{head_bytes, HeadFits, display_width, display_from, is_display, Holds};
ghost use Rattle.lent_display.specs.Call.{lost_places, lost_numbers, Called, call_lost, CallIs, HearIs, hear_lost, OpenIs, look, trail_of, lead_of};

use display::Display;
use display_window::{Lost, Window};
use end::Answer;
use lent_answer::NONE;
use lent_fields::{is_option, option_of, put1, put2, put8, read1, read2, read8};
use message::{CueNumber, Host, ROOM_NEEDED};

const WIDTH: usize = 25;

// CD 01.
const MARK: u16 = 52481;

// How many lost numbers hear writes.
const LOST_PLACES: usize = 4;

// ---- the window

fn get_window(s: &[u8]) -> Option<Window>
    requires { length s.now ≡ display_width }
    ensures { result ≡ window_from s.now 12 }
{
    let window = Window {
        trail: CueNumber(read2(s, 13)),
        lead: CueNumber(read2(s, 15)),
        set: read8(s, 17),
    };
    option_of(read1(s, 12), window)
}

fn is_window(s: &[u8]) -> bool
    requires { length s.now ≡ display_width }
    ensures { result ≡ window_test s.now 12 }
{
    let none = (read2(s, 13) == 0) & (read2(s, 15) == 0) & (read8(s, 17) == 0);
    is_option(read1(s, 12), none)
}

fn put_four(s: &mut [u8], tag: u8, trail: u16, lead: u16, set: u64)
    requires { length s.old ≡ display_width }
    ensures puts { Puts 12 13 (four_bytes (four tag trail lead set)) s.old s.new }
    ensures four_fit { FourFit (four tag trail lead set) }
{
    put1(s, 12, tag);
    put2(s, 13, trail);
    put2(s, 15, lead);
    put8(s, 17, set);
}

fn put_window(s: &mut [u8], window: Option<Window>)
    requires { length s.old ≡ display_width }
    ensures puts { Puts 12 13 (window_bytes window) s.old s.new }
    ensures window_fits { WindowFits window }
{
    match window {
        None => put_four(s, 0, 0, 0, 0),
        Some(w) => put_four(s, 1, w.trail.0, w.lead.0, w.set),
    }
}

// ---- the display

// Whether the bytes are those of a display.
pub fn is_display(s: &[u8]) -> bool
    ensures { result ≡ is_display s.now }
{
    if s.len() != WIDTH {
        return false;
    }
    let mark = read2(s, 0);
    (mark == MARK) & is_window(s)
}

pub fn get_display(s: &[u8]) -> Display
    requires { length s.now ≡ display_width }
    ensures { result ≡ display_from s.now }
{
    let own = read1(s, 2);
    let sender = read1(s, 3);
    let clock = read8(s, 4);
    let window = get_window(s);
    Display {
        own: Host(own),
        sender: Host(sender),
        clock,
        window,
    }
}

fn put_head(s: &mut [u8], own: u8, sender: u8, clock: u64)
    requires { length s.old ≡ display_width }
    ensures puts { Puts 0 12 (head_bytes own sender clock) s.old s.new }
    ensures head_fits { HeadFits own sender clock }
{
    put2(s, 0, MARK);
    put1(s, 2, own);
    put1(s, 3, sender);
    put8(s, 4, clock);
}

pub fn put_display(s: &mut [u8], d: Display)
    requires { length s.old ≡ display_width }
    ensures { Holds s.new d }
{
    let window = d.window;
    put_head(s, d.own.0, d.sender.0, d.clock);
    put_window(s, window);
}

// ---- the calls

// Opens a display for two hosts: 0, or 3 where there are not 25 bytes, or 12. A refusal writes nothing.
pub fn open(own: u64, sender: u64, s: &mut [u8]) -> u64
    ensures { OpenIs own sender s.old s.new result }
{
    if s.len() != WIDTH {
        return 3;
    }
    let own_host = lent_answer::host_of(own);
    let sender_host = lent_answer::host_of(sender);
    let o = display::open(own_host, sender_host);
    let verdict = o.verdict;
    let d = o.display;
    let q = message::number_of(verdict);
    if q == 0 {
        put_display(s, d);
        return 0;
    }
    q as u64
}

fn put_numbers(lost: &mut [u64], trail: u64, set: u64, first: u64, last: u64)
    requires { lost_places ≤ length lost.old }
    ensures { lost.new ≡ trail ∷ set ∷ first ∷ last ∷ drop lost_places lost.old }
{
    lost[0] = trail;
    lost[1] = set;
    lost[2] = first;
    lost[3] = last;
}

fn put_lost(lost: &mut [u64], l: Lost)
    requires { lost_places ≤ length lost.old }
    ensures { lost.new ≡ lost_numbers l ++ drop lost_places lost.old }
{
    let trail = l.trail.0 as u64;
    let set = l.set;
    let above = l.above;
    match above {
        None => put_numbers(lost, trail, set, NONE, NONE),
        Some(s) => put_numbers(lost, trail, set, s.first.0 as u64, s.last.0 as u64),
    }
}

// Hear on bytes that are a display's.
fn on_hear(s: &mut [u8], clock: u64, bytes: &[u8], lost: &mut [u64], out: &mut [u8]) -> Answer
    requires s_len { length s.old ≡ display_width }
    requires s_value { is_display s.old ≡ true }
    requires lost_places_in_bounds { lost_places ≤ length lost.old }
    ensures called { Called (Hear bytes.now) clock s.old s.new out.old out.new result }
    ensures lost_after { lost.new ≡ call_lost (Hear bytes.now) clock (length out.old) s.old lost.old }
{
    let d = get_display(s);
    let heard = display::hear(d, clock, bytes, out);
    let answer = heard.answer;
    let l = heard.lost;
    let left = heard.display;
    if lent_answer::is_refused(answer) {
        return answer;
    }
    put_display(s, left);
    put_lost(lost, l);
    answer
}

// Hear: question 1, whether there are bytes of a display, 3, then the display's own.
pub fn hear(s: &mut [u8], clock: u64, bytes: &[u8], lost: &mut [u64], out: &mut [u8]) -> u64
    ensures hear_is { HearIs bytes.now clock lost.old s.old s.new out.old out.new result }
    ensures lost_after { lost.new ≡ hear_lost bytes.now clock lost.old s.old out.old }
{
    if out.len() < ROOM_NEEDED {
        return 1;
    }
    if lost.len() < LOST_PLACES {
        return 1;
    }
    let ok = is_display(s);
    if ok {
        let answer = on_hear(s, clock, bytes, lost, out);
        return lent_answer::number_of(answer);
    }
    3
}

// Step on bytes that are a display's. It loses nothing.
fn on_step(s: &mut [u8], clock: u64, out: &mut [u8]) -> Answer
    requires s_len { length s.old ≡ display_width }
    requires s_value { is_display s.old ≡ true }
    ensures { Called Step clock s.old s.new out.old out.new result }
{
    let d = get_display(s);
    let stepped = display::step(d, clock, out);
    let said = stepped.answer;
    let next = stepped.display;
    if lent_answer::is_refused(said) {
        return said;
    }
    put_display(s, next);
    said
}

// Step: the same questions.
pub fn step(s: &mut [u8], clock: u64, out: &mut [u8]) -> u64
    ensures { CallIs Step clock (length out.old) s.old s.new out.old out.new result }
{
    if out.len() < ROOM_NEEDED {
        return 1;
    }
    let ok = is_display(s);
    if ok {
        let answer = on_step(s, clock, out);
        return lent_answer::number_of(answer);
    }
    3
}

// ---- looks

pub fn own(s: &[u8]) -> u64
    ensures { result ≡ look (λ d. d.own.0) s.now }
{
    let ok = is_display(s);
    if ok {
        return get_display(s).own.0 as u64;
    }
    NONE
}

pub fn sender(s: &[u8]) -> u64
    ensures { result ≡ look (λ d. d.sender.0) s.now }
{
    let ok = is_display(s);
    if ok {
        return get_display(s).sender.0 as u64;
    }
    NONE
}

pub fn clock(s: &[u8]) -> u64
    ensures { result ≡ look (λ d. d.clock) s.now }
{
    let ok = is_display(s);
    if ok {
        return get_display(s).clock;
    }
    NONE
}

fn trail_of(window: Option<Window>) -> u64
    ensures { result ≡ trail_of window }
{
    window.map_or(NONE, |w| w.trail.0 as u64)
}

fn lead_of(window: Option<Window>) -> u64
    ensures { result ≡ lead_of window }
{
    window.map_or(NONE, |w| w.lead.0 as u64)
}

pub fn trail(s: &[u8]) -> u64
    ensures { result ≡ look (λ d. trail_of d.window) s.now }
{
    let ok = is_display(s);
    if ok {
        let d = get_display(s);
        let window = d.window;
        return trail_of(window);
    }
    NONE
}

pub fn lead(s: &[u8]) -> u64
    ensures { result ≡ look (λ d. lead_of d.window) s.now }
{
    let ok = is_display(s);
    if ok {
        let d = get_display(s);
        let window = d.window;
        return lead_of(window);
    }
    NONE
}
