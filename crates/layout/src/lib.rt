// The layout of a message, written: its bytes, `bytes_of` of the crate message, specs/Message.antt, into a buffer. No question is asked
// here: the writer asks them, and an end's own messages have their counts by the way they are made. So these are helpers of the crates
// above, whose `requires` ask for room and for counts that fit the places.
// The width w of a cue number goes by the message's kind (`message::number_width`).
#![tactic(auto)]

ghost use Rattle.std.specs.Prelude.{◌≡◌, ℕ, List, [], ◌∷◌, ◌+◌, ◌*◌, ◌≤◌, ◌<◌, length, take};
ghost use Rattle.numbers.specs.Number.{digits};
ghost use Rattle.numbers.specs.Splice.{splice};
ghost use Rattle.message.specs.Limit.{room_needed};
ghost use Rattle.message.specs.Kind.{number_width, widest_number};
ghost use Rattle.message.specs.Section.{section};
ghost use Rattle.message.specs.Entry.{name_width, name_bytes, cue_width, cue_bytes, report_width, report_bytes, echo_width, echo_bytes};
ghost use Rattle.message.specs.Message.{Small, head_bytes, front_bytes, back_bytes, bytes_with, bytes_of, meaning_of};
ghost use Rattle.layout.specs.Puts.{Puts};

use message::{
    CUE_WIDTH, CueNumber, ECHO_WIDTH, Echo, Host, Message, NAME_HOSTS, NameEntry, REPORT_HOSTS,
    Report,
};

fn put_number(out: &mut [u8], at: usize, w: usize, n: CueNumber)
    requires { at + w ≤ length out.old }
    ensures { out.new ≡ splice at (digits w n.0) out.old }
{
    numbers::put_be(out, at, w, n.0 as u64)
}

// An entry of a section: how many bytes it has and which they are, over the width w of a cue number.
trait Entry: Copy {
    ghost width: { ℕ → ℕ };

    ghost bytes: { ℕ → Self → List ℕ };

    fn width_of(w: usize) -> usize
        requires { w ≤ widest_number }
        ensures { result ≡ width w };

    // Writes the entry from a place on.
    fn put(self, out: &mut [u8], at: usize, w: usize)
        requires { at + width w ≤ length out.old }
        ensures { Puts at (width w) (bytes w self) out.old out.new };
}

impl Entry for NameEntry {
    ghost width = { name_width };

    ghost bytes = { name_bytes };

    fn width_of(w: usize) -> usize {
        NAME_HOSTS + w
    }

    fn put(self, out: &mut [u8], at: usize, w: usize) {
        numbers::put_byte(out, at, self.name.source.0);
        put_number(out, at + 1, w, self.name.number);
        numbers::put_byte(out, at + 1 + w, self.host.0);
    }
}

impl Entry for Report {
    ghost width = { report_width };

    ghost bytes = { report_bytes };

    fn width_of(w: usize) -> usize {
        REPORT_HOSTS + w
    }

    fn put(self, out: &mut [u8], at: usize, w: usize) {
        numbers::put_byte(out, at, self.source.0);
        put_number(out, at + 1, w, self.last);
    }
}

impl Entry for Echo {
    ghost width = { λ w. echo_width };

    ghost bytes = { λ w. echo_bytes };

    fn width_of(_w: usize) -> usize {
        ECHO_WIDTH
    }

    fn put(self, out: &mut [u8], at: usize, _w: usize) {
        numbers::put_byte(out, at, self.host.0);
        numbers::put_be(out, at + 1, 6, self.stamp);
        numbers::put_be(out, at + 7, 6, self.held);
    }
}

// A section: its count, and the first n entries of an array.
fn put_section<T: Entry, const N: usize>(
    out: &mut [u8],
    at: usize,
    w: usize,
    n: usize,
    entries: [T; N],
)
    requires w_le_widest_number { w ≤ widest_number }
    requires n_le_places { n ≤ N }
    requires n_is_byte { n < 256 }
    requires w_in_bounds { at + (1 + n * T.width w) ≤ length out.old }
    ensures { Puts at (1 + n * T.width w) (section (T.bytes w) (take n entries)) out.old out.new }
{
    numbers::put_byte(out, at, n as u8);
    for i in 0..n {
        entries[i].put(out, at + 1 + i * T::width_of(w), w);
    }
}

fn put_cues(out: &mut [u8], at: usize, n: usize, cue: &[u8; 24])
    requires n_bound { n ≤ 1 }
    requires cue_width_in_bounds { at + (1 + n * cue_width) ≤ length out.old }
    ensures { Puts at (1 + n * cue_width) (section cue_bytes (take n (cue.now ∷ []))) out.old out.new }
{
    numbers::put_byte(out, at, n as u8);
    if n == 1 {
        numbers::put_bytes(out, at + 1, cue);
    }
}

fn put_head(out: &mut [u8], kind: u8, sender: Host, stamp: u64)
    requires { 8 ≤ length out.old }
    ensures { Puts 0 8 (head_bytes kind sender stamp) out.old out.new }
{
    numbers::put_byte(out, 0, kind);
    numbers::put_byte(out, 1, sender.0);
    numbers::put_be(out, 2, 6, stamp);
}

// The names and the cues, after the head.
fn put_front(out: &mut [u8], w: usize, m: Message)
    requires w_le_widest_number { w ≤ widest_number }
    requires small { Small w m.counts }
    requires room_needed_in_bounds { room_needed ≤ length out.old }
    ensures { Puts 0 (10 + m.counts.names * name_width w + m.counts.cues * cue_width) (front_bytes w m.kind m.sender m.stamp (meaning_of m).names (meaning_of m).cues) out.old out.new }
{
    let c = m.counts;
    let at = 9 + c.names * (NAME_HOSTS + w);
    put_head(out, m.kind, m.sender, m.stamp);
    put_section(out, 8, w, c.names, m.names);
    put_cues(out, at, c.cues, &m.cue);
}

// The reports and the echoes.
fn put_back(out: &mut [u8], at: usize, w: usize, m: Message)
    requires w_le_widest_number { w ≤ widest_number }
    requires small { Small w m.counts }
    requires echo_width_in_bounds { at + (2 + m.counts.reports * report_width w + m.counts.echoes * echo_width) ≤ length out.old }
    ensures { Puts at (2 + m.counts.reports * report_width w + m.counts.echoes * echo_width) (back_bytes w (meaning_of m).reports (meaning_of m).echoes) out.old out.new }
{
    let c = m.counts;
    let next = at + 1 + c.reports * (REPORT_HOSTS + w);
    put_section(out, at, w, c.reports, m.reports);
    put_section(out, next, w, c.echoes, m.echoes);
}

fn put_with(out: &mut [u8], w: usize, m: Message) -> usize
    requires w_le_widest_number { w ≤ widest_number }
    requires small { Small w m.counts }
    requires room_needed_in_bounds { room_needed ≤ length out.old }
    ensures { Puts 0 result (bytes_with w m.kind (meaning_of m)) out.old out.new }
{
    let c = m.counts;
    let at = 10 + c.names * (NAME_HOSTS + w) + c.cues * CUE_WIDTH;
    let rest = 2 + c.reports * (REPORT_HOSTS + w) + c.echoes * ECHO_WIDTH;
    put_front(out, w, m);
    put_back(out, at, w, m);
    at + rest
}

// Writes a message whose counts fit its places, and returns its length.
pub fn put_message(out: &mut [u8], m: Message) -> usize
    requires { Small (number_width m.kind) m.counts × (room_needed ≤ length out.old) }
    ensures value { result ≡ length (bytes_of (meaning_of m)) }
    ensures out_after { out.new ≡ splice 0 (bytes_of (meaning_of m)) out.old }
{
    let w = message::number_width(m.kind);
    put_with(out, w, m)
}
