// The reader: any bytes to a message, or to the number of the question that they fail; no bytes are a probe. Its promise is `read_of` of
// the crate message, specs/Question.antt.
#![tactic(auto)]

ghost use Rattle.std.specs.Prelude.{◌≡◌, ℕ, List, ◌++◌, ◌+◌, ◌*◌, ◌-◌, ◌≤◌, ◌<◌, length, get_or, take, drop, replicate};
ghost use Rattle.numbers.specs.Number.{value};
ghost use Rattle.message.specs.Kind.{widest_number};
ghost use Rattle.message.specs.Section.{entries};
ghost use Rattle.message.specs.Entry.{name_width, name_of, cue_width, cue_of, report_width, report_of, echo_width, echo_of, blank_name, blank_cue, blank_report, blank_echo};
ghost use Rattle.message.specs.Message.{meaning_with, meaning_from, held_as, size_with};
ghost use Rattle.message.specs.Question.{first_no, outcome, message_questions, refusal_of, read_refusal, read_of};
ghost use Rattle.reader.specs.Counting.{ByteAt, EntriesLong, CountBytes, CountsIn, WidthIn, Loadable, message_or};

use message::{
    CUE_WIDTH, Counts, CueNumber, ECHO_WIDTH, Echo, Host, Message, NAME_HOSTS, Name, NameEntry,
    REPORT_HOSTS, Reading, Refusal, Report, Verdict,
};

// The byte at a place, and 0 past the end.
fn byte_at(s: &[u8], at: usize) -> usize
    ensures { ByteAt s.now at result }
{
    s.get(at).map_or(0, |byte| *byte as usize)
}

// How many bytes a cue number has, by the first byte.
fn width_in(s: &[u8]) -> usize
    ensures { WidthIn s.now result }
{
    message::number_width(byte_at(s, 0) as u8)
}

// How many bytes so many entries of a width have.
fn entries_long(count: usize, width: usize) -> usize
    requires count_bound { count < 256 }
    requires width_bound { width < 256 }
    ensures { EntriesLong count width result }
{
    count * width
}

// The four count bytes.
fn counts_in(s: &[u8], w: usize) -> Counts
    requires { w ≤ widest_number }
    ensures { CountsIn w s.now result }
{
    let n = byte_at(s, 8);
    let names = entries_long(n, NAME_HOSTS + w);
    let k = byte_at(s, 9 + names);
    let r = byte_at(s, 10 + names + k * CUE_WIDTH);
    let reports = entries_long(r, REPORT_HOSTS + w);
    let e = byte_at(s, 11 + names + k * CUE_WIDTH + reports);
    Counts {
        names: n,
        cues: k,
        reports: r,
        echoes: e,
    }
}

// How long a message with these counts is.
fn size_of(w: usize, c: Counts) -> usize
    requires w_le_widest_number { w ≤ widest_number }
    requires count_bytes { CountBytes c }
    ensures { result ≡ size_with w c }
{
    let names = entries_long(c.names, NAME_HOSTS + w);
    let reports = entries_long(c.reports, REPORT_HOSTS + w);
    12 + names + c.cues * CUE_WIDTH + reports + c.echoes * ECHO_WIDTH
}

fn read_number(s: &[u8], at: usize, w: usize) -> CueNumber
    requires w_le_widest_number { w ≤ widest_number }
    requires w_in_bounds { at + w ≤ length s.now }
    ensures { result.0 ≡ value (take w (drop at s.now)) }
{
    CueNumber(numbers::read_be(s, at, w) as u16)
}

// An entry of a section: how many bytes it has and what they say, over the width w of a cue number.
trait Entry: Copy {
    ghost width: { ℕ → ℕ };

    ghost entry_of: { ℕ → List ℕ → Self };

    ghost blank: { Self };

    fn width_of(w: usize) -> usize
        requires { w ≤ widest_number }
        ensures { result ≡ width w };

    // The entry that starts at a place.
    fn read(s: &[u8], at: usize, w: usize) -> Self
        requires w_le_widest_number { w ≤ widest_number }
        requires w_in_bounds { at + width w ≤ length s.now }
        ensures { result ≡ entry_of w (drop at s.now) };

    // What stands in a place that no entry uses.
    fn empty() -> Self
        ensures { result ≡ blank };
}

impl Entry for NameEntry {
    ghost width = { name_width };

    ghost entry_of = { name_of };

    ghost blank = { blank_name };

    fn width_of(w: usize) -> usize {
        NAME_HOSTS + w
    }

    fn read(s: &[u8], at: usize, w: usize) -> NameEntry {
        let number = read_number(s, at + 1, w);
        NameEntry {
            name: Name {
                source: Host(s[at]),
                number,
            },
            host: Host(s[at + (1 + w)]),
        }
    }

    fn empty() -> NameEntry {
        NameEntry::default()
    }
}

impl Entry for Report {
    ghost width = { report_width };

    ghost entry_of = { report_of };

    ghost blank = { blank_report };

    fn width_of(w: usize) -> usize {
        REPORT_HOSTS + w
    }

    fn read(s: &[u8], at: usize, w: usize) -> Report {
        let last = read_number(s, at + 1, w);
        Report {
            source: Host(s[at]),
            last,
        }
    }

    fn empty() -> Report {
        Report::default()
    }
}

impl Entry for Echo {
    ghost width = { λ w. echo_width };

    ghost entry_of = { λ w. echo_of };

    ghost blank = { blank_echo };

    fn width_of(_w: usize) -> usize {
        ECHO_WIDTH
    }

    fn read(s: &[u8], at: usize, _w: usize) -> Echo {
        Echo {
            host: Host(s[at]),
            stamp: numbers::read_be(s, at + 1, 6),
            held: numbers::read_be(s, at + 7, 6),
        }
    }

    fn empty() -> Echo {
        Echo::default()
    }
}

// The n entries from `at` on, and blanks in the places left over.
fn read_entries<T: Entry, const N: usize>(s: &[u8], at: usize, w: usize, n: usize) -> [T; N]
    requires w_le_widest_number { w ≤ widest_number }
    requires n_le_places { n ≤ N }
    requires w_in_bounds { at + n * T.width w ≤ length s.now }
    ensures { result ≡ entries (T.entry_of w) (T.width w) n (drop at s.now) ++ replicate (N - n) T.blank }
{
    let mut entries = [T::empty(); N];
    for i in 0..n {
        entries[i] = T::read(s, at + i * T::width_of(w), w);
    }
    entries
}

// The first of n cues, or a blank where there is none.
fn read_cue(s: &[u8], at: usize, n: usize) -> [u8; 24]
    requires n_bound { n ≤ 1 }
    requires cue_width_in_bounds { at + n * cue_width ≤ length s.now }
    ensures { result ≡ get_or (entries cue_of cue_width n (drop at s.now)) 0 blank_cue }
{
    let mut cue = [0u8; 24];
    let end = n * CUE_WIDTH;
    cue[..end].copy_from_slice(&s[at..at + end]);
    cue
}

// The message that the bytes hold, where their counts account for the length and fit the places.
fn load(s: &[u8], w: usize, c: Counts) -> Message
    requires { Loadable w s.now c }
    ensures { result ≡ held_as (meaning_with w s.now) }
{
    let names = c.names * (NAME_HOSTS + w);
    let cues = c.cues * CUE_WIDTH;
    let reports = c.reports * (REPORT_HOSTS + w);
    Message {
        kind: message::kind_of(s[0]),
        sender: Host(s[1]),
        stamp: numbers::read_be(s, 2, 6),
        counts: c,
        names: read_entries(s, 9, w, c.names),
        cue: read_cue(s, 10 + names, c.cues),
        reports: read_entries(s, 11 + names + cues, w, c.reports),
        echoes: read_entries(s, 12 + names + cues + reports, w, c.echoes),
    }
}

// Questions 8 and 9.
fn ask_counts(s: &[u8], w: usize, c: Counts) -> Result<(), Refusal>
    requires width_in { WidthIn s.now w }
    requires counts_in { CountsIn w s.now c }
    ensures { result ≡ outcome (first_no (take 2 (message_questions s.now))) }
{
    message::ask(12 <= s.len() && size_of(w, c) == s.len(), 8)?;
    message::ask(message::kind_has_counts(message::kind_of(s[0]), c), 9)
}

// A message: questions 8, 9, 10 and 11, in this order.
fn read_message(s: &[u8]) -> Result<Message, Refusal>
    requires { 0 < length s.now }
    ensures { result ≡ message_or (read_refusal s.now) (meaning_from s.now) }
{
    let w = width_in(s);
    let c = counts_in(s, w);
    ask_counts(s, w, c)?;
    let m = load(s, w, c);
    message::ask_meaning(s[0], m)?;
    Ok(m)
}

// Reads a datagram: no bytes are a probe, and of any others the questions are asked.
// Kept: (a) a message beside the verdict, since the clause `value` promises the message of zeros beside a probe and a refusal.
pub fn read(s: &[u8]) -> Reading
    ensures value { result ≡ read_of s.now }
    ensures verdict_value { refusal_of result.verdict ≡ read_refusal s.now }
{
    if s.is_empty() {
        return Reading {
            verdict: Verdict::Probe,
            message: message::blank(),
        };
    }
    match read_message(s) {
        Ok(message) => Reading {
            verdict: Verdict::Accepted,
            message,
        },
        Err(Refusal(number)) => Reading {
            verdict: Verdict::Refused(number),
            message: message::blank(),
        },
    }
}
