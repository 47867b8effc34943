// The messages that an end puts out, as the structs that the layout writes, `about_name`, `announce_message` and `session_message` of the
// crate end, specs/Messages.antt; and how one goes out. They are helpers of the crates above and no calls of the product.
#![tactic(auto)]

ghost use Rattle.std.specs.Prelude.{◌≡◌, [], ◌∷◌, ◌+◌, ◌≤◌, ◌<◌, length, take};
ghost use Rattle.message.specs.Limit.{host_limit, room_needed};
ghost use Rattle.message.specs.Message.{Small, number_width, report_places, echo_places, meaning_of, bytes_of};
ghost use Rattle.end.specs.Messages.{about_name, own_entry, announce_message, report_on, echo_on, session_message};
ghost use Rattle.end.specs.Answer.{Out, Did, answer_of, buffer_of};
ghost use Rattle.end.specs.Ready.{HeardBy};
ghost use Rattle.state.specs.Settled.{Settled};
ghost use Rattle.compose.specs.Entries.{listed, entries_below, with_report, with_echo};

use end::{Answer, End, Heard, Moment, Span};
use message::{ANNC, Counts, CueNumber, Echo, Host, Message, Name, NameEntry, Report, SESS};

// Reports in their places, and how many there are.
// Kept: (a) no heap: these are the places and the counts of a message (`message::Message`), whose layout the writer reads; so are the echoes.
#[derive(Clone, Copy)]
pub struct Reports {
    pub count: usize,
    pub places: [Report; 8],
}

// Echoes in their places, and how many there are.
#[derive(Clone, Copy)]
pub struct Echoes {
    pub count: usize,
    pub places: [Echo; 7],
}

// What a session message says.
#[derive(Clone, Copy)]
pub struct Entries {
    pub reports: Reports,
    pub echoes: Echoes,
}

// A message about one name: DATA, REPL and LATE with one cue, RQST, XPRS and FTCH with none.
fn about_name(kind: u8, t: Moment, name: Name, host: Host, cues: usize, cue: [u8; 24]) -> Message
    requires { cues ≤ 1 }
    ensures result_value { meaning_of result ≡ about_name kind t name host (take cues (cue ∷ [])) }
    ensures small { Small (number_width result.kind) result.counts }
{
    Message {
        kind,
        sender: t.me,
        stamp: t.clock,
        counts: Counts {
            names: 1,
            cues,
            reports: 0,
            echoes: 0,
        },
        names: [NameEntry { name, host }, message::no_name()],
        cue,
        ..message::blank()
    }
}

// A name of one's own, beside oneself as the host.
fn own_entry(t: Moment, number: CueNumber) -> NameEntry
    ensures { result ≡ own_entry t number }
{
    NameEntry {
        name: Name {
            source: t.me,
            number,
        },
        host: t.me,
    }
}

// ANNC: the own first and last.
fn announce_message(t: Moment, first: CueNumber, last: CueNumber) -> Message
    ensures result_value { meaning_of result ≡ announce_message t first last }
    ensures small { Small (number_width result.kind) result.counts }
{
    Message {
        kind: ANNC,
        sender: t.me,
        stamp: t.clock,
        counts: Counts {
            names: 2,
            cues: 0,
            reports: 0,
            echoes: 0,
        },
        names: [own_entry(t, first), own_entry(t, last)],
        ..message::blank()
    }
}

// With the report of a source that has a first.
fn with_report(all: Reports, h: Host, span: Span) -> Reports
    requires { all.count < report_places }
    ensures { result ≡ with_report all (report_on h span) }
{
    match span {
        None => all,
        Some((_, last)) => {
            let n = all.count;
            let mut places = all.places;
            places[n] = Report { source: h, last };
            Reports {
                count: n + 1,
                places,
            }
        }
    }
}

// With the echo of a host that was heard.
fn with_echo(all: Echoes, h: Host, clock: u64, heard: Heard) -> Echoes
    requires heard_bound { all.count + length (echo_on h clock heard) ≤ echo_places }
    requires heard_by { HeardBy clock heard }
    ensures { result ≡ with_echo all (echo_on h clock heard) }
{
    match heard {
        None => all,
        Some((stamp, when, _)) => {
            let n = all.count;
            let mut places = all.places;
            places[n] = Echo {
                host: h,
                stamp,
                held: clock - when,
            };
            Echoes {
                count: n + 1,
                places,
            }
        }
    }
}

// The reports of all sources that have a first and the echoes of all hosts that were heard, by rising host: at most seven echoes, since
// none is heard from oneself. One loop for both: the compiler would unroll each of two, and then take the end apart.
fn all_entries(e: End) -> Entries
    requires { Settled e }
    ensures { result ≡ entries_below e host_limit }
{
    let sources = e.sources;
    let mut reports = Reports {
        count: 0,
        places: [message::no_report(); 8],
    };
    let mut echoes = Echoes {
        count: 0,
        places: [message::no_echo(); 7],
    };
    for h in 0..8u8 {
        let s = sources[h as usize];
        reports = with_report(reports, Host(h), s.span);
        echoes = with_echo(echoes, Host(h), e.clock, s.heard);
    }
    Entries { reports, echoes }
}

// SESS.
pub fn session_message(e: End) -> Message
    requires { Settled e }
    ensures result_value { meaning_of result ≡ session_message e }
    ensures small { Small (number_width result.kind) result.counts }
{
    let entries = all_entries(e);
    let reports = entries.reports.places;
    let echoes = entries.echoes.places;
    Message {
        kind: SESS,
        sender: e.host,
        stamp: e.clock,
        counts: Counts {
            names: 0,
            cues: 0,
            reports: entries.reports.count,
            echoes: entries.echoes.count,
        },
        reports,
        echoes,
        ..message::blank()
    }
}

// ---- a message goes out: it is the answer Out, and stands in the first output bytes

pub fn put(m: Message, out: &mut [u8]) -> Answer
    requires { Small (number_width m.kind) m.counts × (room_needed ≤ length out.old) }
    ensures value { result ≡ answer_of (Did (Out (bytes_of (meaning_of m)))) }
    ensures out_after { out.new ≡ buffer_of (Did (Out (bytes_of (meaning_of m)))) out.old }
{
    Answer::Out(layout::put_message(out, m))
}

pub fn put_name(
    kind: u8,
    t: Moment,
    name: Name,
    host: Host,
    cue: Option<[u8; 24]>,
    out: &mut [u8],
) -> Answer
    requires { room_needed ≤ length out.old }
    ensures value { result ≡ answer_of (Did (Out (bytes_of (about_name kind t name host (listed cue))))) }
    ensures out_after { out.new ≡ buffer_of (Did (Out (bytes_of (about_name kind t name host (listed cue))))) out.old }
{
    match cue {
        None => put(about_name(kind, t, name, host, 0, [0; 24]), out),
        Some(cue) => put(about_name(kind, t, name, host, 1, cue), out),
    }
}

pub fn put_announce(t: Moment, first: CueNumber, last: CueNumber, out: &mut [u8]) -> Answer
    requires { room_needed ≤ length out.old }
    ensures value { result ≡ answer_of (Did (Out (bytes_of (announce_message t first last)))) }
    ensures out_after { out.new ≡ buffer_of (Did (Out (bytes_of (announce_message t first last)))) out.old }
{
    put(announce_message(t, first, last), out)
}
