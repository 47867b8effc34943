// The line that a call leaves in a run's record (document 02, P13), found and written down. The definitions are specs/Kept.antt and, in the
// crate record, Kept.antt and Text.antt.
#![tactic(auto)]

ghost use Rattle.std.specs.Prelude.{◌≡◌, [], ◌∷◌, ◌++◌, ◌+◌, ◌*◌, ◌≤◌, ◌<◌, length, get_or, take};
ghost use Rattle.message.specs.Entry.{blank_name};
ghost use Rattle.end.specs.Answer.{Out};
ghost use Rattle.end.specs.Event.{action_of, Send};
ghost use Rattle.end.specs.Book.{read_as};
ghost use Rattle.answers.specs.Put.{Put};
ghost use Rattle.record.specs.Text.{hex_digit, hex_text, move_text, record_text};
ghost use Rattle.record.specs.Line.{sent, handed_out};
ghost use Rattle.record.specs.Kept.{moved_line, sent_line, lines_for};
ghost use Rattle.keeping.specs.Kept.{kept, kept_of, widest};
ghost use Rattle.keeping.specs.Promise.{moved_text, numbered_text, named_text, sent_text, got_text, PutInRoom};

use end::{Answer, Event, Move};
use message::{CueNumber, Host, Message, Name, Verdict};
use record::{Line, Said};

// A line has no more bytes, with its line feed.
const WIDEST: usize = 67;

// ---- which line

// The line of a move that moved.
fn moved_line(host: Host, what: Event) -> Option<Line>
    ensures { kept result ≡ moved_line host.0 (action_of what [] []) }
{
    match what {
        Event::Moves(m) => Some(Line {
            said: Said::Moved(m, host),
            cue: [0; 24],
        }),
        _ => None,
    }
}

// The line of a Send whose message is this.
fn numbered_line(host: Host, cue: [u8; 24], m: &Message) -> Line
    ensures { result ≡ sent host.0 (get_or m.now.names 0 blank_name).name.number.0 cue }
{
    Line {
        said: Said::Sent(host, m.names[0].name.number),
        cue,
    }
}

// The line of a Send that put out these bytes.
fn sent_line(host: Host, cue: [u8; 24], bytes: &[u8]) -> Option<Line>
    ensures { kept result ≡ sent_line host.0 (Send cue) (read_as bytes.now) }
{
    let reading = reader::read(bytes);
    match reading.verdict {
        Verdict::Accepted => Some(numbered_line(host, cue, &reading.message)),
        _ => None,
    }
}

// The line of an event that put out these bytes: only a Send leaves one.
fn out_line(host: Host, what: Event, cue: [u8; 24], bytes: &[u8]) -> Option<Line>
    ensures { kept result ≡ lines_for host.0 (action_of what cue []) (Out bytes.now) }
{
    match what {
        Event::Send => sent_line(host, cue, bytes),
        _ => None,
    }
}

// The line of a cue that was handed out, in the first 24 output bytes.
fn got_line(host: Host, name: Name, out: &[u8]) -> Line
    requires { 24 ≤ length out.now }
    ensures { result ≡ handed_out host.0 name.source.0 name.number.0 (take 24 out.now) }
{
    let mut cue = [0u8; 24];
    cue.copy_from_slice(&out[..24]);
    Line {
        said: Said::Got(host, name),
        cue,
    }
}

// The line that a call leaves, by its answer and its output.
fn line_of(host: Host, what: Event, cue: [u8; 24], a: Answer, out: &[u8]) -> Option<Line>
    requires { 24 ≤ length out.now }
    ensures { kept result ≡ kept_of host what cue a out.now }
{
    match a {
        Answer::Out(n) => out_line(host, what, cue, &out[..n.min(out.len())]),
        Answer::Got(name) => Some(got_line(host, name, out)),
        Answer::Done => moved_line(host, what),
        _ => None,
    }
}

// ---- how it is written: each function writes a piece from `at` on and answers where it ends

fn hex_digit(n: u8) -> u8
    requires { n < 16 }
    ensures { result ≡ hex_digit n }
{
    if n < 10 { 48 + n } else { 55 + n }
}

// Two digits of a byte.
fn put_pair(out: &mut [u8], at: usize, b: u8) -> usize
    requires { at + 2 ≤ length out.old }
    ensures { Put 2 at (hex_text (b ∷ [])) out.old out.new result }
{
    let pair = [hex_digit(b / 16), hex_digit(b % 16)];
    answers::text(out, at, &pair)
}

fn put_digits(out: &mut [u8], at: usize, cue: &[u8; 24]) -> usize
    requires { at + 48 ≤ length out.old }
    ensures { Put 48 at (hex_text cue.now) out.old out.new result }
{
    let mut end = at;
    for b in cue {
        end = put_pair(out, end, *b);
    }
    end
}

// A cue and the line feed.
fn put_cue(out: &mut [u8], at: usize, cue: &[u8; 24]) -> usize
    requires { at + 49 ≤ length out.old }
    ensures { Put 49 at (hex_text cue.now ++ (10 ∷ [])) out.old out.new result }
{
    let end = put_digits(out, at, cue);
    answers::text(out, end, b"\n")
}

fn put_move(out: &mut [u8], at: usize, m: Move) -> usize
    requires { at + 7 ≤ length out.old }
    ensures { Put 7 at (move_text m ++ (32 ∷ [])) out.old out.new result }
{
    match m {
        Move::Join => answers::text(out, at, b"join "),
        Move::Joined => answers::text(out, at, b"joined "),
        Move::Leave => answers::text(out, at, b"leave "),
        Move::Left => answers::text(out, at, b"left "),
        Move::Crash => answers::text(out, at, b"crash "),
    }
}

fn put_moved(out: &mut [u8], at: usize, m: Move, host: Host) -> usize
    requires { at + widest ≤ length out.old }
    ensures { Put widest at (moved_text m host.0) out.old out.new result }
{
    let word = put_move(out, at, m);
    let end = answers::number::<3>(out, word, host.0 as u64);
    answers::text(out, end, b"\n")
}

// A number and the cue.
fn put_numbered(out: &mut [u8], at: usize, number: CueNumber, cue: &[u8; 24]) -> usize
    requires { at + 55 ≤ length out.old }
    ensures { Put 55 at (numbered_text number.0 cue.now) out.old out.new result }
{
    let end = answers::spaced::<5>(out, at, number.0 as u64);
    put_cue(out, end, cue)
}

// A source, a number of its cues, and the cue.
fn put_named(out: &mut [u8], at: usize, source: Host, number: CueNumber, cue: &[u8; 24]) -> usize
    requires { at + 59 ≤ length out.old }
    ensures { Put 59 at (named_text source.0 number.0 cue.now) out.old out.new result }
{
    let end = answers::spaced::<3>(out, at, source.0 as u64);
    put_numbered(out, end, number, cue)
}

fn put_sent(out: &mut [u8], at: usize, host: Host, number: CueNumber, cue: &[u8; 24]) -> usize
    requires { at + widest ≤ length out.old }
    ensures { Put widest at (sent_text host.0 number.0 cue.now) out.old out.new result }
{
    let end = answers::text(out, at, b"send ");
    put_named(out, end, host, number, cue)
}

fn put_got(out: &mut [u8], at: usize, host: Host, name: Name, cue: &[u8; 24]) -> usize
    requires { at + widest ≤ length out.old }
    ensures { Put widest at (got_text host.0 name cue.now) out.old out.new result }
{
    let word = answers::text(out, at, b"got ");
    let end = answers::spaced::<3>(out, word, host.0 as u64);
    put_named(out, end, name.source, name.number, cue)
}

// Writes a line with its line feed; nothing for a malformed one, which no call leaves.
fn put_line(out: &mut [u8], at: usize, l: Line) -> usize
    requires { at + widest ≤ length out.old }
    ensures { Put widest at (record_text (kept (Some l))) out.old out.new result }
{
    let cue = l.cue;
    match l.said {
        Said::Malformed => at,
        Said::Moved(m, host) => put_moved(out, at, m, host),
        Said::Sent(host, number) => put_sent(out, at, host, number, &cue),
        Said::Got(host, name) => put_got(out, at, host, name, &cue),
    }
}

// Writes what a call leaves in the record.
fn put_call(
    text: &mut [u8],
    at: usize,
    host: Host,
    what: Event,
    cue: [u8; 24],
    a: Answer,
    out: &[u8],
) -> usize
    requires widest_in_bounds { at + widest ≤ length text.old }
    requires in_bounds { 24 ≤ length out.now }
    ensures { Put widest at (record_text (kept_of host what cue a out.now)) text.old text.new result }
{
    match line_of(host, what, cue, a, out) {
        Some(l) => put_line(text, at, l),
        None => at,
    }
}

// Writes what a call leaves in the record, from a place of the text on, and answers where it ends. Where the text has no room for a line, or the
// output none for a cue, nothing is written.
pub fn put(
    text: &mut [u8],
    at: usize,
    host: Host,
    what: Event,
    cue: [u8; 24],
    a: Answer,
    out: &[u8],
) -> usize
    ensures { PutInRoom at (record_text (kept_of host what cue a out.now)) out.now text.old text.new result }
{
    if text.len() < WIDEST || text.len() - WIDEST < at || out.len() < 24 {
        return at;
    }
    put_call(text, at, host, what, cue, a, out)
}
