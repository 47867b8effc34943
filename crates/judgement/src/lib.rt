// Judges a run's record that comes in pieces, from bytes to bytes. The definitions are in specs/: Record.antt (the lines of a record, and what is
// printed) and Pieces.antt (what is kept between two pieces). That the pieces together are judged as the whole record is, however it is cut, is
// proofs/Pieces.antt.
#![tactic(auto)]

ghost use Rattle.std.specs.Prelude.{◌≡◌, cond, [], ◌∷◌, ◌++◌, ◌+◌, ◌≤◌, ◌<◌, min, length, take, ltb};
ghost use Rattle.numbers.specs.Splice.{splice};
ghost use Rattle.decimal.specs.Decimal.{decimal as decimalOf};
ghost use Rattle.record.specs.Line.{malformed, line_of};
ghost use Rattle.ledger.specs.Judgement.{most_lines, judgement_of};
ghost use Rattle.judgement.specs.Record.{printed};
ghost use Rattle.judgement.specs.Pieces.{start, line_places, added, after_byte, after, closed, end_prints, lines_in, standing};
ghost use Rattle.judgement.specs.Promise.{Puts};

use ledger::Judgement;
use record::{Line, Said};

// The lines so far: the first `count` of the places.
// Kept: (a) an array with a count beside it, since the judge's memory is fixed: a record is judged the same on any machine.
#[derive(Clone, Copy)]
pub struct Noted {
    pub lines: [Line; 1025],
    pub count: usize,
}

// What is kept of a record between two of its pieces: the lines, and the next line so far, the first `len` bytes of its buffer.
// Kept: (a) a buffer with its length, for the same reason.
#[derive(Clone, Copy)]
pub struct Kept {
    pub noted: Noted,
    pub line: [u8; 63],
    pub len: usize,
}

// A record of more lines is refused; there is a place for one line more, which tells that.
const MOST_LINES: usize = 1024;

const LINE_PLACES: usize = 1025;

fn no_line() -> Line
    ensures { result ≡ malformed }
{
    Line {
        said: Said::Malformed,
        cue: [0; 24],
    }
}

impl Noted {
    fn all(&self) -> &[Line]
        ensures { result.now ≡ lines_in self.now }
    {
        &self.lines[..self.count.min(LINE_PLACES)]
    }

    // One line more, where there is a place.
    fn add(&mut self, l: Line)
        ensures { lines_in self.new ≡ added line_places (lines_in self.old) l }
    {
        if self.count < LINE_PLACES {
            self.lines[self.count] = l;
            self.count += 1;
        }
    }
}

// ---- bytes are taken

// One byte more of a line, where there is a place.
fn longer(line: &mut [u8], len: usize, b: u8) -> usize
    ensures { take result line.new ≡ added (length line.old) (take len line.old) b }
{
    if len < line.len() {
        line[len] = b;
        return len + 1;
    }
    len
}

// What the first bytes of a line's buffer mean.
fn meaning(line: &[u8], len: usize) -> Line
    ensures { result ≡ line_of (take len line.now) }
{
    record::read_line(&line[..len.min(line.len())])
}

// One byte more of the record.
fn take_byte(kept: &mut Kept, b: u8)
    ensures { standing kept.new ≡ after_byte (standing kept.old) b }
{
    if b == b'\n' {
        let line = meaning(&kept.line, kept.len);
        kept.noted.add(line);
        kept.len = 0;
    } else {
        kept.len = longer(&mut kept.line, kept.len, b);
    }
}

// A record before its first byte.
pub fn opened() -> Kept
    ensures { standing result ≡ start }
{
    Kept {
        noted: Noted {
            lines: [no_line(); 1025],
            count: 0,
        },
        line: [0; 63],
        len: 0,
    }
}

// Takes the bytes of a piece.
pub fn feed(kept: Kept, piece: &[u8]) -> Kept
    ensures { standing result ≡ after (standing kept) piece.now }
{
    let mut kept = kept;
    for b in piece {
        take_byte(&mut kept, *b);
    }
    kept
}

// Whether there are too many lines already: what comes after does not count then.
pub fn too_many(kept: Kept) -> bool
    ensures { result ≡ ltb most_lines (length (standing kept).lines) }
{
    MOST_LINES < kept.noted.count
}

// ---- the judgement

// The lines at the end of the record: a last one without its line feed is malformed.
fn closed_lines(kept: Kept) -> Noted
    ensures { lines_in result ≡ closed (standing kept).lines (standing kept).line }
{
    let mut noted = kept.noted;
    if kept.len == 0 {
        return noted;
    }
    noted.add(no_line());
    noted
}

fn judged(kept: Kept) -> Judgement
    ensures { result ≡ judgement_of (closed (standing kept).lines (standing kept).line) }
{
    ledger::judge(closed_lines(kept).all())
}

// Each function below writes from `at` on, where there is room, and answers where that ends.

fn put_text(out: &mut [u8], at: usize, b: &[u8]) -> usize
    requires { at + length b.now ≤ length out.old }
    ensures { Puts at b.now out.old out.new result }
{
    numbers::put_bytes(out, at, b);
    at + b.len()
}

fn put_number(out: &mut [u8], at: usize, n: u64) -> usize
    requires { at + 21 ≤ length out.old }
    ensures { Puts at (decimalOf n ++ (10 ∷ [])) out.old out.new result }
{
    let end = decimal::put_u64(out, at, n);
    put_text(out, end, b"\n")
}

fn put_refused(out: &mut [u8], n: u8) -> usize
    requires { 32 ≤ length out.old }
    ensures { Puts 0 (printed (Judgement.Refused n)) out.old out.new result }
{
    let end = put_text(out, 0, b"refused ");
    put_number(out, end, n as u64)
}

fn put_judgement(out: &mut [u8], j: Judgement) -> usize
    requires { 32 ≤ length out.old }
    ensures { Puts 0 (printed j) out.old out.new result }
{
    match j {
        Judgement::Allowed => put_text(out, 0, b"allowed\n"),
        Judgement::BrokenAt(k) => put_number(out, 0, k as u64),
        Judgement::Refused(n) => put_refused(out, n),
    }
}

// The end of the record: its judgement is printed at the start of the output.
pub fn finish(kept: Kept, out: &mut [u8; 32]) -> usize
    ensures out_after { out.new ≡ splice 0 (end_prints (standing kept)) out.old }
    ensures value { result ≡ length (end_prints (standing kept)) }
    ensures upper_bound { result ≤ length out.new }
{
    put_judgement(out, judged(kept))
}
