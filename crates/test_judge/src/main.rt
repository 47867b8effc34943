// Judges the records of standard input, each by the same functions as the program judge. A line that starts with `next` comes before each record
// and is printed as it is. Each record is judged three times, in pieces of 1 byte, of 7 bytes, and whole; what is printed must be the same. The
// input has at most 65536 bytes. What the records of the stored run are for is in RECORDS.md.
#![tactic(auto)]

ghost use Rattle.std.specs.Prelude.{◌≤◌, ◌<◌, length, IfOk};

use std::io;
use std::io::Read;

// What is printed for a record: the first `len` bytes.
#[derive(Clone, Copy, PartialEq, Eq)]
struct Printed {
    out: [u8; 32],
    len: usize,
}

// How many bytes the first line has: up to its line feed, or all.
fn line_end(text: &[u8]) -> usize
    requires { 0 < length text.now }
    ensures lower_bound { 0 < result }
    ensures upper_bound { result ≤ length text.now }
{
    text.iter()
        .position(|b| *b == b'\n')
        .map_or(text.len(), |i| i + 1)
}

// How many bytes the record has that comes first: up to the next line that starts with `next`, or all.
fn record_end(text: &[u8]) -> usize
    ensures { result ≤ length text.now }
{
    let mut starts = true;
    for at in 0..text.len() {
        if starts && text[at..].starts_with(b"next") {
            return at;
        }
        starts = text[at] == b'\n';
    }
    text.len()
}

// Judges a record in pieces of so many bytes.
fn judge_in(bytes: &[u8], size: usize) -> Printed
    requires { 0 < size }
{
    let mut kept = judgement::opened();
    for piece in bytes.chunks(size) {
        kept = judgement::feed(kept, piece);
    }
    let mut out = [0u8; 32];
    let len = judgement::finish(kept, &mut out);
    Printed { out, len }
}

fn show(rt: &impl Print, printed: Printed) -> io::Result<()> {
    match printed.out.get(..printed.len) {
        Some(text) => rt.write_all(text),
        None => Ok(()),
    }
}

// Judges one record in pieces of every size.
fn judge_record(rt: &impl Print, bytes: &[u8]) -> io::Result<()> {
    let whole = judge_in(bytes, 65536);
    if judge_in(bytes, 1) == whole && judge_in(bytes, 7) == whole {
        show(rt, whole)
    } else {
        rt.write_all(b"pieces differ\n")
    }
}

// Judges each record after the line before it.
fn judge_all(rt: &impl Print, text: &[u8]) -> io::Result<()> {
    let mut rest = text;
    while !rest.is_empty() {
        let (line, after) = rest.split_at(line_end(rest));
        let (record, next) = after.split_at(record_end(after));
        rt.write_all(line)?;
        judge_record(rt, record)?;
        rest = next;
    }
    Ok(())
}

// Reads until the buffer is full or the input ends, and answers how many bytes came.
fn read_full(input: &mut impl Read, buffer: &mut [u8]) -> io::Result<usize>
    ensures { IfOk result (λ n. n ≤ length buffer.new) }
{
    let mut done: usize = 0;
    while done < buffer.len() {
        let n = input.read(&mut buffer[done..])?;
        if n == 0 {
            break;
        }
        done += n;
    }
    Ok(done)
}

fn main(rt: HostRuntime) -> io::Result<()> {
    let mut text = [0u8; 65536];
    let len = read_full(&mut rt.reader(), &mut text)?;
    judge_all(&rt, &text[..len])
}
