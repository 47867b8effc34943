// Plays the scripts of standard input, each on a fresh house, by the same functions as the program house. A line that starts with `next`
// comes before each script and is printed as it is. Each script is played three times, in pieces of 1 byte, of 7 bytes, and whole; what
// is printed must be the same. The input, and what one script prints, has at most 16384 bytes. What the scripts of the stored run are for is in SCRIPTS.md.
#![tactic(auto)]

ghost use Rattle.std.specs.Prelude.{◌+◌, ◌≡◌, ◌≤◌, ◌<◌, length, IfOk};

use std::io;
use std::io::Read;

// What a script printed.
// Kept: a buffer with a length beside it, since no script's output may be lost for want of memory: the two have a place from the start.
#[derive(Clone, Copy)]
struct Printed {
    bytes: [u8; 16384],
    len: usize,
    ghost inside: { len ≤ 16384 },
}

impl Printed {
    fn new() -> Self {
        Printed {
            bytes: [0; 16384],
            len: 0,
        }
    }

    fn as_slice(&self) -> &[u8] {
        &self.bytes[..self.len]
    }

    // Adds bytes where there is room for them.
    fn add(&mut self, more: &[u8]) {
        let from = self.len;
        if more.len() <= 16384 - from {
            self.bytes[from..from + more.len()].copy_from_slice(more);
            self.len = from + more.len();
        }
    }
}

// The first line, with its line feed where it has one, and what comes after it.
fn split_line(text: &[u8]) -> (&[u8], &[u8])
    requires { 0 < length text.now }
    ensures { length result.1.now < length text.now }
{
    let end = text
        .iter()
        .position(|b| *b == b'\n')
        .map_or(text.len(), |i| i + 1);
    text.split_at(end)
}

// The script that the text starts with, which ends before the next line that starts with `next`, and what comes after it.
fn split_script(text: &[u8]) -> (&[u8], &[u8])
    ensures { length result.1.now ≤ length text.now }
{
    let mut rest = text;
    while !rest.is_empty() && !rest.starts_with(b"next") {
        rest = split_line(rest).1;
    }
    text.split_at(text.len() - rest.len())
}

// Plays a script in pieces of so many bytes. A call takes at least a byte of what is left.
fn play_in(script: &[u8], size: usize) -> Printed {
    let mut printed = Printed::new();
    let mut playing = interpreter::opened();
    let mut rest = script;
    for _ in script {
        let mut out = [0u8; 4096];
        let fed = interpreter::feed(playing, &rest[..size.min(rest.len())], &mut out);
        printed.add(&out[..fed.used]);
        rest = &rest[fed.taken..];
        playing = fed.playing;
    }
    let mut last = [0u8; 4];
    let n = interpreter::finish(playing, &mut last);
    printed.add(&last[..n]);
    printed
}

// Plays one script, and prints what it gives in pieces of every size.
fn play_script(rt: &impl Print, script: &[u8]) -> io::Result<()> {
    let whole = play_in(script, 16384);
    let single = play_in(script, 1);
    let seven = play_in(script, 7);
    if single.as_slice() == whole.as_slice() && seven.as_slice() == whole.as_slice() {
        rt.write_all(whole.as_slice())
    } else {
        rt.write_all(b"pieces differ\n")
    }
}

// Plays each script after the line before it.
fn play_all(rt: &impl Print, text: &[u8]) -> io::Result<()> {
    let mut rest = text;
    while !rest.is_empty() {
        let (line, after) = split_line(rest);
        let (script, next) = split_script(after);
        rt.write_all(line)?;
        play_script(rt, script)?;
        rest = next;
    }
    Ok(())
}

// Reads until the buffer is full or the input ends, and answers how many bytes came.
fn read_full(input: &mut impl Read, buffer: &mut [u8]) -> io::Result<usize>
    ensures { IfOk result (λ n. n ≤ length buffer.new) }
{
    let mut done: usize = 0;
    while done < buffer.len() {
        let n = input.read(&mut buffer[done..])?;
        if n == 0 {
            break;
        }
        done += n;
    }
    Ok(done)
}

fn main(rt: HostRuntime) -> io::Result<()> {
    let mut text = [0u8; 16384];
    let len = read_full(&mut rt.reader(), &mut text)?;
    play_all(&rt, &text[..len])
}
