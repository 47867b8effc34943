// Standard input as lines, for the programs that play long lines. No contract can say what is read: these say that reading is safe and ends.
#![tactic(auto)]

ghost use Rattle.std.specs.Prelude.{◌≤◌};

use std::io;
use std::io::Read;

// How many bytes a line has at most, its line feed not counted.
pub const LONGEST: usize = 1000;

// How many bytes are read at once.
const ROOM: usize = 65536;

// What is no line: one that is longer than the longest, or has no line feed.
#[derive(Clone, Copy, Debug, PartialEq, Eq)]
pub struct Malformed;

// The bytes that were read: those from..before are still to be taken.
#[derive(Drop)]
struct Buffer {
    bytes: [u8; 65536],
    from: usize,
    before: usize,
    ghost in_order: { from ≤ before },
    ghost inside: { before ≤ 65536 },
}

// A line so far: how many bytes it has, and the first of them.
// Kept: a length beside the bytes, in fixed memory (no heap): a program that asked for memory might not get it, and print something else.
#[derive(Drop)]
struct Line {
    bytes: [u8; 1000],
    len: usize,
}

impl Line {
    fn extend(&mut self, more: &[u8]) {
        for b in more {
            if let Some(place) = self.bytes.get_mut(self.len) {
                *place = *b;
            }
            self.len = self.len.saturating_add(1);
        }
    }

    fn bytes(&self) -> Result<&[u8], Malformed> {
        self.bytes.get(..self.len).ok_or(Malformed)
    }
}

impl Buffer {
    // Takes bytes into the line, up to its line feed, and answers whether that came.
    fn take(&mut self, line: &mut Line) -> bool {
        let left = &self.bytes[self.from..self.before];
        match left.iter().position(|b| *b == b'\n') {
            Some(len) => {
                line.extend(&left[..len]);
                self.from += len + 1;
                true
            }
            None => {
                line.extend(left);
                self.from = self.before;
                false
            }
        }
    }

    // Reads on, once all is taken, and answers whether bytes came: none come at the end of the input.
    fn refill(&mut self, input: &mut impl Read) -> io::Result<bool> {
        self.before = self.from;
        let got = input.read(&mut self.bytes)?;
        self.from = 0;
        self.before = got;
        Ok(got != 0)
    }
}

// An input, taken line by line.
#[derive(Drop)]
pub struct Lines<R> {
    input: R,
    buffer: Buffer,
    line: Line,
}

impl<R: Read> Lines<R> {
    pub fn new(input: R) -> Self {
        Lines {
            input,
            buffer: Buffer {
                bytes: [0; ROOM],
                from: 0,
                before: 0,
            },
            line: Line {
                bytes: [0; LONGEST],
                len: 0,
            },
        }
    }

    // The next line, or nothing at the end of the input. A proved loop has to end, and nothing says that the input does, so the turns are counted, up
    // to a number that no run uses up. A read that failed is given back, and may be tried again: the bytes that were read before are kept, but for
    // those of the line that it cut off.
    pub fn next(&mut self) -> io::Result<Option<Result<&[u8], Malformed>>> {
        self.line.len = 0;
        for _ in 0..u64::MAX {
            if self.buffer.take(&mut self.line) {
                return Ok(Some(self.line.bytes()));
            }
            if !self.buffer.refill(&mut self.input)? {
                let cut_off = self.line.len != 0;
                return Ok(cut_off.then_some(Err(Malformed)));
            }
        }
        Ok(None)
    }
}
