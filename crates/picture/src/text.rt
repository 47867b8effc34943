// The text that is to be printed.
ghost use Rattle.std.specs.Prelude.{◌≡◌, ◌≤◌, OnErr};

use std::fmt::{Display, Formatter};
use std::{fmt, io};

// How many bytes the text has room for, and with how many it is written out.
const ROOM: usize = 65536;

const MUCH: usize = 32768;

// A text so far. There is always room for a line, since it is written out in time; what has no room is left out.
// Kept: a length beside the bytes, in fixed memory (no heap): a program that asked for memory might not get it, and print something else.
#[derive(Drop)]
pub struct Text {
    bytes: [u8; 65536],
    len: usize,
    ghost inside: { len ≤ 65536 },
}

impl Text {
    pub fn new() -> Self {
        Text {
            bytes: [0; ROOM],
            len: 0,
        }
    }

    pub fn len(&self) -> usize {
        self.len
    }

    // Takes back what stands from a place on.
    pub fn truncate(&mut self, len: usize) {
        self.len = len.min(self.len);
    }

    // What stands from one place on and before another.
    pub fn between(&self, from: usize, to: usize) -> &[u8] {
        self.bytes.get(from..to).unwrap_or(&[])
    }

    pub fn push(&mut self, b: u8) {
        if let Some(place) = self.bytes.get_mut(self.len) {
            *place = b;
            self.len += 1;
        }
    }

    pub fn extend(&mut self, bytes: &[u8]) {
        for b in bytes {
            self.push(*b);
        }
    }

    // What `write!` calls.
    pub fn write_fmt<D: Display + Drop>(&mut self, value: D) {
        let _ = fmt::Write::write(self, value);
    }

    // Writes out what is there; where that failed, all of it is still there.
    pub fn flush(&mut self, rt: &impl Print) -> io::Result<()>
        ensures { OnErr result (self.new ≡ self.old) }
    {
        rt.write_all(&self.bytes[..self.len])?;
        self.len = 0;
        Ok(())
    }

    // Writes out what is there, once it is much; where that failed, all of it is still there.
    pub fn flush_much(&mut self, rt: &impl Print) -> io::Result<()>
        ensures { OnErr result (self.new ≡ self.old) }
    {
        if MUCH < self.len {
            self.flush(rt)?;
        }
        Ok(())
    }
}

impl fmt::Write for Text {
    fn write_str(&mut self, s: &str) -> fmt::Result {
        self.extend(s.as_bytes());
        Ok(())
    }
}

// A hexadecimal digit; nothing from 16 on.
fn digit(d: u8) -> &'static str {
    match d {
        0 => "0",
        1 => "1",
        2 => "2",
        3 => "3",
        4 => "4",
        5 => "5",
        6 => "6",
        7 => "7",
        8 => "8",
        9 => "9",
        10 => "A",
        11 => "B",
        12 => "C",
        13 => "D",
        14 => "E",
        15 => "F",
        _ => "",
    }
}

// Bytes in hexadecimal digits, or `none`.
// Kept: each digit by a match; `{b:02X}` takes seven times the instructions for a byte.
#[derive(Clone, Copy)]
pub struct Hex<'a>(pub &'a [u8]);

impl Display for Hex<'_> {
    fn fmt<W: fmt::Write>(&self, f: &mut Formatter<W>) -> fmt::Result {
        if self.0.is_empty() {
            return f.write_str("none");
        }
        for b in self.0 {
            f.write_str(digit(*b / 16))?;
            f.write_str(digit(*b % 16))?;
        }
        Ok(())
    }
}

// Numbers with a space between them.
#[derive(Clone, Copy, PartialEq, Eq)]
pub struct Numbers<const N: usize>(pub [u64; N]);

impl<const N: usize> Display for Numbers<N> {
    fn fmt<W: fmt::Write>(&self, f: &mut Formatter<W>) -> fmt::Result {
        for (i, v) in self.0.iter().enumerate() {
            if i != 0 {
                f.write_str(" ")?;
            }
            write!(f, "{v}")?;
        }
        Ok(())
    }
}
