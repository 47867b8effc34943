// The words of a line of a trace: docs/TRACES.md says how a line is written. What no word fits is nothing, and a line is well written where its
// words are read to its end: is_whole. These are tools of tests: their contracts say no more than that they are safe and end.
#![tactic(auto)]

mod bytes;
mod composed;
pub mod cut;

ghost use Rattle.std.specs.Prelude.{◌≤◌, IfSome};

pub use bytes::Bytes;
use decimal::Number;
use message::{CueNumber, Host, Name};

// Where reading stands in a line: what is left of it. All words but the first have a space before them.
#[derive(Clone, Copy)]
pub struct Cursor<'a> {
    rest: &'a [u8],
}

// The bytes up to a space, at least one, and what is left behind them.
fn split_word(text: &[u8]) -> Option<(&[u8], &[u8])> {
    let end = text.iter().position(|b| *b == b' ').unwrap_or(text.len());
    if end == 0 {
        return None;
    }
    text.split_at_checked(end)
}

impl<'a> Cursor<'a> {
    // Reads on behind the first word, or behind the part of it that was read.
    pub fn behind(rest: &'a [u8]) -> Self {
        Cursor { rest }
    }

    // The first word of a line, and what is left.
    pub fn first(line: &'a [u8]) -> Option<(&'a [u8], Self)> {
        let (word, rest) = split_word(line)?;
        Some((word, Cursor { rest }))
    }

    // Whether all words were read.
    pub fn is_whole(&self) -> bool {
        self.rest.is_empty()
    }

    pub fn word(&mut self) -> Option<&'a [u8]> {
        let (word, rest) = split_word(self.rest.strip_prefix(b" ")?)?;
        self.rest = rest;
        Some(word)
    }

    // Goes behind the next word where it is this one, and answers whether it is.
    pub fn follows(&mut self, word: &[u8]) -> bool {
        let mut ahead = *self;
        let is_next = ahead.word() == Some(word);
        if is_next {
            *self = ahead;
        }
        is_next
    }

    // ---- numbers

    // The next word as a number below 2^64.
    pub fn number(&mut self) -> Option<u64> {
        u64::from_word(self.word()?)
    }

    // The next word as a number up to `most`.
    pub fn small(&mut self, most: u64) -> Option<u64>
        ensures { IfSome result (λ v. v ≤ most) }
    {
        let v = self.number()?;
        (v <= most).then_some(v)
    }

    // The next word as a place of an array.
    pub fn place(&mut self, most: usize) -> Option<usize>
        ensures { IfSome result (λ v. v ≤ most) }
    {
        let v = self.number()? as usize;
        (v <= most).then_some(v)
    }

    pub fn byte(&mut self) -> Option<u8> {
        u8::try_from(self.number()?).ok()
    }

    // The next word as a number 0..65535.
    pub fn short(&mut self) -> Option<u16> {
        u16::try_from(self.number()?).ok()
    }

    pub fn host(&mut self) -> Option<Host> {
        Some(Host(self.byte()?))
    }

    pub fn cue_number(&mut self) -> Option<CueNumber> {
        Some(CueNumber(self.short()?))
    }

    // A source and a cue number.
    pub fn name(&mut self) -> Option<Name> {
        let source = self.host()?;
        let number = self.cue_number()?;
        Some(Name { source, number })
    }

    // The next word as a number below 2^32.
    pub fn count(&mut self) -> Option<u32> {
        u32::try_from(self.number()?).ok()
    }

    // The next word as an offset, -32768..32767.
    pub fn offset(&mut self) -> Option<i16> {
        i16::from_word(self.word()?)
    }

    // ---- bytes and cues

    // The next word as bytes, at most 256; `none` has none.
    pub fn bytes(&mut self) -> Option<Bytes> {
        match self.word()? {
            b"none" => Some(Bytes::none()),
            digits => Bytes::from_digits(digits),
        }
    }

    // The next word as the 24 bytes of a cue.
    fn cue_bytes(&mut self) -> Option<[u8; 24]> {
        let bytes = self.bytes()?;
        <[u8; 24]>::try_from(bytes.as_slice()).ok()
    }

    // The rest of a cue in words, behind its focus.
    fn cue_rest(&mut self, focus: i16) -> Option<[u8; 24]> {
        let zoom = self.offset()?;
        let sideways = self.offset()?;
        let upright = self.offset()?;
        let lamp = self.short()?;
        Some(message::cue_with(focus, zoom, sideways, upright, lamp))
    }

    // A cue: its focus, all its fields, or `bytes` and its 24 bytes.
    pub fn cue(&mut self) -> Option<[u8; 24]> {
        if self.follows(b"bytes") {
            return self.cue_bytes();
        }
        let focus = self.offset()?;
        if self.is_whole() {
            return Some(message::cue_with(focus, 0, 0, 0, 0));
        }
        self.cue_rest(focus)
    }
}
