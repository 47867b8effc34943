// A line of a script, read. The definitions are in specs/: Words.antt (the words between the spaces) and Line.antt (what a line
// means).
#![tactic(auto, unfolding(crate::specs::Line::later_verb, crate::specs::Line::plain_verb, crate::specs::Line::verb_with))]

ghost use Rattle.std.specs.Prelude.{◌≡◌};
ghost use Rattle.std.specs.Option.{option_copied};
ghost use Rattle.std.specs.List.{position};
ghost use Rattle.std.specs.Iterator.{YieldsFirstRef, item_count};
ghost use Rattle.script.specs.Words.{is_space, words, same as sameWord};
ghost use Rattle.script.specs.Left.{left};
ghost use Rattle.script.specs.Line.{later_verb, plain_verb, verb_with, line_of, line_by};

use decimal::Number;
use message::Host;

// What a line asks of an end: a focus is sent, the message with a number is heard.
#[derive(Clone, Copy)]
pub enum Verb {
    Join,
    Joined,
    Leave,
    Left,
    Crash,
    Send(i16),
    Hear(u64),
    Fire,
    Report,
}

// A line's end, host 0 or 1, with its verb and its clock.
#[derive(Clone, Copy)]
pub struct Call {
    pub end: Host,
    pub verb: Verb,
    pub clock: u64,
}

// How many bytes the longest line has that can be played, without its line feed.
const LONGEST: usize = 34;

// The words of a line, one after the other. Two spaces together have an empty word between them.
#[derive(Drop)]
pub struct Words<'a> {
    rest: Option<&'a [u8]>,
}

impl<'a> Words<'a> {
    pub fn of(line: &'a [u8]) -> Words<'a>
        ensures { left result ≡ words line.now }
    {
        Words { rest: Some(line) }
    }
}

// Where the first space stands.
fn space_in(line: &[u8]) -> Option<usize>
    ensures { result ≡ position is_space line.now }
{
    line.iter().position(|b| *b == b' ')
}

impl<'a> Iterator for Words<'a> {
    type Item = &'a [u8];

    ghost next_gives = { YieldsFirstRef left };

    ghost remaining = { item_count left };

    fn next(&mut self) -> Option<&'a [u8]> {
        let line = self.rest?;
        match space_in(line) {
            Some(end) => {
                self.rest = Some(&line[end + 1..]);
                Some(&line[..end])
            }
            None => {
                self.rest = None;
                Some(line)
            }
        }
    }
}

// Whether two words are the same.
pub fn same(a: &[u8], b: &[u8]) -> bool
    ensures { result ≡ sameWord a.now b.now }
{
    a == b
}

// The last four verbs that have nothing after the clock.
fn later_verb(v: &[u8]) -> Option<Verb>
    ensures { result ≡ later_verb v.now }
{
    if same(v, b"left") {
        return Some(Verb::Left);
    }
    if same(v, b"crash") {
        return Some(Verb::Crash);
    }
    if same(v, b"fire") {
        return Some(Verb::Fire);
    }
    if same(v, b"report") {
        return Some(Verb::Report);
    }
    None
}

// A verb that has nothing after the clock.
fn plain_verb(v: &[u8]) -> Option<Verb>
    ensures { result ≡ plain_verb v.now }
{
    if same(v, b"join") {
        return Some(Verb::Join);
    }
    if same(v, b"joined") {
        return Some(Verb::Joined);
    }
    if same(v, b"leave") {
        return Some(Verb::Leave);
    }
    later_verb(v)
}

// A verb with the word after the clock.
fn verb_with(v: &[u8], x: &[u8]) -> Option<Verb>
    ensures { result ≡ verb_with v.now x.now }
{
    if same(v, b"send") {
        return i16::from_word(x).map(Verb::Send);
    }
    if same(v, b"hear") {
        return u64::from_word(x).map(Verb::Hear);
    }
    None
}

// A line by its words, of which the fourth may be missing: the end is 0 or 1.
fn call_of(end: &[u8], verb: &[u8], clock: &[u8], with: Option<&[u8]>) -> Option<Call>
    ensures { result ≡ line_by end.now verb.now clock.now (option_copied with.entry) }
{
    let end = u64::from_word(end)?;
    let verb = match with {
        Some(x) => verb_with(verb, x),
        None => plain_verb(verb),
    }?;
    let clock = u64::from_word(clock)?;
    if end < 2 {
        Some(Call {
            end: Host(end as u8),
            verb,
            clock,
        })
    } else {
        None
    }
}

// Reads a line, which is given without its line feed: there are three words, or four.
pub fn read_line(line: &[u8]) -> Option<Call>
    ensures { result ≡ line_of line.now }
{
    if LONGEST < line.len() {
        return None;
    }
    let mut words = Words::of(line);
    let end = words.next()?;
    let verb = words.next()?;
    let clock = words.next()?;
    let with = words.next();
    if words.next().is_some() {
        return None;
    }
    call_of(end, verb, clock, with)
}
