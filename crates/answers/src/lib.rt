// The line that is printed for a played line of a script, put into a buffer. The definition is specs/AnswerLine.antt. These are helpers of the
// crates above (player, keeping, timetable) and no calls of the product: each asks in its `requires` for the room that its longest piece takes,
// which its callers have seen to.
#![tactic(auto)]

ghost use Rattle.std.specs.Prelude.{◌≡◌, [], ◌∷◌, ◌++◌, ◌+◌, ◌^◌, ◌≤◌, ◌<◌, length};
ghost use Rattle.decimal.specs.Decimal.{decimal as decimalOf, signed_decimal};
ghost use Rattle.end.specs.Why.{reason_words};
ghost use Rattle.answers.specs.declared.Shown.TheVariants.{Out, Got, IgnoredFor, Refused, Clash, Late};
ghost use Rattle.answers.specs.AnswerLine.{spaced as spacedOf, cue_words, answer_words, answer_line};
ghost use Rattle.answers.specs.Put.{Put};

use end::Reason;
use message::{Host, Name};

// An answer as it is shown: a message number after out, the name and the focus after got and late, the question's number after refused, the
// name after clash. Where the reason is asked for too, its words stand after ignored.
// Kept: no Display. `put_line` promises where each byte stands in the caller's buffer, which has no heap behind it; a Display says only what
// it prints.
#[derive(Clone, Copy)]
pub enum Shown {
    Out(u64),
    Got(Name, i16),
    Done,
    Ignored,
    IgnoredFor(Reason),
    Nothing,
    Refused(u8),
    Clash(Name),
    Late(Name, i16),
    Exhausted,
}

// Each function below writes a piece from `at` on and answers where it ends.

pub fn text(out: &mut [u8], at: usize, b: &[u8]) -> usize
    requires { at + length b.now ≤ length out.old }
    ensures { Put (length b.now) at b.now out.old out.new result }
{
    numbers::put_bytes(out, at, b);
    at + b.len()
}

// A number of at most `W` digits: 3 for a byte, 5 for 16 bits, 20 for 64.
pub fn number<const W: usize>(out: &mut [u8], at: usize, n: u64) -> usize
    requires in_bounds { at + W ≤ length out.old }
    requires some_digits { 0 < W }
    requires few_digits { n < 10 ^ W }
    ensures { Put W at (decimalOf n) out.old out.new result }
{
    decimal::put_u64(out, at, n)
}

fn integer(out: &mut [u8], at: usize, z: i16) -> usize
    requires { at + 6 ≤ length out.old }
    ensures { Put 6 at (signed_decimal z) out.old out.new result }
{
    decimal::put_i16(out, at, z)
}

// A number and a space.
pub fn spaced<const W: usize>(out: &mut [u8], at: usize, n: u64) -> usize
    requires in_bounds { at + (W + 1) ≤ length out.old }
    requires some_digits { 0 < W }
    requires few_digits { n < 10 ^ W }
    ensures { Put (W + 1) at (spacedOf n) out.old out.new result }
{
    let end = number::<W>(out, at, n);
    text(out, end, b" ")
}

fn put_out(out: &mut [u8], at: usize, message: u64) -> usize
    requires { at + 24 ≤ length out.old }
    ensures { Put 24 at (answer_words (Out message)) out.old out.new result }
{
    let end = text(out, at, b"out ");
    number::<20>(out, end, message)
}

fn put_refused(out: &mut [u8], at: usize, question: u8) -> usize
    requires { at + 24 ≤ length out.old }
    ensures { Put 24 at (answer_words (Refused question)) out.old out.new result }
{
    let end = text(out, at, b"refused ");
    number::<3>(out, end, question as u64)
}

// The name and the focus after got and late.
fn put_values(out: &mut [u8], at: usize, name: Name, focus: i16) -> usize
    requires { at + 16 ≤ length out.old }
    ensures { Put 16 at (cue_words name focus) out.old out.new result }
{
    let first = spaced::<3>(out, at, name.source.0 as u64);
    let second = spaced::<5>(out, first, name.number.0 as u64);
    integer(out, second, focus)
}

fn put_got(out: &mut [u8], at: usize, name: Name, focus: i16) -> usize
    requires { at + 24 ≤ length out.old }
    ensures { Put 24 at (answer_words (Got name focus)) out.old out.new result }
{
    let end = text(out, at, b"got ");
    put_values(out, end, name, focus)
}

fn put_late(out: &mut [u8], at: usize, name: Name, focus: i16) -> usize
    requires { at + 24 ≤ length out.old }
    ensures { Put 24 at (answer_words (Late name focus)) out.old out.new result }
{
    let end = text(out, at, b"late ");
    put_values(out, end, name, focus)
}

fn put_clash(out: &mut [u8], at: usize, name: Name) -> usize
    requires { at + 24 ≤ length out.old }
    ensures { Put 24 at (answer_words (Clash name)) out.old out.new result }
{
    let first = text(out, at, b"clash ");
    let second = spaced::<3>(out, first, name.source.0 as u64);
    number::<5>(out, second, name.number.0 as u64)
}

// A reason in words.
fn words(reason: Reason) -> &'static [u8]
    ensures { result.now ≡ reason_words reason }
{
    match reason {
        Reason::Crashed => b"crashed",
        Reason::WrongStatus => b"wrong status",
        Reason::OwnMessage => b"own message",
        Reason::NotOpen => b"source not open",
        Reason::BelowFirst => b"below first",
        Reason::OwnAboveLast => b"own number above last",
        Reason::AlreadyHeld => b"already held",
        Reason::ReplyWaiting => b"reply waiting",
        Reason::ReplyQuiet => b"reply-quiet",
        Reason::RequestQuiet => b"request quiet",
        Reason::NoFetch => b"no fetch",
    }
}

fn put_ignored_for(out: &mut [u8], at: usize, reason: Reason) -> usize
    requires { at + 30 ≤ length out.old }
    ensures { Put 30 at (answer_words (IgnoredFor reason)) out.old out.new result }
{
    let end = text(out, at, b"ignored: ");
    text(out, end, words(reason))
}

fn put_answer(out: &mut [u8], at: usize, a: Shown) -> usize
    requires { at + 30 ≤ length out.old }
    ensures { Put 30 at (answer_words a) out.old out.new result }
{
    match a {
        Shown::Out(message) => put_out(out, at, message),
        Shown::Got(name, focus) => put_got(out, at, name, focus),
        Shown::Done => text(out, at, b"done"),
        Shown::Ignored => text(out, at, b"ignored"),
        Shown::IgnoredFor(reason) => put_ignored_for(out, at, reason),
        Shown::Nothing => text(out, at, b"nothing"),
        Shown::Refused(question) => put_refused(out, at, question),
        Shown::Clash(name) => put_clash(out, at, name),
        Shown::Late(name, focus) => put_late(out, at, name, focus),
        Shown::Exhausted => text(out, at, b"exhausted"),
    }
}

// The answer and the line feed.
fn put_ending(out: &mut [u8], at: usize, a: Shown) -> usize
    requires { at + 31 ≤ length out.old }
    ensures { Put 31 at (answer_words a ++ (10 ∷ [])) out.old out.new result }
{
    let end = put_answer(out, at, a);
    text(out, end, b"\n")
}

// The line of an answer: of 56 bytes at most.
pub fn put_line(out: &mut [u8], at: usize, end: Host, clock: u64, a: Shown) -> usize
    requires { at + 56 ≤ length out.old }
    ensures { Put 56 at (answer_line end clock a) out.old out.new result }
{
    let first = spaced::<3>(out, at, end.0 as u64);
    let second = spaced::<20>(out, first, clock);
    put_ending(out, second, a)
}
