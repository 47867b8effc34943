// The plain numbers between a host in C or Rust and the calls. An answer as one number: kind × 2^32 + source × 2^16 + (number, length, refusal or
// reason); the kinds stand here and in specs/Number.antt once, also those that no answer of an end or a display has. And numbers of 64 bits brought
// into the width of a field: one that is too large becomes the field's largest, which no host, date or minute has, and is never cut.
#![tactic(auto)]

ghost use Rattle.std.specs.Prelude.{◌≡◌, ◌≤◌, ◌<◌, min};
ghost use Rattle.lent_answer.specs.Number.{kind_unit, kind_most, of_kind, host_of, named, out_number, number_of, is_refused};

use end::Answer;
use message::{Host, Name};

// The kinds. A refusal's is 0, so that its number is document 01's.
pub const OUT: u64 = 1;

pub const GOT: u64 = 2;

pub const DONE: u64 = 3;

pub const IGNORED: u64 = 4;

pub const NOTHING: u64 = 5;

pub const CLASH: u64 = 6;

pub const LATE: u64 = 7;

pub const EXHAUSTED: u64 = 8;

pub const REASON: u64 = 9;

pub const NO_EVENT: u64 = 10;

pub const AT: u64 = 11;

// What a look tells where there is nothing to tell.
pub const NONE: u64 = 18446744073709551615;

const KIND_UNIT: u64 = 4294967296;

const SOURCE_UNIT: u64 = 65536;

// The number of a kind with what stands beside it.
pub fn of_kind(kind: u64, rest: u64) -> u64
    requires kind_le_kind_most { kind ≤ kind_most }
    requires rest_lt_kind_unit { rest < kind_unit }
    ensures { result ≡ of_kind kind rest }
{
    kind * KIND_UNIT + rest
}

pub fn named(kind: u64, n: Name) -> u64
    requires { kind ≤ kind_most }
    ensures { result ≡ named kind n }
{
    of_kind(kind, n.source.0 as u64 * SOURCE_UNIT + n.number.0 as u64)
}

// A number brought into the width of a field of 8 or 16 bits.
pub fn narrow8(n: u64) -> u8
    ensures { result ≡ min n 255 }
{
    n.min(255) as u8
}

pub fn narrow16(n: u64) -> u16
    ensures { result ≡ min n 65535 }
{
    n.min(65535) as u16
}

pub fn host_of(n: u64) -> Host
    ensures { result ≡ host_of n }
{
    Host(narrow8(n))
}

pub fn out_number(len: usize) -> u64
    ensures { result ≡ out_number len }
{
    of_kind(OUT, narrow16(len as u64) as u64)
}

pub fn number_of(a: Answer) -> u64
    ensures { result ≡ number_of a }
{
    match a {
        Answer::Refused(q) => q as u64,
        Answer::Out(len) => out_number(len),
        Answer::Got(n) => named(GOT, n),
        Answer::Done => of_kind(DONE, 0),
        Answer::Ignored => of_kind(IGNORED, 0),
        Answer::Nothing => of_kind(NOTHING, 0),
        Answer::Clash(n) => named(CLASH, n),
        Answer::Late(n) => named(LATE, n),
        Answer::Exhausted => of_kind(EXHAUSTED, 0),
    }
}

pub fn is_refused(a: Answer) -> bool
    ensures { result ≡ is_refused a }
{
    matches!(a, Answer::Refused(_))
}
