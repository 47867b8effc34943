// Numbers of 1, 2, 4 and 8 bytes, the highest byte first. Whoever writes one promises also that it fits, which its type says.
#![tactic(auto)]

ghost use Rattle.std.specs.Prelude.{◌≡◌, ℕ, ◌+◌, ◌*◌, ◌≤◌, Bool, List, length};
ghost use Rattle.layout.specs.Puts.{Puts};
ghost use Rattle.message.specs.Section.{flat};
ghost use Rattle.message.proofs.SectionLaws.{All};
ghost use Rattle.lent_fields.specs.Fields.{number, PutsNumber, is_option, option_of, many, all_pass};
ghost use Rattle.lent_fields.specs.Form.{Codec};

use std::array;

pub fn read1(s: &[u8], at: usize) -> u8
    requires { at + 1 ≤ length s.now }
    ensures { result ≡ number 1 s.now at }
{
    numbers::read_be(s, at, 1) as u8
}

pub fn read2(s: &[u8], at: usize) -> u16
    requires { at + 2 ≤ length s.now }
    ensures { result ≡ number 2 s.now at }
{
    numbers::read_be(s, at, 2) as u16
}

pub fn read4(s: &[u8], at: usize) -> u32
    requires { at + 4 ≤ length s.now }
    ensures { result ≡ number 4 s.now at }
{
    numbers::read_be(s, at, 4) as u32
}

pub fn read8(s: &[u8], at: usize) -> u64
    requires { at + 8 ≤ length s.now }
    ensures { result ≡ number 8 s.now at }
{
    let hi = numbers::read_be(s, at, 4);
    let lo = numbers::read_be(s, at + 4, 4);
    hi * 4294967296 + lo
}

pub fn put1(s: &mut [u8], at: usize, v: u8)
    requires { at + 1 ≤ length s.old }
    ensures { PutsNumber at 1 v s.old s.new }
{
    numbers::put_be(s, at, 1, v as u64);
}

pub fn put2(s: &mut [u8], at: usize, v: u16)
    requires { at + 2 ≤ length s.old }
    ensures { PutsNumber at 2 v s.old s.new }
{
    numbers::put_be(s, at, 2, v as u64);
}

pub fn put4(s: &mut [u8], at: usize, v: u32)
    requires { at + 4 ≤ length s.old }
    ensures { PutsNumber at 4 v s.old s.new }
{
    numbers::put_be(s, at, 4, v as u64);
}

pub fn put8(s: &mut [u8], at: usize, v: u64)
    requires { at + 8 ≤ length s.old }
    ensures { PutsNumber at 8 v s.old s.new }
{
    numbers::put_be(s, at, 8, v);
}

// The test of a thing that is there or not: the tag, and whether all its other numbers are 0.
pub fn is_option(tag: u8, none: bool) -> bool
    ensures { result ≡ is_option tag none }
{
    if tag == 0 {
        return none;
    }
    tag == 1
}

// A thing that is there unless its tag is 0.
pub fn option_of<T: Copy>(tag: u8, value: T) -> Option<T>
    ensures { result ≡ option_of tag value }
{
    if tag == 0 {
        return None;
    }
    Some(value)
}

// A form in bytes: how many they are, and how a value is read, tested and written. What is written reads back as it was and passes the test, and
// bytes that pass it are written as they were.
pub trait Form {
    type Value: Copy;

    const WIDTH: usize;

    ghost WIDTH: { ℕ };

    ghost bytes: { Self.Value → List ℕ };

    ghost from: { List ℕ → ℕ → Self.Value };

    ghost passes: { List ℕ → ℕ → Bool };

    // What the type of a value says of it.
    ghost Fits: { Self.Value → Type 0 };

    fn read(s: &[u8], at: usize) -> Self::Value
        requires { at + WIDTH ≤ length s.now }
        ensures { result ≡ from s.now at };

    fn test(s: &[u8], at: usize) -> bool
        requires { at + WIDTH ≤ length s.now }
        ensures { result ≡ passes s.now at };

    fn put(s: &mut [u8], at: usize, x: Self::Value)
        requires { at + WIDTH ≤ length s.old }
        ensures puts { Puts at WIDTH (bytes x) s.old s.new }
        ensures fits { Fits x };

    ghost both_ways: { Codec WIDTH bytes from passes Fits };
}

// N values, one after the other. They are read into their places: an array that is made of calls is zeroed first and copied more often.
pub fn read_all<F: Form, const N: usize>(s: &[u8], from: usize) -> [F::Value; N]
    requires { from + N * F.WIDTH ≤ length s.now }
    ensures { result ≡ many F.from F.WIDTH N s.now from }
{
    if N == 0 {
        return array::from_fn(
            |n: usize| -> F::Value
                requires { from + n * F.WIDTH + F.WIDTH ≤ length s.now }
            { F::read(s, from + n * F::WIDTH) },
        );
    }
    let first = F::read(s, from);
    let mut all = [first; N];
    for n in 1..N {
        all[n] = F::read(s, from + n * F::WIDTH);
    }
    all
}

// The same over an array that is blank at first, with whatever value. For small values: a loop with the only call that reads them is compiled with
// that call's body in it, where `read_all` makes each value beside its place and copies it there.
pub fn read_over<F: Form, const N: usize>(blank: F::Value, s: &[u8], from: usize) -> [F::Value; N]
    requires { from + N * F.WIDTH ≤ length s.now }
    ensures { result ≡ many F.from F.WIDTH N s.now from }
{
    let mut all = [blank; N];
    for i in 0..N {
        all[i] = F::read(s, from + i * F::WIDTH);
    }
    all
}

pub fn test_all<F: Form, const N: usize>(s: &[u8], from: usize) -> bool
    requires { from + N * F.WIDTH ≤ length s.now }
    ensures { result ≡ all_pass F.passes F.WIDTH N s.now from }
{
    (0..N).all(
        |n: usize| -> bool
            requires { from + n * F.WIDTH + F.WIDTH ≤ length s.now }
        { F::test(s, from + n * F::WIDTH) },
    )
}

pub fn put_all<F: Form, const N: usize>(s: &mut [u8], from: usize, all: [F::Value; N])
    requires { from + N * F.WIDTH ≤ length s.old }
    ensures puts { Puts from (N * F.WIDTH) (flat F.bytes all) s.old s.new }
    ensures fit { (length all ≡ N) × All F.Fits all }
{
    for n in 0..N {
        F::put(s, from + n * F::WIDTH, all[n]);
    }
}
