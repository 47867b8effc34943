// A set of small numbers in one number: i is in the set where binary digit i, worth 2^i, is 1. As in the crate's root, each function
// asks in its `requires` for what its callers know: that i is a digit of the number.
ghost use Rattle.std.specs.Prelude.{◌≡◌, ◌<◌};
ghost use Rattle.numbers.specs.Bits.{bit, with_bit};

// Whether i is in the set.
pub fn has(set: u64, i: u64) -> bool
    requires { i < 64 }
    ensures { result ≡ bit set i }
{
    (set >> i) % 2 == 1
}

// The set with i in it.
pub fn with(set: u64, i: u64) -> u64
    requires { i < 64 }
    ensures { result ≡ with_bit set i }
{
    if has(set, i) { set } else { set + (1u64 << i) }
}

// Whether the host h, one of eight, is in the set.
// Kept: (d) these two are calls of the two above already; one generic function would need the fact that its integer is a u64, in more words.
pub fn has_host(set: u8, h: u8) -> bool
    requires { h < 8 }
    ensures { result ≡ bit set h }
{
    has(set as u64, h as u64)
}

// The set of hosts with h in it.
pub fn with_host(set: u8, h: u8) -> u8
    requires { h < 8 }
    ensures { result ≡ with_bit set h }
{
    with(set as u64, h as u64) as u8
}
