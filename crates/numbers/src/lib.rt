// Big-endian numbers in a byte slice, and two bytes as an i16. The functions here are helpers of the crates above and no calls
// of the product: each asks in its `requires` that the bytes are there, which its callers have counted already.
#![tactic(auto)]

pub mod bits;

ghost use Rattle.std.specs.Prelude.{◌≡◌, ◌+◌, ◌^◌, ◌≤◌, ◌<◌, ◌∷◌, [], length, take, drop};
ghost use Rattle.numbers.specs.Number.{value, digits};
ghost use Rattle.numbers.specs.Reads.{Reads};
ghost use Rattle.numbers.specs.Signed.{signed, unsigned};
ghost use Rattle.numbers.specs.Splice.{splice};

// The number that the w bytes from `at` stand for. Six bytes are the widest that a message has.
pub fn read_be(s: &[u8], at: usize, w: usize) -> u64
    requires w_bound { w ≤ 6 }
    requires w_in_bounds { at + w ≤ length s.now }
    ensures { Reads s.now at w result }
{
    let mut v: u64 = 0;
    for byte in &s[at..at + w] {
        v = v * 256 + u64::from(*byte);
    }
    v
}

// Writes one byte at `at`.
pub fn put_byte(out: &mut [u8], at: usize, byte: u8)
    requires { at < length out.old }
    ensures { out.new ≡ splice at (byte ∷ []) out.old }
{
    out[at] = byte;
}

// Writes the last w bytes of v from `at` on.
pub fn put_be(out: &mut [u8], at: usize, w: usize, v: u64)
    requires { at + w ≤ length out.old }
    ensures { out.new ≡ splice at (digits w v) out.old }
{
    let mut n = v;
    for i in (0..w).rev() {
        out[at + i] = (n % 256) as u8;
        n /= 256;
    }
}

// Writes the bytes of b from `at` on.
pub fn put_bytes(out: &mut [u8], at: usize, b: &[u8])
    requires { at + length b.now ≤ length out.old }
    ensures { out.new ≡ splice at b.now out.old }
{
    out[at..at + b.len()].copy_from_slice(b);
}

// Two bytes as an unsigned number.
pub fn read_u16(s: &[u8], at: usize) -> u16
    requires { at + 2 ≤ length s.now }
    ensures { result ≡ value (take 2 (drop at s.now)) }
{
    read_be(s, at, 2) as u16
}

// 16 bits as the signed number that they stand for.
pub fn to_i16(v: u16) -> i16
    ensures { result ≡ signed v }
{
    v.cast_signed()
}

// The 16 bits of a signed number.
pub fn of_i16(z: i16) -> u16
    ensures { result ≡ unsigned z }
{
    z.cast_unsigned()
}

// Two bytes as a signed number: FF FE is −2.
pub fn read_i16(s: &[u8], at: usize) -> i16
    requires { at + 2 ≤ length s.now }
    ensures { result ≡ signed (value (take 2 (drop at s.now))) }
{
    to_i16(read_u16(s, at))
}

// Writes a signed number as two bytes.
pub fn put_i16(out: &mut [u8], at: usize, z: i16)
    requires { at + 2 ≤ length out.old }
    ensures { out.new ≡ splice at (digits 2 (unsigned z)) out.old }
{
    put_be(out, at, 2, of_i16(z) as u64)
}
