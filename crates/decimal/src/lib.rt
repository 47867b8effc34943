// Decimal numbers, printed into a buffer and read from a line. The definitions are in specs/: Decimal.antt (what a number is
// printed as, what a word means) and Room.antt (a part of a line, bytes put where there is room).
#![tactic(auto)]

ghost use Rattle.std.specs.Prelude.{◌≡◌, List, ℕ, Option, Some, ◌∷◌};
ghost use Rattle.numbers.specs.Splice.{splice};
ghost use Rattle.decimal.specs.Decimal.{decimal, signed_decimal, unsigned_word, as_positive, as_negative, signed_word};
ghost use Rattle.decimal.specs.Room.{part, Put};
ghost use Rattle.decimal.specs.Steps.{with_digit, digits_after, Width, Fits};

// A number that a word may mean: an unsigned one below 2^64, or a signed one of 16 bits.
pub trait Number: Sized {
    ghost meaning: { List ℕ → Option Self };

    // The number that a whole word means.
    fn from_word(word: &[u8]) -> Option<Self>
        ensures { result ≡ meaning word.now };
}

// A number with one digit more after it, where the byte is a digit and the result is below 2^64.
fn with_digit(v: u64, b: u8) -> Option<u64>
    ensures { result ≡ with_digit (Some v) b }
{
    if !b.is_ascii_digit() {
        return None;
    }
    v.checked_mul(10)?.checked_add(u64::from(b - b'0'))
}

// The number that digits stand for; zeros before them count for nothing.
fn digits_in(digits: &[u8]) -> Option<u64>
    ensures { result ≡ digits_after (Some 0) digits.now }
{
    let mut v = 0;
    for b in digits {
        v = with_digit(v, *b)?;
    }
    Some(v)
}

impl Number for u64 {
    ghost meaning = { unsigned_word };

    fn from_word(word: &[u8]) -> Option<u64> {
        if word.is_empty() {
            return None;
        }
        if (word[0] == b'0') & (1 < word.len()) {
            return None;
        }
        digits_in(word)
    }
}

// What stands after a minus sign, which is no 0, as a negative number.
fn negative(n: u64) -> Option<i16>
    ensures { result ≡ as_negative (Some n) }
{
    if (0 < n) & (n <= 32768) {
        Some((-(n as i64)) as i16)
    } else {
        None
    }
}

impl Number for i16 {
    ghost meaning = { signed_word };

    fn from_word(word: &[u8]) -> Option<i16> {
        match word.strip_prefix(b"-") {
            Some(size) => negative(u64::from_word(size)?),
            None => i16::try_from(u64::from_word(word)?).ok(),
        }
    }
}

// The number that the bytes from `from` on and before `to` mean. What lies past the line's end is not there.
pub fn read<N: Number>(line: &[u8], from: usize, to: usize) -> Option<N>
    ensures { result ≡ N.meaning (part from to line.now) }
{
    let end = to.min(line.len());
    let start = from.min(end);
    N::from_word(&line[start..end])
}

// How many digits a number has.
fn width(n: u64) -> usize
    ensures { Width n result }
{
    let mut left = n;
    let mut w: usize = 1;
    while 10 <= left {
        left = left / 10;
        w += 1;
    }
    w
}

// Writes the digits of n, which end before `end`, the last one first.
fn put_digits(out: &mut [u8], at: usize, end: usize, n: u64)
    requires { Fits at (decimal n) out.old end }
    ensures { out.new ≡ splice at (decimal n) out.old }
{
    let mut left = n;
    let mut i = end;
    while 10 <= left {
        i -= 1;
        out[i] = b'0' + (left % 10) as u8;
        left = left / 10;
    }
    out[at] = b'0' + left as u8;
}

// Writes n from `at` on and answers where it ends; where it does not fit, nothing is written and the answer is `at`.
pub fn put_u64(out: &mut [u8], at: usize, n: u64) -> usize
    ensures { Put at (decimal n) out.old out.new result }
{
    let w = width(n);
    if w <= out.len().saturating_sub(at) {
        put_digits(out, at, at + w, n);
        at + w
    } else {
        at
    }
}

// Writes a minus sign and n.
fn put_negative(out: &mut [u8], at: usize, n: u64) -> usize
    ensures { Put at (45 ∷ decimal n) out.old out.new result }
{
    let w = width(n) + 1;
    if w <= out.len().saturating_sub(at) {
        out[at] = b'-';
        put_digits(out, at + 1, at + w, n);
        at + w
    } else {
        at
    }
}

// Writes a signed number from `at` on and answers where it ends, as put_u64 does.
pub fn put_i16(out: &mut [u8], at: usize, z: i16) -> usize
    ensures { Put at (signed_decimal z) out.old out.new result }
{
    let size = u64::from(z.unsigned_abs());
    if z < 0 {
        put_negative(out, at, size)
    } else {
        put_u64(out, at, size)
    }
}
