// Bytes in words: pairs of hexadecimal digits.
ghost use Rattle.std.specs.Prelude.{◌≤◌, IfSome};

// At most 256 bytes.
// Kept: a length beside the bytes, in fixed memory (no heap): a program that asked for memory might not get it, and print something else.
#[derive(Clone, Copy)]
pub struct Bytes {
    all: [u8; 256],
    len: usize,
    ghost inside: { len ≤ 256 },
}

impl Bytes {
    pub fn none() -> Self {
        Bytes {
            all: [0; 256],
            len: 0,
        }
    }

    // The bytes of a message, as far as there is room.
    pub fn copied(from: &[u8]) -> Self {
        let mut bytes = Bytes::none();
        for b in from {
            let _ = bytes.push(*b);
        }
        bytes
    }

    // One byte more, where there is room.
    fn push(&mut self, b: u8) -> Option<()> {
        *self.all.get_mut(self.len)? = b;
        self.len += 1;
        Some(())
    }

    pub fn as_slice(&self) -> &[u8] {
        &self.all[..self.len]
    }

    // The bytes that a word of digits stands for.
    pub(crate) fn from_digits(word: &[u8]) -> Option<Self> {
        let mut bytes = Bytes::none();
        for pair in word.chunks(2) {
            let [high, low] = pair else {
                return None;
            };
            bytes.push(digit(*high)? * 16 + digit(*low)?)?;
        }
        Some(bytes)
    }
}

fn digit(character: u8) -> Option<u8>
    ensures { IfSome result (λ d. d ≤ 15) }
{
    match character {
        b'0'..=b'9' => Some(character - b'0'),
        b'A'..=b'F' => Some(character - b'A' + 10),
        _ => None,
    }
}
