// The output of a call, and what is known of it.
const SIZE: usize = 200;

// The output is the front of a buffer that is filled with one byte before each call; `last` is how many bytes of it the last call's answer
// accounts for.
#[derive(Drop)]
pub struct Output {
    bytes: [u8; 200],
    pub room: usize,
    pub fill: u8,
    last: usize,
}

impl Output {
    pub fn new() -> Self {
        Output {
            bytes: [0; SIZE],
            room: 128,
            fill: 165,
            last: 0,
        }
    }

    pub fn clear(&mut self) {
        self.bytes = [self.fill; SIZE];
        self.last = 0;
    }

    // What a call may write to.
    pub fn front(&mut self) -> &mut [u8] {
        let room = self.room.min(SIZE);
        &mut self.bytes[..room]
    }

    // An answer accounts for so many bytes.
    pub fn account(&mut self, len: usize) {
        self.last = len;
    }

    pub fn accounted(&self) -> &[u8] {
        let last = self.last.min(SIZE);
        &self.bytes[..last]
    }

    pub fn whole(&self) -> &[u8] {
        &self.bytes
    }

    // Whether a byte past what the answer accounts for is not the filling. Every byte is compared, so that many are at once; to stop at the first
    // other one takes longer than all.
    pub fn is_changed(&self) -> bool {
        let last = self.last.min(SIZE);
        let mut is_filled = true;
        for b in &self.bytes[last..] {
            is_filled &= *b == self.fill;
        }
        !is_filled
    }
}
