// The last 64 messages that were put out, in the places of a store.
use store::Store;
use trace::{Bytes, Cursor};

// The places, and how many messages were put out.
#[derive(Clone, Copy)]
pub struct Kept {
    store: Store,
    count: u64,
}

impl Kept {
    pub fn new() -> Self {
        Kept {
            store: Store::new(),
            count: 0,
        }
    }

    // The number of the next message.
    pub fn next(&self) -> u64 {
        self.count
    }

    // Keeps the first `len` bytes of an output as the next message. No message has more bytes than a place.
    pub fn keep(&mut self, out: &[u8], len: usize) {
        let size = len.min(store::ROOM).min(out.len());
        self.store.put((self.count % 64) as usize, &out[..size]);
        self.count = self.count.saturating_add(1);
    }

    // The message whose number is the next word.
    pub fn numbered(&self, line: &mut Cursor) -> Option<Bytes> {
        let number = line.number()?;
        let behind = self.count.checked_sub(number)?;
        (1..=64).contains(&behind).then(|| Bytes::copied(
            self.store.message((number % 64) as usize),
        ))
    }
}
