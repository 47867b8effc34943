// The last 64 messages that the events put out, numbered from 0 since the start.
use trace::Bytes;

// Message n is at place n mod 64.
#[derive(Drop)]
pub struct Kept {
    messages: [Bytes; 64],
    count: u64,
}

impl Kept {
    pub fn new() -> Self {
        Kept {
            messages: [Bytes::none(); 64],
            count: 0,
        }
    }

    // Keeps the next message.
    pub fn keep(&mut self, message: &[u8]) {
        self.messages[(self.count % 64) as usize] = Bytes::copied(message);
        self.count = self.count.saturating_add(1);
    }

    // The message of a number, where it is kept.
    pub fn message(&self, number: u64) -> Option<Bytes> {
        let age = self.count.checked_sub(number)?;
        if age == 0 || 64 < age {
            return None;
        }
        Some(self.messages[(number % 64) as usize])
    }
}
