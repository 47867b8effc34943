// The headings of a trace, each printed with how many rows under it were right.
use picture::text::Text;

// The heading whose rows are played, where there is one: the first of these bytes.
// Kept: a length beside the bytes, in fixed memory (no heap): a program that asked for memory might not get it, and print something else.
#[derive(Drop)]
pub struct Heading {
    bytes: [u8; 1000],
    len: Option<usize>,
    right: u64,
}

impl Heading {
    pub fn none() -> Self {
        Heading {
            bytes: [0; 1000],
            len: None,
            right: 0,
        }
    }

    // One more row was right.
    pub fn count(&mut self) {
        self.right = self.right.saturating_add(1);
    }

    // A heading starts.
    pub fn start(&mut self, words: &[u8]) {
        for (place, b) in self.bytes.iter_mut().zip(words) {
            *place = *b;
        }
        self.len = Some(words.len());
    }

    fn words(&self) -> Option<&[u8]> {
        self.bytes.get(..self.len?)
    }

    // Prints the heading whose rows are over.
    pub fn close(&mut self, text: &mut Text) {
        if let Some(words) = self.words() {
            text.extend(words);
            writeln!(text, ": {} right", self.right);
        }
        self.right = 0;
    }
}
