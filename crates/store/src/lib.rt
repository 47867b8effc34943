// The messages that a house keeps, each in a place of 128 bytes. The definitions are in specs/Store.antt. The functions and methods here
// are helpers of the crates above: each asks in its `requires` for the places that it uses.
#![tactic(auto)]

ghost use Rattle.std.specs.Prelude.{◌≡◌, ◌∷◌, [], ◌++◌, suc, ◌+◌, ◌*◌, ◌≤◌, ◌<◌, min, length, get_or};
ghost use Rattle.store.specs.Store.{most, room, message_in, first_messages, kept};

// How many places there are, and how many bytes each has.
pub const MOST: usize = 64;

pub const ROOM: usize = 128;

// The smaller of two numbers.
pub fn least(a: usize, b: usize) -> usize
    ensures { result ≡ min a b }
{
    a.min(b)
}

// How many bytes the message in a place has.
pub fn size(lengths: &[u8], k: usize) -> usize
    requires { k < length lengths.now }
    ensures { result ≡ min (get_or lengths.now k 0) room }
{
    least(lengths[k] as usize, ROOM)
}

// Puts a message into the next place.
pub fn keep(store: &mut [u8], lengths: &mut [u8], k: usize, message: &[u8])
    requires k_in_bounds { k < length lengths.old }
    requires message_in_bounds { k * room + length message.now ≤ length store.old }
    requires message_len_bound { length message.now ≤ room }
    ensures { first_messages store.new lengths.new (suc k) ≡ first_messages store.old lengths.old k ++ (message.now ∷ []) }
{
    numbers::put_bytes(store, k * ROOM, message);
    lengths[k] = message.len() as u8;
}

// The places, how many bytes the message in each has, and how many of the places are used.
// Kept: arrays with lengths beside them, since the messages have a fixed memory and no heap, and `messages_in` is over these lists.
#[derive(Clone, Copy)]
pub struct Store {
    pub places: [u8; 8192],
    pub lengths: [u8; 64],
    pub count: usize,
}

impl Store {
    // No message yet.
    pub fn new() -> Self
        ensures { kept result ≡ [] }
    {
        Store {
            places: [0; 8192],
            lengths: [0; 64],
            count: 0,
        }
    }

    // How many places are used: all of them where the count is more.
    pub fn used(&self) -> usize
        ensures { result ≡ min self.now.count most }
    {
        least(self.count, MOST)
    }

    // The message in a place.
    pub fn message(&self, k: usize) -> &[u8]
        requires { k < most }
        ensures { result.now ≡ message_in self.now.places self.now.lengths k }
    {
        let at = k * ROOM;
        &self.places[at..at + size(&self.lengths, k)]
    }

    // Puts a message into a place.
    pub fn put(&mut self, k: usize, message: &[u8])
        requires k_in_bounds { k < most }
        requires message_len_bound { length message.now ≤ room }
        ensures messages { first_messages self.new.places self.new.lengths (suc k) ≡ first_messages self.old.places self.old.lengths k ++ (message.now ∷ []) }
        ensures same_count { self.new.count ≡ self.old.count }
    {
        keep(&mut self.places, &mut self.lengths, k, message);
    }

    // Keeps a message in the next place.
    pub fn keep(&mut self, message: &[u8])
        requires count_in_bounds { self.old.count < most }
        requires message_len_bound { length message.now ≤ room }
        ensures messages { kept self.new ≡ kept self.old ++ (message.now ∷ []) }
        ensures next_count { self.new.count ≡ self.old.count + 1 }
    {
        self.put(self.count, message);
        self.count += 1;
    }
}
