// A book put together record by record.

// Room for a book one byte longer than the longest.
pub const ROOM: usize = 65536;

// A record's kind is a number and no enum: a script may name any.
const BASIC_TYPE: usize = 1;

const PAIR: usize = 2;

const SLASHED_ENTRY: usize = 5;

// The bytes stand in an array and not on the heap: an allocation can fail, and would change what a program writes. What was put before a `clear`
// or a `go_to` stays in the array, since an item of a script goes to an offset and takes the bytes before it as they are.
#[derive(Drop)]
pub struct Buffer {
    bytes: [u8; ROOM],
    len: usize,
}

impl Buffer {
    pub fn new() -> Self {
        Buffer {
            bytes: [0; ROOM],
            len: 0,
        }
    }

    // What has been put. There is none where the offset is behind the room.
    pub fn written(&self) -> Option<&[u8]> {
        self.bytes.get(..self.len)
    }

    // Goes back to the start.
    pub fn clear(&mut self) {
        self.go_to(0);
    }

    // Goes to the offset where the next byte is to stand.
    pub fn go_to(&mut self, offset: usize) {
        self.len = offset;
    }

    // Puts a byte, where there is room.
    pub fn put(&mut self, byte: u8) {
        if let Some(place) = self.bytes.get_mut(self.len) {
            *place = byte;
            self.len += 1;
        }
    }

    // Puts bytes one behind another.
    pub fn put_all(&mut self, bytes: &[u8]) {
        for byte in bytes {
            self.put(*byte);
        }
    }

    // Puts a two-byte number, little-endian.
    fn put_two(&mut self, number: usize) {
        let number = (number % 65536) as u16;
        self.put_all(&number.to_le_bytes());
    }

    // Puts a record's head: the body's length and the kind.
    pub fn head(&mut self, length: usize, kind: usize) {
        self.put_two(length);
        self.put_two(kind);
    }

    // Puts a record.
    pub fn record(&mut self, kind: usize, body: &[u8]) {
        self.head(body.len(), kind);
        self.put_all(body);
    }

    // Puts a slashed entry: the length of a word, the word and a text.
    pub fn slashed_entry(&mut self, word: &[u8], text: &[u8]) {
        self.head(1 + word.len() + text.len(), SLASHED_ENTRY);
        self.put((word.len() % 256) as u8);
        self.put_all(word);
        self.put_all(text);
    }

    // Puts the basic types a00, a01, and so on, 7 bytes each.
    pub fn numbered_types(&mut self, count: usize) {
        for i in 0..count {
            self.record(BASIC_TYPE, &[b'a', digit(i / 10), digit(i)]);
        }
    }

    // Puts so many order pairs, 6 bytes each: the first pair, and each further one with both types moved on by a step, modulo 256.
    pub fn moving_pairs(&mut self, count: usize, first: [u8; 2], step: [u8; 2]) {
        let [mut lower, mut upper] = first;
        for _ in 0..count {
            self.record(PAIR, &[lower, upper]);
            lower = lower.wrapping_add(step[0]);
            upper = upper.wrapping_add(step[1]);
        }
    }
}

// The digit of a number that stands for units.
fn digit(number: usize) -> u8 {
    b'0' + (number % 10) as u8
}
