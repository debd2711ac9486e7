// A xorshift stream of words.

// Stays: the tests of the kinds draw words in the same way, and a crate for three lines is no plainer.
#[derive(Drop)]
pub struct Stream {
    word: u64,
}

impl Stream {
    pub fn new() -> Stream {
        Stream {
            word: 0x2545_f491_4f6c_dd1d,
        }
    }
}

impl Iterator for Stream {
    type Item = u64;

    fn next(&mut self) -> Option<u64> {
        self.word ^= self.word << 13;
        self.word ^= self.word >> 7;
        self.word ^= self.word << 17;
        Some(self.word)
    }
}
