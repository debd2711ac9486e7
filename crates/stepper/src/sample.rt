// Kinds whose values are drawn from a stream and go into a checksum.
use signal::Signal;
use signal::levels::Level;

// Stays: `From` between a kind of the library and a number cannot be written here, since both are another crate's.
pub trait Sample: Signal {
    // The input value that a word of the stream stands for.
    fn drawn(word: u64) -> Self;

    // What the checksum takes of a value.
    fn code(self) -> u64;
}

impl Sample for bool {
    fn drawn(word: u64) -> bool {
        word >> 63 == 1
    }

    fn code(self) -> u64 {
        u64::from(self)
    }
}

impl Sample for Level {
    fn drawn(word: u64) -> Level {
        match word >> 59 {
            0 => Level::Unknown,
            1..=15 => Level::Zero,
            _ => Level::One,
        }
    }

    fn code(self) -> u64 {
        self as u64
    }
}

impl Sample for u64 {
    fn drawn(word: u64) -> u64 {
        word
    }

    fn code(self) -> u64 {
        self
    }
}
