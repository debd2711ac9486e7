// Bits: 0 and 1.
ghost use Rattle.signal.specs.Bits.{bits as the_bits};
ghost use Rattle.signal.specs.BitsLaws.{bits_lawful};

use super::Signal;

// Stays: rows have the same operators; to write them once would take a macro that writes impls, which `rt ci` refuses.
impl Signal for bool {
    const LETTER: char = 'B';

    ghost kind = { the_bits };

    ghost lawful = { bits_lawful };

    fn kind_letter() -> char {
        Self::LETTER
    }

    fn low() -> bool {
        false
    }

    fn high() -> bool {
        true
    }

    fn not(self) -> bool {
        !self
    }

    fn and(self, other: bool) -> bool {
        self & other
    }

    fn or(self, other: bool) -> bool {
        self | other
    }

    fn xor(self, other: bool) -> bool {
        self ^ other
    }

    fn pick(self, first: bool, second: bool) -> bool {
        if self { first } else { second }
    }

    fn told(self) -> Option<bool> {
        Some(self)
    }
}
