// Rows: 64 bits side by side, one for each row.
ghost use Rattle.signal.specs.Rows.{rows as the_rows};
ghost use Rattle.signal.specs.RowsLaws.{rows_lawful};

use super::Signal;

impl Signal for u64 {
    const LETTER: char = 'R';

    ghost kind = { the_rows };

    ghost lawful = { rows_lawful };

    fn kind_letter() -> char {
        Self::LETTER
    }

    fn low() -> u64 {
        0
    }

    fn high() -> u64 {
        u64::MAX
    }

    fn not(self) -> u64 {
        !self
    }

    fn and(self, other: u64) -> u64 {
        self & other
    }

    fn or(self, other: u64) -> u64 {
        self | other
    }

    fn xor(self, other: u64) -> u64 {
        self ^ other
    }

    fn pick(self, first: u64, second: u64) -> u64 {
        (self & first) | (self.not() & second)
    }

    fn told(self) -> Option<bool> {
        match self {
            0 => Some(false),
            u64::MAX => Some(true),
            _ => None,
        }
    }
}
