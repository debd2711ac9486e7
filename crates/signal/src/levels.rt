// Three levels: 0, 1 and unknown.
ghost use Rattle.signal.specs.Levels.{levels as the_levels};
ghost use Rattle.signal.specs.declared.levels.Level.TheVariants.{Unknown};
ghost use Rattle.signal.specs.LevelsLaws.{levels_lawful, unknown_open};

use super::{Signal, WithUnknown};

#[derive(Clone, Copy, PartialEq, Eq, Debug)]
pub enum Level {
    Zero,
    One,
    Unknown,
}

impl Signal for Level {
    const LETTER: char = 'T';

    ghost kind = { the_levels };

    ghost lawful = { levels_lawful };

    fn kind_letter() -> char {
        Self::LETTER
    }

    fn low() -> Level {
        Level::Zero
    }

    fn high() -> Level {
        Level::One
    }

    fn not(self) -> Level {
        match self {
            Level::Zero => Level::One,
            Level::One => Level::Zero,
            Level::Unknown => Level::Unknown,
        }
    }

    fn and(self, other: Level) -> Level {
        match (self, other) {
            (Level::One, Level::One) => Level::One,
            (Level::Zero, _) | (_, Level::Zero) => Level::Zero,
            _ => Level::Unknown,
        }
    }

    fn or(self, other: Level) -> Level {
        match (self, other) {
            (Level::Zero, Level::Zero) => Level::Zero,
            (Level::One, _) | (_, Level::One) => Level::One,
            _ => Level::Unknown,
        }
    }

    fn xor(self, other: Level) -> Level {
        match (self, other) {
            (Level::Zero, Level::One) | (Level::One, Level::Zero) => Level::One,
            (Level::Zero, Level::Zero) | (Level::One, Level::One) => Level::Zero,
            _ => Level::Unknown,
        }
    }

    fn pick(self, first: Level, second: Level) -> Level {
        match self {
            Level::Zero => second,
            Level::One => first,
            Level::Unknown => Level::Unknown,
        }
    }

    fn told(self) -> Option<bool> {
        match self {
            Level::Zero => Some(false),
            Level::One => Some(true),
            Level::Unknown => None,
        }
    }
}

impl WithUnknown for Level {
    ghost blank = { Unknown };

    ghost open = { unknown_open };

    fn unknown() -> Level {
        Level::Unknown
    }
}
