// The library's kinds, each with the values of the flat board that stand for its own.
use board::Board;
use board_maker::dice::Dice;
use flat_evaluator::values::{BitSet, Marked, Row, Value};
use run::{CallRefusal, Run, cold, power};
use signal::levels::Level;
use signal::marks::Marks;
use signal::{Signal, WithUnknown};
use std::array;

pub trait Kind: Signal {
    type Own: Value;

    type Start: ColdStart<Self>;

    // Stays: a From is written in the crate of one of its two types, and neither of them knows the other.
    fn own(self) -> Self::Own;

    fn any(dice: &mut Dice) -> Self;
}

// The unknown of a kind, written out: what the library's `unknown` gives is compared with it.
pub trait Blank: WithUnknown {
    fn blank() -> Self;
}

impl Blank for Level {
    fn blank() -> Level {
        Level::Unknown
    }
}

impl<K: Blank> Blank for Marks<K> {
    fn blank() -> Marks<K> {
        Marks {
            below: K::blank(),
            marks: 0,
        }
    }
}

// Cold starts on a kind.
pub trait ColdStart<K> {
    // The unknown, of a kind that has one.
    fn blank() -> Option<K>;

    // A cold start; on a kind that has no unknown, a start from low cells.
    fn start<'b, 'f>(board: &'b Board<'f>, cells: &mut [K]) -> Result<Run<'b, 'f>, CallRefusal>;
}

// Of kinds that have an unknown.
pub struct FromUnknown;

impl<K: Blank> ColdStart<K> for FromUnknown {
    fn blank() -> Option<K> {
        Some(K::blank())
    }

    fn start<'b, 'f>(board: &'b Board<'f>, cells: &mut [K]) -> Result<Run<'b, 'f>, CallRefusal> {
        cold(board, cells)
    }
}

// Of kinds that have none.
pub struct FromLow;

impl<K: Signal> ColdStart<K> for FromLow {
    fn blank() -> Option<K> {
        None
    }

    fn start<'b, 'f>(board: &'b Board<'f>, cells: &mut [K]) -> Result<Run<'b, 'f>, CallRefusal> {
        power(board, cells)
    }
}

impl Kind for bool {
    type Own = bool;

    type Start = FromLow;

    fn own(self) -> bool {
        self
    }

    fn any(dice: &mut Dice) -> bool {
        dice.chance(50)
    }
}

impl Kind for Level {
    type Own = BitSet;

    type Start = FromUnknown;

    fn own(self) -> BitSet {
        BitSet {
            zero: self != Level::One,
            one: self != Level::Zero,
        }
    }

    fn any(dice: &mut Dice) -> Level {
        match dice.below(3) {
            0 => Level::Zero,
            1 => Level::One,
            _ => Level::Unknown,
        }
    }
}

// The bits of a number, the lowest first.
fn bits_of(number: u64) -> [bool; 64] {
    array::from_fn(|place| number >> place & 1 == 1)
}

impl Kind for u64 {
    type Own = Row;

    type Start = FromLow;

    fn own(self) -> Row {
        Row {
            bits: bits_of(self),
        }
    }

    fn any(dice: &mut Dice) -> u64 {
        match dice.below(8) {
            0 => 0,
            1 => u64::MAX,
            _ => dice.word(),
        }
    }
}

// Marks over any kind, with an unknown where the kind below has one.
impl<K: Kind> Kind for Marks<K>
where
    K::Start: ColdStart<Marks<K>>,
{
    type Own = Marked<K::Own>;

    type Start = K::Start;

    fn own(self) -> Marked<K::Own> {
        Marked {
            below: self.below.own(),
            marks: bits_of(self.marks),
        }
    }

    fn any(dice: &mut Dice) -> Marks<K> {
        let marks = match dice.below(8) {
            0 => dice.word() & dice.word() & dice.word(),
            1..=2 => 1u64.rotate_left((dice.word() & 63) as u32),
            _ => 0,
        };
        Marks {
            below: K::any(dice),
            marks,
        }
    }
}
