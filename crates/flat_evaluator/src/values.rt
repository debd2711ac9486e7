// Values of the flat board, with each gate by its truth table or by the definition of the kind.
use crate::function::Function;
use std::array;

const BITS: [bool; 2] = [false, true];

// The part of a situation in which a value is looked at.
#[derive(Clone, Copy)]
pub struct Situation {
    pub row: usize,
    pub marks: [bool; 64],
}

pub trait Value: Clone + Copy + PartialEq {
    fn of_bit(bit: bool) -> Self;

    // What a gate gives; one of fewer than three inputs is handed 0 for the others.
    fn gate(function: Function, a: Self, b: Self, c: Self) -> Self;

    fn admits(&self, situation: &Situation, bit: bool) -> bool;

    fn is_settled(&self, situation: &Situation) -> bool {
        self.admits(situation, false) != self.admits(situation, true)
    }
}

pub fn value_at<V: Value>(values: &[V], place: usize) -> V {
    values.get(place).copied().unwrap_or(V::of_bit(false))
}

impl Value for bool {
    fn of_bit(bit: bool) -> bool {
        bit
    }

    fn gate(function: Function, a: bool, b: bool, c: bool) -> bool {
        function.truth(a, b, c)
    }

    fn admits(&self, _situation: &Situation, bit: bool) -> bool {
        *self == bit
    }
}

// A level as the bits that it can be.
#[derive(Clone, Copy, PartialEq, Eq, Debug)]
pub struct BitSet {
    pub zero: bool,
    pub one: bool,
}

impl BitSet {
    fn has(&self, bit: bool) -> bool {
        if bit { self.one } else { self.zero }
    }
}

// Whether some filling of the operands gives the bit, each operand by itself.
fn can_give(function: Function, a: BitSet, b: BitSet, c: BitSet, bit: bool) -> bool {
    BITS.iter().any(|x| {
        a.has(*x)
            && BITS.iter().any(|y| {
                b.has(*y)
                    && BITS
                        .iter()
                        .any(|z| c.has(*z) && function.truth(*x, *y, *z) == bit)
            })
    })
}

impl Value for BitSet {
    fn of_bit(bit: bool) -> BitSet {
        BitSet {
            zero: !bit,
            one: bit,
        }
    }

    // An unknown selector gives an unknown, whatever the data are.
    fn gate(function: Function, a: BitSet, b: BitSet, c: BitSet) -> BitSet {
        if function != Function::Pick {
            BitSet {
                zero: can_give(function, a, b, c, false),
                one: can_give(function, a, b, c, true),
            }
        } else if a.zero && a.one {
            a
        } else if a.one {
            b
        } else {
            c
        }
    }

    fn admits(&self, _situation: &Situation, bit: bool) -> bool {
        self.has(bit)
    }
}

// 64 single bits.
#[derive(Clone, Copy, PartialEq, Eq, Debug)]
pub struct Row {
    pub bits: [bool; 64],
}

impl Value for Row {
    fn of_bit(bit: bool) -> Row {
        Row { bits: [bit; 64] }
    }

    fn gate(function: Function, a: Row, b: Row, c: Row) -> Row {
        Row {
            bits: array::from_fn(|i| function.truth(a.bits[i], b.bits[i], c.bits[i])),
        }
    }

    fn admits(&self, situation: &Situation, bit: bool) -> bool {
        self.bits.get(situation.row).copied() == Some(bit)
    }
}

// A value under a set of marks.
#[derive(Clone, Copy, PartialEq, Eq, Debug)]
pub struct Marked<V> {
    pub below: V,
    pub marks: [bool; 64],
}

impl<V: Value> Value for Marked<V> {
    fn of_bit(bit: bool) -> Marked<V> {
        Marked {
            below: V::of_bit(bit),
            marks: [false; 64],
        }
    }

    fn gate(function: Function, a: Marked<V>, b: Marked<V>, c: Marked<V>) -> Marked<V> {
        Marked {
            below: V::gate(function, a.below, b.below, c.below),
            marks: array::from_fn(|i| a.marks[i] || b.marks[i] || c.marks[i]),
        }
    }

    fn admits(&self, situation: &Situation, bit: bool) -> bool {
        meet(&self.marks, &situation.marks) || self.below.admits(situation, bit)
    }
}

fn meet(a: &[bool; 64], b: &[bool; 64]) -> bool {
    a.iter().zip(b.iter()).any(|(one, other)| *one && *other)
}
