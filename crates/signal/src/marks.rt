// Marks over any kind: a value below and a set of marks.
ghost use Rattle.std.specs.Prelude.{◌≡◌, bit_or};
ghost use Rattle.signal.specs.Marked.{marked, with_marks};
ghost use Rattle.signal.specs.MarkedLaws.{marked_lawful, marked_open};
ghost use Rattle.signal.specs.Sets.{has, some_below};

use super::{Signal, WithUnknown};

// Stays: a proof does not know the value of an associated constant of a generic impl, so `kind_letter` reads this one.
const LETTER: char = 'M';

#[derive(Clone, Copy, PartialEq, Eq, Debug)]
pub struct Marks<K> {
    pub below: K,
    pub marks: u64,
}

// Whether a set has a mark.
fn has_mark(marks: u64) -> bool
    ensures { result ≡ some_below 64 (has marks) }
{
    marks != 0
}

// A value under the marks of two operands.
fn under_both<K: Signal>(below: K, first: u64, second: u64) -> Marks<K>
    ensures { result ≡ with_marks below (bit_or first second) }
{
    Marks {
        below,
        marks: first | second,
    }
}

impl<K: Signal> Signal for Marks<K> {
    const LETTER: char = LETTER;

    ghost kind = { marked K.Signal.kind };

    ghost lawful = { marked_lawful K.Signal.kind K.Signal.lawful };

    fn kind_letter() -> char {
        LETTER
    }

    fn low() -> Marks<K> {
        Marks {
            below: K::low(),
            marks: 0,
        }
    }

    fn high() -> Marks<K> {
        Marks {
            below: K::high(),
            marks: 0,
        }
    }

    fn not(self) -> Marks<K> {
        Marks {
            below: self.below.not(),
            marks: self.marks,
        }
    }

    fn and(self, other: Marks<K>) -> Marks<K> {
        under_both(self.below.and(other.below), self.marks, other.marks)
    }

    fn or(self, other: Marks<K>) -> Marks<K> {
        under_both(self.below.or(other.below), self.marks, other.marks)
    }

    fn xor(self, other: Marks<K>) -> Marks<K> {
        under_both(self.below.xor(other.below), self.marks, other.marks)
    }

    fn pick(self, first: Marks<K>, second: Marks<K>) -> Marks<K> {
        Marks {
            below: self.below.pick(first.below, second.below),
            marks: self.marks | first.marks | second.marks,
        }
    }

    fn told(self) -> Option<bool> {
        if has_mark(self.marks) {
            None
        } else {
            self.below.told()
        }
    }
}

impl<K: WithUnknown> WithUnknown for Marks<K> {
    ghost blank = { with_marks K.WithUnknown.blank 0 };

    ghost open = { marked_open K.Signal.kind K.Signal.lawful K.WithUnknown.blank K.WithUnknown.open };

    fn unknown() -> Marks<K> {
        Marks {
            below: K::unknown(),
            marks: 0,
        }
    }
}
