// Situations in which values are looked at, and what is looked for.
use crate::kinds::Kind;
use board_maker::dice::Dice;
use flat_evaluator::values::{Situation, Value};
use std::alloc::{AllocError, Global};
use std::array;

// The situation in which values are looked at, and whether only values are handed in that are settled there.
#[derive(Clone, Copy)]
pub struct View {
    pub situation: Situation,
    pub settled: bool,
}

impl View {
    pub fn any(dice: &mut Dice) -> View {
        let percent = dice.below(30);
        let marks = array::from_fn(|_| dice.chance(percent));
        View {
            situation: Situation {
                row: dice.below(64),
                marks,
            },
            settled: dice.chance(30),
        }
    }

    // Values that may be handed in.
    pub fn any_values<K: Kind>(
        &self,
        heap: Global,
        dice: &mut Dice,
        count: usize,
    ) -> Result<Vec<K>, AllocError> {
        (0..count).map(|_| self.any_value(dice)).collect(heap)
    }

    fn any_value<K: Kind>(&self, dice: &mut Dice) -> K {
        if self.settled {
            self.any_settled(dice)
        } else {
            K::any(dice)
        }
    }

    // A value that is settled in the situation.
    fn any_settled<K: Kind>(&self, dice: &mut Dice) -> K {
        (0..20)
            .map(|_| K::any(dice))
            .find(|value| value.own().is_settled(&self.situation))
            .unwrap_or(K::low())
    }

    // A bit for each value, one that it admits.
    pub fn any_bits<V: Value>(
        &self,
        heap: Global,
        dice: &mut Dice,
        values: &[V],
    ) -> Result<Vec<bool>, AllocError> {
        values
            .iter()
            .map(|value| {
                let bit = dice.chance(50);
                if value.admits(&self.situation, bit) {
                    bit
                } else {
                    !bit
                }
            })
            .collect(heap)
    }

    // Whether values are others than they are to be.
    pub fn differ<K: Kind>(&self, values: &[K], wanted: &[K::Own]) -> bool {
        values.len() != wanted.len()
            || values
                .iter()
                .zip(wanted.iter())
                .any(|(value, wanted)| value.own() != *wanted)
    }

    // Whether a value denies its bit; as many have one as there are bits.
    pub fn deny<K: Kind>(&self, values: &[K], bits: &[bool]) -> bool {
        values
            .iter()
            .zip(bits.iter())
            .any(|(value, bit)| !value.own().admits(&self.situation, *bit))
    }

    // Whether a value that has a bit is not settled though all handed in are.
    pub fn unsettled<K: Kind>(&self, values: &[K], bits: &[bool]) -> bool {
        self.settled
            && values
                .iter()
                .take(bits.len())
                .any(|value| !value.own().is_settled(&self.situation))
    }
}

// What values are to be, and the bits that the first ones have to admit.
#[derive(Clone, Copy)]
pub struct Expected<'a, V> {
    pub values: &'a [V],
    pub bits: &'a [bool],
}
