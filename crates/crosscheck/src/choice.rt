// Calls by chance, refused ones among them.
use crate::library::Lengths;
use board::Figures;
use board_maker::dice::Dice;
use flat_evaluator::calls::{Call, Operation, Room};
use flat_evaluator::flat_run::{LEVEL_RECORDS, WORKING_VALUES};

// What calls are chosen by: the board's figures, the lengths of the caller's memory, and where the run stands.
#[derive(Clone, Copy)]
pub struct Standing {
    pub figures: Figures,
    pub most: Lengths,
    pub cycle: usize,
    // Whether a start may be cold.
    pub colds: bool,
}

impl Standing {
    pub fn any_call(&self, dice: &mut Dice) -> Call {
        let spoilt = dice.chance(25);
        let full = self.tape_from(1) > self.most.room.tape;
        let starts = dice.chance(if full { 30 } else { 2 });
        let mut numbers = Numbers { dice, spoilt };
        if starts {
            return self.any_start(&mut numbers);
        }
        match numbers.dice.below(20) {
            0..=10 => self.any_step(&mut numbers),
            11..=13 => Call {
                operation: Operation::Set {
                    cell: numbers.below(self.figures.cells),
                },
                cells: self.any_cells(&mut numbers),
            },
            14 => Call {
                operation: Operation::Clear,
                cells: self.any_cells(&mut numbers),
            },
            15..=16 => Call {
                operation: Operation::Read {
                    cell: numbers.below(self.figures.cells),
                },
                cells: self.any_cells(&mut numbers),
            },
            _ => self.any_look(&mut numbers),
        }
    }

    pub fn right_start(&self) -> Call {
        Call {
            operation: Operation::Power,
            cells: self.figures.cells,
        }
    }

    // A step that is refused only for the tape.
    pub fn right_step(&self) -> Call {
        Call {
            operation: Operation::Step(Room {
                inputs: self.figures.inputs,
                tape: self.most.room.tape,
                values: WORKING_VALUES,
                levels: LEVEL_RECORDS,
            }),
            cells: self.figures.cells,
        }
    }

    fn any_cells(&self, numbers: &mut Numbers<'_>) -> usize {
        numbers.length(self.figures.cells, self.most.cells)
    }

    fn any_start(&self, numbers: &mut Numbers<'_>) -> Call {
        let cells = self.any_cells(numbers);
        let operation = if self.colds && numbers.dice.chance(60) {
            Operation::Cold
        } else {
            Operation::Power
        };
        Call { operation, cells }
    }

    fn any_step(&self, numbers: &mut Numbers<'_>) -> Call {
        let miscounted = numbers.errs(40);
        let most = self.most.room;
        let inputs = numbers
            .spoilt_if(miscounted)
            .length(self.figures.inputs, most.inputs);
        let cells = self.any_cells(numbers);
        let operation = Operation::Step(Room {
            inputs,
            tape: numbers.room(self.tape_from(1), most.tape),
            values: numbers.room(WORKING_VALUES, most.values),
            levels: numbers.room(LEVEL_RECORDS, most.levels),
        });
        Call { operation, cells }
    }

    fn any_look(&self, numbers: &mut Numbers<'_>) -> Call {
        let misnumbered = numbers.errs(40);
        let misfit = numbers.errs(40);
        let cycle = numbers.below(self.cycle);
        let output = numbers.spoilt_if(misnumbered).below(self.figures.outputs);
        let mut lengths = numbers.spoilt_if(misfit);
        let cells = self.any_cells(&mut lengths);
        let operation = Operation::Look {
            cycle,
            output,
            tape: lengths.room(self.tape_from(0), self.most.room.tape),
        };
        Call { operation, cells }
    }

    // How many tape values the cycles so far and some more have.
    fn tape_from(&self, more: usize) -> usize {
        self.cycle
            .saturating_add(more)
            .saturating_mul(self.figures.outputs)
    }
}

// The numbers of a call by chance: right ones, or where the call is spoilt perhaps wrong ones.
#[derive(Drop)]
struct Numbers<'d> {
    dice: &'d mut Dice,
    spoilt: bool,
}

impl Numbers<'_> {
    // Numbers from the same dice, spoilt or not.
    fn spoilt_if(&mut self, spoilt: bool) -> Numbers<'_> {
        Numbers {
            dice: self.dice,
            spoilt,
        }
    }

    // Whether a spoilt number is to be wrong, in so many of a hundred cases.
    fn errs(&mut self, percent: usize) -> bool {
        self.spoilt && self.dice.chance(percent)
    }

    // A number below the limit; a wrong one is the limit or more.
    fn below(&mut self, limit: usize) -> usize {
        if self.errs(60) {
            limit.saturating_add(self.dice.below(3))
        } else {
            self.dice.below(limit)
        }
    }

    // The right length; a wrong one is any that the memory has.
    fn length(&mut self, right: usize, most: usize) -> usize {
        if self.errs(30) {
            self.dice.below(most.saturating_add(1))
        } else {
            right
        }
    }

    // At least the least length where the memory has as much; a wrong one is less.
    fn room(&mut self, least: usize, most: usize) -> usize {
        let length = if self.errs(30) {
            self.dice.below(least)
        } else {
            self.dice.between(least, most)
        };
        length.min(most)
    }
}
