// One board on one kind: the same calls on the library, on the flat board, and on the flat board on bits that the values
// handed in admit in a situation.
use crate::choice::Standing;
use crate::kinds::{ColdStart, Kind};
use crate::library::{Lengths, LibraryRun, any_values, first};
use crate::report::{Difference, Tally};
use crate::view::{Expected, View};
use board::{Board, Figures};
use board_maker::dice::Dice;
use flat_evaluator::calls::{Answer, Call, Operation, Outcome, Room};
use flat_evaluator::fault::Fault;
use flat_evaluator::flat::Flat;
use flat_evaluator::flat_run::{FlatRun, LEVEL_RECORDS, WORKING_VALUES};
use run::{CallRefusal, Run, power};
use std::alloc::{AllocError, Global};

const CALLS: usize = 60;

// A board as the library has it, and flat, with so many right steps to make first, of which only the answers are compared.
#[derive(Clone, Copy)]
pub struct Task<'b, 'f, 'l> {
    pub heap: Global,
    pub number: usize,
    pub board: &'b Board<'f>,
    pub flat: &'l Flat,
    pub figures: Figures,
    pub steps: usize,
}

impl Task<'_, '_, '_> {
    pub fn compare<K: Kind>(&self, dice: &mut Dice, tally: &mut Tally) -> Result<(), Fault> {
        tally.begin(self.number);
        let mut cells = any_values::<K>(self.heap, dice, self.figures.cells)?;
        let Ok(run) = power(self.board, cells.as_mut_slice()) else {
            tally.differ(Difference::Answer);
            return Ok(());
        };
        Session::<K>::new(self, run, dice, tally)?.compare_all()
    }

    // More of each sort than the board needs, and a tape for some of the cycles.
    fn any_lengths(&self, dice: &mut Dice) -> Lengths {
        let outputs = self.figures.outputs;
        let cycles = self.steps.saturating_add(dice.below(CALLS + 1));
        let rest = dice.below(outputs.saturating_add(1));
        Lengths {
            cells: self.figures.cells.saturating_add(3),
            room: Room {
                inputs: self.figures.inputs.saturating_add(2),
                tape: cycles.saturating_mul(outputs).saturating_add(rest),
                values: WORKING_VALUES + 6,
                levels: LEVEL_RECORDS + 2,
            },
        }
    }
}

// The library's run and the two flat runs, on memory of the lengths that `most` says.
#[derive(Drop)]
struct Session<'b, 'f, 's, K: Kind> {
    task: &'s Task<'b, 'f, 's>,
    dice: &'s mut Dice,
    tally: &'s mut Tally,
    most: Lengths,
    view: View,
    library: LibraryRun<'b, 'f, K>,
    wanted: FlatRun<K::Own>,
    bits: FlatRun<bool>,
}

impl<'b, 'f, 's, K: Kind> Session<'b, 'f, 's, K> {
    fn new(
        task: &'s Task<'b, 'f, 's>,
        run: Run<'b, 'f>,
        dice: &'s mut Dice,
        tally: &'s mut Tally,
    ) -> Result<Session<'b, 'f, 's, K>, Fault> {
        let heap = task.heap;
        let most = task.any_lengths(dice);
        let view = View::any(dice);
        let library = LibraryRun::new(heap, task.board, run, dice, &most)?;
        Ok(Session {
            task,
            dice,
            tally,
            most,
            view,
            wanted: FlatRun {
                cells: own_values(heap, library.cells.as_slice())?,
                tape: own_values(heap, library.tape.as_slice())?,
                cycle: 0,
            },
            bits: FlatRun {
                cells: vec![in heap; false; most.cells]?,
                tape: vec![in heap; false; most.room.tape]?,
                cycle: 0,
            },
            library,
        })
    }

    // A right start, the right steps of the task, and then calls of all sorts.
    fn compare_all(&mut self) -> Result<(), Fault> {
        let start = self.standing().right_start();
        self.compare(&start)?;
        let step = self.standing().right_step();
        for _ in 0..self.task.steps {
            let _ = self.call(&step)?;
        }
        for _ in 0..CALLS {
            let call = self.standing().any_call(self.dice);
            self.compare(&call)?;
        }
        Ok(())
    }

    fn standing(&self) -> Standing {
        Standing {
            figures: self.task.figures,
            most: self.most,
            cycle: self.wanted.cycle,
            colds: !self.view.settled && K::Start::blank().is_some(),
        }
    }

    // The values that a call is handed: a step's inputs, the value to set, or the cells of a cold start.
    fn handed(&mut self, call: &Call) -> Result<Vec<K>, AllocError> {
        let heap = self.task.heap;
        match call.operation {
            Operation::Step(room) => self.view.any_values(heap, self.dice, room.inputs),
            Operation::Set { .. } => self.view.any_values(heap, self.dice, 1),
            Operation::Cold => {
                let blank = K::Start::blank().unwrap_or(K::low());
                Ok(vec![in heap; blank; call.cells]?)
            }
            _ => Ok(Vec::new(heap)),
        }
    }

    // The call on all three, with what they come to compared, and what it is to come to.
    fn call(&mut self, call: &Call) -> Result<Outcome<K::Own>, Fault> {
        let heap = self.task.heap;
        let flat = self.task.flat;
        let handed = self.handed(call)?;
        let own = own_values(heap, handed.as_slice())?;
        let bits = self.view.any_bits(heap, self.dice, own.as_slice())?;
        let found = self.library.call(call, handed.as_slice());
        let wanted = self.wanted.call(heap, flat, call, own.as_slice())?;
        let on_bits = self.bits.call(heap, flat, call, bits.as_slice())?;
        self.tally.count(&call.operation, &wanted);
        self.compare_outcomes(&found, &wanted, &on_bits)?;
        Ok(wanted)
    }

    fn compare_outcomes(
        &mut self,
        found: &Result<Answer<K>, CallRefusal>,
        wanted: &Outcome<K::Own>,
        bits: &Outcome<bool>,
    ) -> Result<(), AllocError> {
        let agree = match (found, wanted, bits) {
            (Ok(Answer::Value(value)), Ok(Answer::Value(own)), Ok(Answer::Value(bit))) => {
                return self.compare_value(*value, *own, *bit);
            }
            (Ok(Answer::Counted(a)), Ok(Answer::Counted(b)), Ok(Answer::Counted(c))) => {
                a == b && a == c
            }
            (Ok(Answer::Done), Ok(Answer::Done), Ok(Answer::Done)) => true,
            (Err(a), Err(b), Err(c)) => a.number() == *b as u8 && b == c,
            _ => false,
        };
        if !agree {
            self.tally.differ(Difference::Answer);
        }
        Ok(())
    }

    fn compare_value(&mut self, value: K, wanted: K::Own, bit: bool) -> Result<(), AllocError> {
        let heap = self.task.heap;
        let found = vec![in heap; value; 1]?;
        let wanted = vec![in heap; wanted; 1]?;
        let expected = Expected {
            values: wanted.as_slice(),
            bits: &[bit],
        };
        self.tally.compare(&self.view, found.as_slice(), &expected, Difference::Answer);
        Ok(())
    }

    // The call on all three, with all memory compared after it.
    fn compare(&mut self, call: &Call) -> Result<(), Fault> {
        let heap = self.task.heap;
        let values = own_values(heap, self.library.values.as_slice())?;
        let levels = Vec::from_slice(heap, self.library.levels.as_slice())?;
        let refused = self.call(call)?.is_err();
        self.compare_memory();
        if refused {
            let expected = Expected {
                values: values.as_slice(),
                bits: &[],
            };
            let found = self.library.values.as_slice();
            self.tally
                .compare(&self.view, found, &expected, Difference::Scratch);
            if self.library.levels != levels {
                self.tally.differ(Difference::Scratch);
            }
        }
        Ok(())
    }

    // The cells and the tape; those of the board and of the cycles so far admit the bits of the flat run.
    fn compare_memory(&mut self) {
        let expected = Expected {
            values: self.wanted.cells.as_slice(),
            bits: first(self.bits.cells.as_slice(), self.task.figures.cells),
        };
        let cells = self.library.cells.as_slice();
        self.tally
            .compare(&self.view, cells, &expected, Difference::Cells);
        let filled = self.wanted.cycle.saturating_mul(self.task.figures.outputs);
        let expected = Expected {
            values: self.wanted.tape.as_slice(),
            bits: first(self.bits.tape.as_slice(), filled),
        };
        let tape = self.library.tape.as_slice();
        self.tally
            .compare(&self.view, tape, &expected, Difference::Tape);
    }
}

fn own_values<K: Kind>(heap: Global, values: &[K]) -> Result<Vec<K::Own>, AllocError> {
    values.iter().map(|value| value.own()).collect(heap)
}
