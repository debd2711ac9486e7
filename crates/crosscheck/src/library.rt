// The library's calls, on memory that is lent to them. This is the only place that makes them.
use crate::kinds::{ColdStart, Kind};
use board::Board;
use board_maker::dice::Dice;
use flat_evaluator::calls::{Answer, Call, Operation, Room};
use run::{CallRefusal, Level, Run, power};
use std::alloc::{AllocError, Global};

// The lengths of the memory that calls are lent, and the most inputs of a step.
#[derive(Clone, Copy)]
pub struct Lengths {
    pub cells: usize,
    pub room: Room,
}

// A run by the library, and the memory that is lent to its calls.
#[derive(Drop)]
pub struct LibraryRun<'b, 'f, K> {
    board: &'b Board<'f>,
    run: Run<'b, 'f>,
    pub cells: Vec<K>,
    pub tape: Vec<K>,
    pub values: Vec<K>,
    pub levels: Vec<Level>,
}

impl<'b, 'f, K: Kind> LibraryRun<'b, 'f, K> {
    // As much memory as a call may be handed, with any contents.
    pub fn new(
        heap: Global,
        board: &'b Board<'f>,
        run: Run<'b, 'f>,
        dice: &mut Dice,
        most: &Lengths,
    ) -> Result<LibraryRun<'b, 'f, K>, AllocError> {
        Ok(LibraryRun {
            board,
            run,
            cells: any_values(heap, dice, most.cells)?,
            tape: any_values(heap, dice, most.room.tape)?,
            values: any_values(heap, dice, most.room.values)?,
            levels: vec![in heap; Level::new(); most.room.levels]?,
        })
    }

    // Makes the call on the first values of the memory, as many as it says; a start that is not refused replaces the run.
    pub fn call(&mut self, call: &Call, handed: &[K]) -> Result<Answer<K>, CallRefusal> {
        let cells = first_mut(self.cells.as_mut_slice(), call.cells);
        match call.operation {
            Operation::Power => {
                self.run = power(self.board, cells)?;
                Ok(Answer::Done)
            }
            Operation::Cold => {
                self.run = K::Start::start(self.board, cells)?;
                Ok(Answer::Done)
            }
            Operation::Step(room) => {
                let count = self.run.step(
                    handed,
                    cells,
                    first_mut(self.tape.as_mut_slice(), room.tape),
                    first_mut(self.values.as_mut_slice(), room.values),
                    first_mut(self.levels.as_mut_slice(), room.levels),
                )?;
                Ok(Answer::Counted(count as usize))
            }
            Operation::Set { cell } => {
                let value = handed.first().copied().unwrap_or(K::low());
                self.run.set(cell, value, cells).map(|()| Answer::Done)
            }
            Operation::Clear => self.run.clear(cells).map(|()| Answer::Done),
            Operation::Read { cell } => self.run.read(cell, cells).map(Answer::Value),
            Operation::Look {
                cycle,
                output,
                tape,
            } => {
                let past = first(self.tape.as_slice(), tape);
                self.run.look(output, cycle, cells, past).map(Answer::Value)
            }
        }
    }
}

pub fn any_values<K: Kind>(
    heap: Global,
    dice: &mut Dice,
    count: usize,
) -> Result<Vec<K>, AllocError> {
    (0..count).map(|_| K::any(dice)).collect(heap)
}

// The first values, so many, or all where there are fewer.
pub fn first<T>(values: &[T], count: usize) -> &[T] {
    values.get(..count).unwrap_or(values)
}

fn first_mut<T>(values: &mut [T], count: usize) -> &mut [T] {
    let end = count.min(values.len());
    &mut values[..end]
}
