// A run of a flat board, with refusals of its own.
use crate::calls::{Answer, Call, Operation, Outcome, Refusal, Room};
use crate::fault::Fault;
use crate::flat::Flat;
use crate::settle::settle;
use crate::values::{Value, value_at};
use std::alloc::Global;

const MOST_CYCLES: usize = 65_535;

// As many working values and level records as a step has to be handed.
// Stays: the library has the same two; the flat evaluator shares no code with it.
pub const WORKING_VALUES: usize = 1024;

pub const LEVEL_RECORDS: usize = 8;

// The cells and the tape are what the caller's memory is to hold, also behind the board's cells and the cycles so far.
#[derive(Drop)]
pub struct FlatRun<V> {
    pub cells: Vec<V>,
    pub tape: Vec<V>,
    pub cycle: usize,
}

impl<V: Value> FlatRun<V> {
    // A cold start is handed the values of its cells, a step its inputs, and a set its value.
    // Stays: a run is its cells, tape and cycle, which its caller makes; heap and board are the caller's, as in the library's calls.
    pub fn call(
        &mut self,
        heap: Global,
        flat: &Flat,
        call: &Call,
        handed: &[V],
    ) -> Result<Outcome<V>, Fault> {
        if let Err(refusal) = self.accept(flat, call) {
            return Ok(Err(refusal));
        }
        Ok(Ok(self.answer(heap, flat, call, handed)?))
    }

    // What a call answers that is not refused.
    fn answer(
        &mut self,
        heap: Global,
        flat: &Flat,
        call: &Call,
        handed: &[V],
    ) -> Result<Answer<V>, Fault> {
        match call.operation {
            Operation::Power => {
                self.lower_cells(call.cells);
                self.cycle = 0;
            }
            Operation::Cold => {
                self.put_cells(handed);
                self.cycle = 0;
            }
            Operation::Step(_) => return self.step(heap, flat, handed),
            Operation::Set { cell } => self.put_cell(cell, handed),
            Operation::Clear => self.lower_cells(call.cells),
            Operation::Read { cell } => return Ok(Answer::Value(value_at(
                self.cells.as_slice(),
                cell,
            ))),
            Operation::Look { cycle, output, .. } => {
                let place = flat.tape_len(cycle).saturating_add(output);
                return Ok(Answer::Value(value_at(self.tape.as_slice(), place)));
            }
        }
        Ok(Answer::Done)
    }

    fn accept(&self, flat: &Flat, call: &Call) -> Result<(), Refusal> {
        accept_numbers(flat, &call.operation)?;
        require(call.cells == flat.cells.len(), Refusal::Fit)?;
        match &call.operation {
            Operation::Step(room) => self.accept_step(flat, room),
            Operation::Look { cycle, tape, .. } => {
                require(*tape >= flat.tape_len(self.cycle), Refusal::Fit)?;
                require(*cycle < self.cycle, Refusal::Unseen)
            }
            _ => Ok(()),
        }
    }

    // A step with the right numbers of inputs and cells.
    fn accept_step(&self, flat: &Flat, room: &Room) -> Result<(), Refusal> {
        let filled = flat.tape_len(self.cycle.saturating_add(1));
        require(room.values >= WORKING_VALUES, Refusal::Fit)?;
        require(room.levels >= LEVEL_RECORDS, Refusal::Fit)?;
        require(filled <= room.tape, Refusal::Tape)?;
        require(self.cycle < MOST_CYCLES, Refusal::Tape)
    }

    fn step(&mut self, heap: Global, flat: &Flat, inputs: &[V]) -> Result<Answer<V>, Fault> {
        let wires = settle(heap, flat, inputs, self.cells.as_slice())?;
        let first = flat.tape_len(self.cycle);
        if let Some(free) = self.tape.as_mut_slice().get_mut(first..) {
            for (value, wire) in free.iter_mut().zip(flat.outputs.iter()) {
                put(value, wires.get(*wire));
            }
        }
        for (value, cell) in self.cells.iter_mut().zip(flat.cells.iter()) {
            put(value, wires.get(cell.input));
        }
        self.cycle = self.cycle.saturating_add(1);
        Ok(Answer::Counted(flat.count()))
    }

    fn put_cell(&mut self, cell: usize, handed: &[V]) {
        if let (Some(old), Some(new)) = (self.cells.get_mut(cell), handed.first()) {
            *old = *new;
        }
    }

    fn put_cells(&mut self, handed: &[V]) {
        for (old, new) in self.cells.iter_mut().zip(handed.iter()) {
            *old = *new;
        }
    }

    fn lower_cells(&mut self, count: usize) {
        for cell in self.cells.iter_mut().take(count) {
            *cell = V::of_bit(false);
        }
    }
}

// The numbers of inputs, cells and outputs that a call says.
fn accept_numbers(flat: &Flat, operation: &Operation) -> Result<(), Refusal> {
    match operation {
        Operation::Step(room) => require(room.inputs == flat.inputs.len(), Refusal::Count),
        Operation::Set { cell } | Operation::Read { cell } => {
            require(*cell < flat.cells.len(), Refusal::Index)
        }
        Operation::Look { output, .. } => require(*output < flat.outputs.len(), Refusal::Index),
        _ => Ok(()),
    }
}

fn require(holds: bool, refusal: Refusal) -> Result<(), Refusal> {
    if holds { Ok(()) } else { Err(refusal) }
}

// A wire that the board has not leaves the value as it is.
fn put<V: Value>(value: &mut V, wire: Option<&V>) {
    if let Some(new) = wire {
        *value = *new;
    }
}
