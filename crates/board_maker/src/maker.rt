// One module by chance, such that the judge accepts it.
use crate::dice::Dice;
use crate::piece::{InputSet, Piece};
use crate::writer::{ModuleRecord, OccurrenceRecord};
use std::alloc::{AllocError, Global};

const MOST_OCCURRENCES: usize = 64;

const MOST_WIRES: usize = 128;

const MOST_CELLS: usize = 4096;

// A module's own record with all outputs and no state list.
const MODULE_BYTES: usize = 25;

// The reference of the first module.
const FIRST_MODULE: usize = 256;

// How many bytes a module's records may have, how many places may lie in it, and how deep it may be.
#[derive(Clone, Copy)]
pub struct Limits {
    pub bytes: usize,
    pub places: usize,
    pub depth: usize,
}

// A finished module: its records, and the piece that it is.
#[derive(Drop)]
pub struct Module {
    pub records: Vec<u8>,
    pub piece: Piece,
}

// A piece with the wires of its inputs, as far as these are through, and of its outputs.
#[derive(Drop)]
struct Occurrence {
    piece: Piece,
    inputs: Vec<Option<usize>>,
    outputs: Vec<usize>,
}

// Wires have numbers in the order in which they are driven.
#[derive(Drop)]
pub struct Maker {
    heap: Global,
    number: usize,
    inputs: usize,
    // For each wire, the set of the inputs that reach it.
    reach: Vec<InputSet>,
    occurrences: Vec<Occurrence>,
    cells: usize,
    places: usize,
    depth: usize,
    // How many bytes its records can have at most.
    bytes: usize,
    limits: Limits,
}

impl Maker {
    pub fn new(
        heap: Global,
        number: usize,
        inputs: usize,
        limits: Limits,
    ) -> Result<Maker, AllocError> {
        let reach = (0..u16::BITS)
            .take(inputs)
            .map(InputSet::only)
            .collect::<Vec<InputSet>>(heap)?;
        Ok(Maker {
            heap,
            number,
            inputs: reach.len(),
            reach,
            occurrences: Vec::new(heap),
            cells: 0,
            places: 0,
            depth: 1,
            bytes: MODULE_BYTES,
            limits,
        })
    }

    fn fits(&self, piece: &Piece) -> bool {
        let wired = !self.reach.is_empty()
            || piece.inputs == 0
            || (piece.outputs > 0 && piece.through == InputSet::NONE);
        wired
            && self.occurrences.len() < MOST_OCCURRENCES
            && self.reach.len().saturating_add(piece.outputs) <= MOST_WIRES
            && piece.depth < self.limits.depth
            && self.cells.saturating_add(piece.cells) <= MOST_CELLS
            && self.places.saturating_add(piece.places) < self.limits.places
            && self.bytes.saturating_add(piece.bytes()) <= self.limits.bytes
    }

    // A driven wire, rather one of the latest.
    fn some_wire(&self, dice: &mut Dice) -> usize {
        let driven = self.reach.len();
        if dice.chance(50) {
            dice.between(driven.saturating_sub(8), driven.saturating_sub(1))
        } else {
            dice.below(driven)
        }
    }

    fn reach_of(&self, wire: usize) -> InputSet {
        self.reach.get(wire).copied().unwrap_or(InputSet::NONE)
    }

    // Adds an occurrence; whether it fitted.
    pub fn add(&mut self, dice: &mut Dice, piece: &Piece) -> Result<bool, AllocError> {
        if !self.fits(piece) {
            return Ok(false);
        }
        let inputs = self.choose_inputs(dice, piece)?;
        let reaching = inputs
            .iter()
            .flatten()
            .fold(InputSet::NONE, |set, wire| set.with(self.reach_of(*wire)));
        let outputs = self.drive(piece.outputs, reaching)?;
        self.occurrences.push(Occurrence {
            piece: *piece,
            inputs,
            outputs,
        })?;
        self.cells = self.cells.saturating_add(piece.cells);
        self.places = self.places.saturating_add(piece.places).saturating_add(1);
        self.depth = self.depth.max(piece.depth.saturating_add(1));
        self.bytes = self.bytes.saturating_add(piece.bytes());
        Ok(true)
    }

    // Adds as many occurrences of a piece as fit, and no more than so many.
    pub fn add_times(
        &mut self,
        dice: &mut Dice,
        piece: &Piece,
        times: usize,
    ) -> Result<(), AllocError> {
        for _ in 0..times {
            self.add(dice, piece)?;
        }
        Ok(())
    }

    // Gives each through input a wire.
    fn choose_inputs(
        &self,
        dice: &mut Dice,
        piece: &Piece,
    ) -> Result<Vec<Option<usize>>, AllocError> {
        (0..u16::BITS)
            .take(piece.inputs)
            .map(|input| piece.through.has(input).then(|| self.some_wire(dice)))
            .collect(self.heap)
    }

    // So many new wires, which the inputs reach.
    fn drive(&mut self, count: usize, reaching: InputSet) -> Result<Vec<usize>, AllocError> {
        let first = self.reach.len();
        self.reach.resize(first.saturating_add(count), reaching)?;
        (first..self.reach.len()).collect(self.heap)
    }

    // The module with so many outputs; one with no wires has none.
    pub fn finish(&self, dice: &mut Dice, outputs: usize) -> Result<Module, AllocError> {
        let numbers = self.wire_numbers(dice)?;
        let wires = self.choose_outputs(dice, outputs)?;
        let states = self.state_list(dice)?;
        let mut records = Vec::new(self.heap);
        let own = ModuleRecord {
            inputs: self.inputs,
            outputs: numbers_of(self.heap, numbers.as_slice(), wires.as_slice())?,
            wires: numbers.len(),
            occurrences: self.occurrences.len(),
            states,
        };
        own.push_to(&mut records)?;
        for occurrence in self.occurrences.iter() {
            let record = occurrence.record(self.heap, dice, numbers.as_slice())?;
            record.push_to(&mut records)?;
        }
        Ok(Module {
            records,
            piece: self.piece(wires.as_slice()),
        })
    }

    // The wires' numbers in the file: the inputs in their order, and then the others in any.
    fn wire_numbers(&self, dice: &mut Dice) -> Result<Vec<u8>, AllocError> {
        let mut numbers = (0..u8::MAX)
            .take(self.reach.len())
            .collect::<Vec<u8>>(self.heap)?;
        if let Some(driven) = numbers.as_mut_slice().get_mut(self.inputs..) {
            dice.shuffle(driven);
        }
        Ok(numbers)
    }

    fn choose_outputs(&self, dice: &mut Dice, count: usize) -> Result<Vec<usize>, AllocError> {
        let count = if self.reach.is_empty() { 0 } else { count };
        (0..count).map(|_| self.some_wire(dice)).collect(self.heap)
    }

    // The occurrences that hold cells, in any order.
    fn state_list(&self, dice: &mut Dice) -> Result<Vec<u8>, AllocError> {
        let mut states = (0..u8::MAX)
            .zip(self.occurrences.iter())
            .filter(|(_, occurrence)| occurrence.piece.cells > 0)
            .map(|(number, _)| number)
            .collect::<Vec<u8>>(self.heap)?;
        dice.shuffle(states.as_mut_slice());
        Ok(states)
    }

    // The module as its users see it.
    fn piece(&self, outputs: &[usize]) -> Piece {
        Piece {
            reference: self.number.saturating_add(FIRST_MODULE),
            inputs: self.inputs,
            outputs: outputs.len(),
            through: outputs
                .iter()
                .fold(InputSet::NONE, |set, wire| set.with(self.reach_of(*wire))),
            cells: self.cells,
            places: self.places,
            depth: self.depth,
        }
    }
}

impl Occurrence {
    // Its record; an input that is not through gets any wire.
    fn record(
        &self,
        heap: Global,
        dice: &mut Dice,
        numbers: &[u8],
    ) -> Result<OccurrenceRecord, AllocError> {
        let inputs = self.inputs.iter().map(|wire| {
            let any = dice.below(numbers.len());
            number_of(numbers, wire.unwrap_or(any))
        });
        Ok(OccurrenceRecord {
            reference: self.piece.reference,
            inputs: inputs.collect(heap)?,
            outputs: numbers_of(heap, numbers, self.outputs.as_slice())?,
        })
    }
}

fn number_of(numbers: &[u8], wire: usize) -> u8 {
    numbers.get(wire).copied().unwrap_or(0)
}

fn numbers_of(heap: Global, numbers: &[u8], wires: &[usize]) -> Result<Vec<u8>, AllocError> {
    wires
        .iter()
        .map(|wire| number_of(numbers, *wire))
        .collect(heap)
}
