// Board files, decoded without the library.
use crate::fault::Fault;
use crate::function::Function;
use std::alloc::Global;

// Its pins are wires of its own.
#[derive(Drop)]
pub struct Module {
    pub pins: Pins,
    pub wires: usize,
    pub states: Vec<usize>,
    pub uses: Vec<Use>,
}

// An occurrence, with wires of the module that it is in.
#[derive(Drop)]
pub struct Use {
    pub part: Part,
    pub pins: Pins,
}

// The wires on the inputs and on the outputs.
#[derive(Drop)]
pub struct Pins {
    pub inputs: Vec<usize>,
    pub outputs: Vec<usize>,
}

// Stays: the library has such a type; the flat evaluator shares no code with it.
#[derive(Clone, Copy)]
pub enum Part {
    Gate(Function),
    Cell,
    Module(usize),
}

impl From<u16> for Part {
    fn from(reference: u16) -> Part {
        match reference {
            11 => Part::Cell,
            256.. => Part::Module(usize::from(reference - 256)),
            _ => Part::Gate(Function::from(usize::from(reference))),
        }
    }
}

#[derive(Clone, Copy)]
enum Record {
    Board = 1,
    Module = 2,
    Use = 3,
}

// What is left of a file.
#[derive(Drop)]
struct Reader<'a> {
    heap: Global,
    rest: &'a [u8],
}

pub fn decode(heap: Global, file: &[u8]) -> Result<Vec<Module>, Fault> {
    let mut reader = Reader { heap, rest: file };
    reader.head(Record::Board)?;
    let count = reader.pair()?;
    (0..count).map(|_| reader.module()).try_collect(heap)
}

impl<'a> Reader<'a> {
    fn bytes<const N: usize>(&mut self) -> Result<[u8; N], Fault> {
        let (bytes, rest) = self.rest.split_first_chunk::<N>().ok_or(Fault::File)?;
        self.rest = rest;
        Ok(*bytes)
    }

    fn pair(&mut self) -> Result<u16, Fault> {
        Ok(u16::from_le_bytes(self.bytes()?))
    }

    // The length and the kind before a record's body, of which the kind says enough.
    fn head(&mut self, record: Record) -> Result<(), Fault> {
        let _length = self.pair()?;
        if self.pair()? == record as u16 {
            Ok(())
        } else {
            Err(Fault::File)
        }
    }

    fn list(&mut self, count: u8) -> Result<Vec<usize>, Fault> {
        let (list, rest) = self
            .rest
            .split_at_checked(usize::from(count))
            .ok_or(Fault::File)?;
        self.rest = rest;
        Ok(
            list.iter()
                .map(|number| usize::from(*number))
                .collect(self.heap)?,
        )
    }

    fn module(&mut self) -> Result<Module, Fault> {
        self.head(Record::Module)?;
        let [inputs, outputs, wires, uses, states] = self.bytes::<5>()?;
        Ok(Module {
            pins: Pins {
                inputs: (0..usize::from(inputs)).collect(self.heap)?,
                outputs: self.list(outputs)?,
            },
            wires: usize::from(wires),
            states: self.list(states)?,
            uses: self.uses(uses)?,
        })
    }

    fn uses(&mut self, count: u8) -> Result<Vec<Use>, Fault> {
        let heap = self.heap;
        (0..count).map(|_| self.occurrence()).try_collect(heap)
    }

    fn occurrence(&mut self) -> Result<Use, Fault> {
        self.head(Record::Use)?;
        let part = Part::from(self.pair()?);
        let [inputs, outputs] = self.bytes::<2>()?;
        Ok(Use {
            part,
            pins: Pins {
                inputs: self.list(inputs)?,
                outputs: self.list(outputs)?,
            },
        })
    }
}
