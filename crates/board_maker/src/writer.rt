// The records of a board file.
use std::alloc::AllocError;

#[derive(Clone, Copy)]
enum RecordKind {
    Board = 1,
    Module = 2,
    Occurrence = 3,
}

pub fn push_board(bytes: &mut Vec<u8>, modules: usize) -> Result<(), AllocError> {
    push_record(bytes, RecordKind::Board, &[&two_bytes(modules)])
}

// A module's own record.
#[derive(Drop)]
pub struct ModuleRecord {
    pub inputs: usize,
    pub outputs: Vec<u8>,
    pub wires: usize,
    pub occurrences: usize,
    pub states: Vec<u8>,
}

impl ModuleRecord {
    pub fn push_to(&self, bytes: &mut Vec<u8>) -> Result<(), AllocError> {
        let counts = [
            byte(self.inputs),
            byte(self.outputs.len()),
            byte(self.wires),
            byte(self.occurrences),
            byte(self.states.len()),
        ];
        push_record(
            bytes,
            RecordKind::Module,
            &[&counts, self.outputs.as_slice(), self.states.as_slice()],
        )
    }
}

#[derive(Drop)]
pub struct OccurrenceRecord {
    pub reference: usize,
    pub inputs: Vec<u8>,
    pub outputs: Vec<u8>,
}

impl OccurrenceRecord {
    pub fn push_to(&self, bytes: &mut Vec<u8>) -> Result<(), AllocError> {
        let counts = [byte(self.inputs.len()), byte(self.outputs.len())];
        push_record(
            bytes,
            RecordKind::Occurrence,
            &[
                &two_bytes(self.reference),
                &counts,
                self.inputs.as_slice(),
                self.outputs.as_slice(),
            ],
        )
    }
}

// A length, a kind, and a body of so many bytes.
fn push_record(bytes: &mut Vec<u8>, kind: RecordKind, parts: &[&[u8]]) -> Result<(), AllocError> {
    let body = parts.concat(*bytes.allocator())?;
    bytes.extend_from_slice(&two_bytes(body.len()))?;
    bytes.extend_from_slice(&two_bytes(kind as usize))?;
    bytes.extend_from_slice(body.as_slice())
}

// The lowest byte; the numbers of a board within its limits fit.
fn byte(number: usize) -> u8 {
    (number & 0xff) as u8
}

// The two lowest bytes, the low one first.
fn two_bytes(number: usize) -> [u8; 2] {
    ((number & 0xffff) as u16).to_le_bytes()
}
