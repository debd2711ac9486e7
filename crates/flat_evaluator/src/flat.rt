// A flat board: gates and cells on wires.
use crate::fault::Fault;
use crate::function::Function;
use std::alloc::Global;

// Stays: the wires beside their count: a gate can be copied, and a list of wires on the heap cannot.
#[derive(Clone, Copy)]
pub struct Gate {
    pub function: Function,
    pub pins: usize,
    pub wires: [usize; 3],
    pub output: usize,
    // How many modules below the top, on the way to it, hold cells.
    pub holders: usize,
}

#[derive(Clone, Copy)]
pub struct Cell {
    pub input: usize,
    pub output: usize,
}

#[derive(Drop)]
pub struct Flat {
    pub inputs: Vec<usize>,
    pub outputs: Vec<usize>,
    pub gates: Vec<Gate>,
    // In the order of the state lists.
    pub cells: Vec<Cell>,
    // For each wire the gates that read it, once for each pin.
    // Stays: a wire and a gate have no names but their numbers, which are the places of the two lists.
    pub readers: Vec<Vec<usize>>,
    pub places: usize,
    pub depth: usize,
}

impl Flat {
    // Each gate once, and once more for every cell-holding module below the top on the way to it.
    pub fn count(&self) -> usize {
        self.gates.iter().fold(0, |count: usize, gate| {
            count.saturating_add(gate.holders).saturating_add(1)
        })
    }

    // How many tape values so many cycles have.
    pub(crate) fn tape_len(&self, cycles: usize) -> usize {
        cycles.saturating_mul(self.outputs.len())
    }

    // For each of so many wires, how many inputs, gates and cells drive it.
    pub fn drivers(&self, heap: Global, wires: usize) -> Result<Vec<usize>, Fault> {
        let mut drivers = vec![in heap; 0usize; wires]?;
        let inputs = self.inputs.iter().copied();
        let gates = self.gates.iter().map(|gate| gate.output);
        let cells = self.cells.iter().map(|cell| cell.output);
        for wire in inputs.chain(gates).chain(cells) {
            if let Some(count) = drivers.get_mut(wire) {
                *count = count.saturating_add(1);
            }
        }
        Ok(drivers)
    }
}

pub fn readers_of(heap: Global, gates: &[Gate], wires: usize) -> Result<Vec<Vec<usize>>, Fault> {
    let mut readers: Vec<Vec<usize>> = (0..wires).map(|_| Vec::new(heap)).collect(heap)?;
    for (number, gate) in gates.iter().enumerate() {
        add_reader(readers.as_mut_slice(), gate, number)?;
    }
    Ok(readers)
}

fn add_reader(readers: &mut [Vec<usize>], gate: &Gate, number: usize) -> Result<(), Fault> {
    for wire in gate.wires.iter().take(gate.pins) {
        if let Some(list) = readers.get_mut(*wire) {
            list.push(number)?;
        }
    }
    Ok(())
}
