// The values on all wires of a flat board, by a list of the gates whose inputs are known.
use crate::fault::Fault;
use crate::flat::{Flat, Gate};
use crate::values::{Value, value_at};
use std::alloc::Global;

// Stays: lists by the number of a wire or a gate: a gate is counted down once for each of its pins, and a gate of more than three
// pins is never ready.
#[derive(Drop)]
struct Settling<V> {
    values: Vec<V>,
    // For each gate, on how many of its pins the value is not known yet.
    lacking: Vec<usize>,
    ready: Vec<usize>,
}

// The values by wire: each input and each cell's output is what is given, and each gate's output is its function.
pub fn settle<V: Value>(
    heap: Global,
    flat: &Flat,
    inputs: &[V],
    cells: &[V],
) -> Result<Vec<V>, Fault> {
    let mut settling = Settling::start(heap, flat)?;
    for (wire, value) in flat.inputs.iter().zip(inputs.iter()) {
        settling.put(flat, *wire, *value)?;
    }
    for (cell, value) in flat.cells.iter().zip(cells.iter()) {
        settling.put(flat, cell.output, *value)?;
    }
    // Stays: each gate is evaluated once, and where none is ready before the last there is a ring.
    for _ in 0..flat.gates.len() {
        settling.evaluate_one(flat)?;
    }
    let Settling {
        values,
        lacking: _,
        ready: _,
    } = settling;
    Ok(values)
}

impl<V: Value> Settling<V> {
    fn start(heap: Global, flat: &Flat) -> Result<Settling<V>, Fault> {
        let mut lacking = Vec::new(heap);
        let mut ready = Vec::new(heap);
        for (number, gate) in flat.gates.iter().enumerate() {
            lacking.push(gate.pins)?;
            if gate.pins == 0 {
                ready.push(number)?;
            }
        }
        Ok(Settling {
            values: vec![in heap; V::of_bit(false); flat.readers.len()]?,
            lacking,
            ready,
        })
    }

    // A wire's value becomes known.
    fn put(&mut self, flat: &Flat, wire: usize, value: V) -> Result<(), Fault> {
        if let Some(entry) = self.values.get_mut(wire) {
            *entry = value;
        }
        let Some(readers) = flat.readers.get(wire) else {
            return Ok(());
        };
        for reader in readers.iter() {
            self.tell(*reader)?;
        }
        Ok(())
    }

    // One more pin of a gate is known.
    fn tell(&mut self, gate: usize) -> Result<(), Fault> {
        let Some(lacking) = self.lacking.get_mut(gate) else {
            return Ok(());
        };
        *lacking = lacking.saturating_sub(1);
        if *lacking == 0 {
            self.ready.push(gate)?;
        }
        Ok(())
    }

    // Evaluates one of the gates whose inputs are known.
    fn evaluate_one(&mut self, flat: &Flat) -> Result<(), Fault> {
        let Some(number) = self.ready.pop() else {
            return Err(Fault::Ring);
        };
        let Some(gate) = flat.gates.get(number) else {
            return Err(Fault::Ring);
        };
        let a = self.operand(gate, 0);
        let b = self.operand(gate, 1);
        let c = self.operand(gate, 2);
        self.put(flat, gate.output, V::gate(gate.function, a, b, c))
    }

    fn operand(&self, gate: &Gate, pin: usize) -> V {
        match gate.wires.get(pin) {
            Some(wire) if pin < gate.pins => value_at(self.values.as_slice(), *wire),
            _ => V::of_bit(false),
        }
    }
}
