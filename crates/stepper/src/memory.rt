// What a run is lent: its inputs, and room for what it gives.
use crate::fault::Fault;
use crate::sample::Sample;
use crate::stream::Stream;
use board::Figures;
use run::{LEVEL_RECORDS, Level, Run, WORKING_VALUES};
use std::alloc::{AllocError, Global};

#[derive(Drop)]
pub struct Memory<K> {
    // How many inputs a step has.
    width: usize,
    inputs: Vec<K>,
    pub cells: Vec<K>,
    pub tape: Vec<K>,
    pub counts: Vec<u32>,
    work: Vec<K>,
    levels: Vec<Level>,
}

fn draw<K: Sample>(heap: Global, stream: &mut Stream, count: usize) -> Result<Vec<K>, AllocError> {
    stream.take(count).map(|word| K::drawn(word)).collect(heap)
}

impl<K: Sample> Memory<K> {
    // For so many steps, on the inputs that come next in the stream.
    pub fn lend(
        heap: Global,
        top: Figures,
        stream: &mut Stream,
        steps: usize,
    ) -> anyhow::Result<Memory<K>> {
        let values = steps.checked_mul(top.inputs).ok_or(Fault::TooLong)?;
        let room = steps.checked_mul(top.outputs).ok_or(Fault::TooLong)?;
        Ok(Memory {
            width: top.inputs,
            inputs: draw::<K>(heap, stream, values)?,
            cells: vec![in heap; K::low(); top.cells]?,
            tape: vec![in heap; K::low(); room]?,
            counts: vec![in heap; 0; steps]?,
            work: vec![in heap; K::low(); WORKING_VALUES]?,
            levels: vec![in heap; Level::new(); LEVEL_RECORDS]?,
        })
    }

    // As many steps as there are counts, each on the next inputs.
    pub fn step_all(&mut self, run: &mut Run<'_, '_>) -> Result<(), Fault> {
        // Stays: a board may have no inputs, and no slice has chunks of no values.
        let mut left = self.inputs.as_slice();
        for count in self.counts.iter_mut() {
            let (given, later) = left.split_at_checked(self.width).ok_or(Fault::TooLong)?;
            left = later;
            *count = run.step(
                given,
                self.cells.as_mut_slice(),
                self.tape.as_mut_slice(),
                self.work.as_mut_slice(),
                self.levels.as_mut_slice(),
            )?;
        }
        Ok(())
    }
}
