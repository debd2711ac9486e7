// Runs of a board, each from low cells.
use crate::fault::Fault;
use crate::memory::Memory;
use crate::sample::Sample;
use crate::stream::Stream;
use crate::totals::Totals;
use board::Board;
use run::power;
use std::time::Instant;

// After so many steps a new run begins.
const RUN: usize = 4096;

// One stream of inputs for all runs, and what they gave.
#[derive(Drop)]
struct Runs<'b, 'f> {
    board: &'b Board<'f>,
    stream: Stream,
    totals: Totals,
}

impl Runs<'_, '_> {
    fn run_once<K: Sample>(&mut self, rt: &HostRuntime, steps: usize) -> anyhow::Result<()> {
        let top = self.board.figures();
        let mut memory = Memory::<K>::lend(rt.alloc(), top, &mut self.stream, steps)?;
        let mut run = power(self.board, memory.cells.as_mut_slice()).map_err(Fault::from)?;
        let start = Instant::now(rt)?;
        memory.step_all(&mut run)?;
        let time = start.elapsed(rt)?;
        self.totals.take_run(&memory, time.as_nanos());
        Ok(())
    }
}

pub fn run_all<K: Sample>(
    rt: &HostRuntime,
    board: &Board<'_>,
    steps: usize,
) -> anyhow::Result<Totals> {
    let mut runs = Runs {
        board,
        stream: Stream::new(),
        totals: Totals::default(),
    };
    for done in (0..steps).step_by(RUN) {
        let now = steps.saturating_sub(done).min(RUN);
        runs.run_once::<K>(rt, now)?;
    }
    Ok(runs.totals)
}
