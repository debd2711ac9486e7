// One step of a run.
ghost use Rattle.std.specs.Prelude.{◌≡◌, ◌-◌, ◌≤◌, true, ◌++◌, length, take, drop};
ghost use Rattle.flat.specs.Passes.{step_of};
ghost use Rattle.walk.specs.Steps.{design_in, fits_board};
ghost use Rattle.run.specs.Calls.{StepContract, board_under, memory, run_top};

use crate::{CallRefusal, Run};
use board::Board;
use signal::Signal;
use walk::{LEVEL_RECORDS, Level, WORKING_VALUES, walk};

impl Run<'_, '_> {
    // Puts the outputs on the tape at cycle × O, replaces the cells, and answers how many gates were evaluated.
    // Stays: a public signature, as those of the other calls: the memory is the caller's, who lends each call what it needs.
    pub fn step<K: Signal>(
        &mut self,
        inputs: &[K],
        cells: &mut [K],
        tape: &mut [K],
        work: &mut [K],
        levels: &mut [Level],
    ) -> Result<u32, CallRefusal>
        ensures board { board_under self.new ≡ board_under self.old }
        ensures step { StepContract K.Signal.kind (run_top self.old) inputs.now (memory self.old cells.old tape.old work.old levels.old) (memory self.new cells.new tape.new work.new levels.new) result }
    {
        let figures = self.board.figures();
        if inputs.len() != figures.inputs {
            return Err(CallRefusal::Count);
        }
        if cells.len() != figures.cells
            || work.len() < WORKING_VALUES
            || levels.len() < LEVEL_RECORDS
        {
            return Err(CallRefusal::Fit);
        }
        let at = self.written();
        let end = at + figures.outputs;
        if end > tape.len() || self.cycle == u16::MAX {
            return Err(CallRefusal::Tape);
        }
        let outputs = &mut tape[at..end];
        let count = walk(self.board, inputs, cells, outputs, work, levels).unwrap();
        self.cycle += 1;
        Ok(count)
    }
}
