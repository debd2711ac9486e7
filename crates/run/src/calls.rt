// The other calls.
ghost use Rattle.std.specs.Prelude.{◌≡◌};
ghost use Rattle.run.specs.Calls.{ClearContract, LookContract, ReadContract, SetContract, cell_refusal, run_top};
ghost use Rattle.run.specs.Refusals.{refused_by};

use crate::{CallRefusal, Run};
use signal::Signal;

impl Run<'_, '_> {
    // Whether the board has a cell of that number, and so many cells.
    fn cell_there(&self, cell: usize, cells: usize) -> Result<(), CallRefusal>
        ensures { refused_by result ≡ cell_refusal (run_top self.now) cell cells }
    {
        let count = self.board.figures().cells;
        if cell >= count {
            return Err(CallRefusal::Index);
        }
        if cells != count {
            return Err(CallRefusal::Fit);
        }
        Ok(())
    }

    // Writes one cell.
    pub fn set<K: Signal>(
        &mut self,
        cell: usize,
        value: K,
        cells: &mut [K],
    ) -> Result<(), CallRefusal>
        ensures run { self.new ≡ self.old }
        ensures set { SetContract (run_top self.old) self.old.cycle cell value cells.old cells.new result }
    {
        self.cell_there(cell, cells.len())?;
        cells[cell] = value;
        Ok(())
    }

    // Makes all cells low.
    pub fn clear<K: Signal>(&mut self, cells: &mut [K]) -> Result<(), CallRefusal>
        ensures run { self.new ≡ self.old }
        ensures clear { ClearContract K.Signal.kind (run_top self.old) self.old.cycle cells.old cells.new result }
    {
        if cells.len() != self.board.figures().cells {
            return Err(CallRefusal::Fit);
        }
        let low = K::low();
        cells.fill_with(|| low);
        Ok(())
    }

    pub fn read<K: Signal>(&self, cell: usize, cells: &[K]) -> Result<K, CallRefusal>
        ensures { ReadContract K.Signal.kind (run_top self.now) self.now.cycle cell cells.now result }
    {
        self.cell_there(cell, cells.len())?;
        Ok(cells[cell])
    }

    // An output of an earlier cycle.
    #[tactic(auto, using(crate::proofs::Tapes::seen_place))]
    pub fn look<K: Signal>(
        &self,
        output: usize,
        cycle: usize,
        cells: &[K],
        tape: &[K],
    ) -> Result<K, CallRefusal>
        ensures { LookContract K.Signal.kind (run_top self.now) self.now.cycle cycle output cells.now tape.now result }
    {
        let figures = self.board.figures();
        if output >= figures.outputs {
            return Err(CallRefusal::Index);
        }
        if cells.len() != figures.cells || tape.len() < self.written() {
            return Err(CallRefusal::Fit);
        }
        let past = self.cycle as usize;
        if cycle >= past {
            return Err(CallRefusal::Unseen);
        }
        Ok(tape[cycle * figures.outputs + output])
    }
}
