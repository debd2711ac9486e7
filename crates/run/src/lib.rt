// Runs of a board on any signal kind, and the calls on them. The caller lends the memory: cells, tape, working values and
// level records.
#![tactic(auto)]

ghost use Rattle.std.specs.Prelude.{◌≡◌};
ghost use Rattle.board.specs.Sizes.{FiguresOf};
ghost use Rattle.run.specs.Calls.{board_under};
ghost use Rattle.run.specs.Examples.{WorkedExamples};
ghost use Rattle.run.specs.AllExamples.{AllExamples};

mod calls;
mod refusal;
mod start;
mod step;
mod tape;

use board::{Board, Figures};
pub use refusal::CallRefusal;
pub use start::{cold, power};
pub use walk::{LEVEL_RECORDS, Level, WORKING_VALUES};

// A run: its board, and how many steps it has made. It exists only by a call that starts one.
#[derive(Drop)]
pub struct Run<'b, 'f> {
    board: &'b Board<'f>,
    cycle: u16,
}

impl Run<'_, '_> {
    // How many steps the run has made.
    pub fn cycle(&self) -> u16
        ensures { result ≡ self.now.cycle }
    {
        self.cycle
    }

    // The figures of the run's board.
    pub fn figures(&self) -> Figures
        ensures { FiguresOf (board_under self.now).judged.file.now result }
    {
        self.board.figures()
    }
}

// The worked examples: verdicts on files, runs, refused calls and values of the kinds, all from the definitions.
pub fn examples_stand()
    ensures worked { WorkedExamples }
    ensures all { AllExamples }
{}
