// One step of a board on any signal kind, over a stack of levels in memory that the caller lends.
#![tactic(auto)]

ghost use Rattle.std.specs.Prelude.{◌≡◌, length, is_some, MatchOption};
ghost use Rattle.walk.specs.Steps.{design_in, fits_board, Step, Untouched};

mod level;
mod reading;
mod stack;
mod windows;

use board::Board;
pub use level::{Level, Pass};
use reading::Module;
use signal::Signal;
use windows::{deliver, open_top};

// How many working values and level records are enough for any board.
pub const WORKING_VALUES: usize = 1024;

pub const LEVEL_RECORDS: usize = 8;

// Whether so many inputs, cells and outputs are the board's, and so many working values and levels are enough.
// Stays: a public signature, as that of `walk`: each slice is the caller's own.
pub fn fits(
    board: &Board,
    inputs: usize,
    cells: usize,
    outputs: usize,
    values: usize,
    levels: usize,
) -> bool
    ensures { result ≡ fits_board (design_in board.now) inputs cells outputs values levels }
{
    let figures = board.figures();
    inputs == figures.inputs
        && cells == figures.cells
        && outputs == figures.outputs
        && values >= WORKING_VALUES
        && levels >= LEVEL_RECORDS
}

// A step: `outputs` and `cells` become what the two passes say, and the answer is the number of gates evaluated. None, with
// all memory as it was, unless the memory fits the board.
pub fn walk<K: Signal>(
    board: &Board,
    inputs: &[K],
    cells: &mut [K],
    outputs: &mut [K],
    work: &mut [K],
    levels: &mut [Level],
) -> Option<u32>
    ensures fitting { is_some result ≡ fits_board (design_in board.now) (length inputs.now) (length cells.old) (length outputs.old) (length work.old) (length levels.old) }
    ensures stepping { MatchOption result (Untouched cells.old cells.new outputs.old outputs.new work.old work.new levels.old levels.new) (Step K.Signal.kind (design_in board.now) inputs.now cells.old outputs.new cells.new) }
{
    if !fits(
        board,
        inputs.len(),
        cells.len(),
        outputs.len(),
        work.len(),
        levels.len(),
    ) {
        return None;
    }
    let top = Module {
        tables: board.tables(),
        number: 0,
    };
    open_top(work, inputs, top.records().counts.wires as usize);
    levels[0] = Level::new();
    let mut under_way = stack::Walk {
        top,
        cells: &mut *cells,
        work: &mut *work,
        levels: &mut *levels,
        depth: 1,
        count: 0,
    };
    under_way.run();
    let count = under_way.count;
    deliver(work, top.output_wires(), outputs);
    Some(count)
}
