// The calls that start a run.
ghost use Rattle.std.specs.Prelude.{◌≡◌, length, MatchResult};
ghost use Rattle.flat.specs.Runs.{power as powered, start_with};
ghost use Rattle.walk.specs.Steps.{design_in};
ghost use Rattle.run.specs.Calls.{board_under, start_in};
ghost use Rattle.run.specs.Law.{PoweredLaw, WholeLaw};

use crate::{CallRefusal, Run};
use board::Board;
use signal::{Signal, WithUnknown};

// Starts a run whose cells all have the value.
#[tactic(auto, using(walk::proofs::Fills::all_filled))]
fn start<'b, 'f, K: Signal>(
    board: &'b Board<'f>,
    cells: &mut [K],
    value: K,
) -> Result<Run<'b, 'f>, CallRefusal>
    ensures start { start_in result cells.new ≡ start_with (design_in board.now) value (length cells.old) }
    ensures memory { MatchResult result (λ run. board_under run ≡ board.now) (λ _. cells.new ≡ cells.old) }
{
    if cells.len() != board.figures().cells {
        return Err(CallRefusal::Fit);
    }
    cells.fill_with(|| value);
    Ok(Run { board, cycle: 0 })
}

// Starts a run whose cells are all low.
pub fn power<'b, 'f, K: Signal>(
    board: &'b Board<'f>,
    cells: &mut [K],
) -> Result<Run<'b, 'f>, CallRefusal>
    ensures start { start_in result cells.new ≡ powered K.Signal.kind (design_in board.now) (length cells.old) }
    ensures memory { MatchResult result (λ run. board_under run ≡ board.now) (λ _. cells.new ≡ cells.old) }
    ensures law { PoweredLaw K.Signal.kind }
{
    start(board, cells, K::low())
}

// Starts a run whose cells are all unknown.
pub fn cold<'b, 'f, K: WithUnknown>(
    board: &'b Board<'f>,
    cells: &mut [K],
) -> Result<Run<'b, 'f>, CallRefusal>
    ensures start { start_in result cells.new ≡ start_with (design_in board.now) K.WithUnknown.blank (length cells.old) }
    ensures memory { MatchResult result (λ run. board_under run ≡ board.now) (λ _. cells.new ≡ cells.old) }
    ensures law { WholeLaw K.Signal.kind K.WithUnknown.blank }
{
    start(board, cells, K::unknown())
}
