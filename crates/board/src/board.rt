// A board: a file whose verdict is acceptance, with its tables. It exists only by judging, and borrows the file.
ghost use Rattle.std.specs.Prelude.{◌≡◌};
ghost use Rattle.std.proofs.Props.{props};
ghost use mathlib.Core.Sum.{⊎_set};
ghost use Rattle.rules.specs.Refusals.{Judges};
ghost use Rattle.rules.specs.Judging.{verdict};
ghost use Rattle.rules.specs.Breaks.{AcceptedExactly, VerdictFirst};
ghost use Rattle.board.specs.Decoded.{Accepted};
ghost use Rattle.board.specs.Lent.{Right};
ghost use Rattle.board.specs.Sizes.{Figured, FiguresOf};

use crate::figures::Figures;
use crate::judging::judge;
use crate::lent::{Tables, lend};
use crate::tables::{Judged, Summary};
use rules::Refusal;

#[derive(Drop)]
pub struct Board<'f> {
    judged: Judged<'f>,
    ghost accepted: { Accepted judged } by { Prim.hlevel (props, ⊎_set) },
}

// A judged file becomes a board, which carries on what judging promised of it.
pub fn seal<'f>(judged: Judged<'f>) -> Board<'f>
    requires { Accepted judged }
    ensures { result.judged ≡ judged.entry }
{
    Board { judged }
}

impl<'f> Board<'f> {
    // A file that is judged and sealed in one call.
    pub fn read(file: &'f [u8]) -> Result<Board<'f>, Refusal>
        ensures answer { Judges result (verdict file.now) (λ b. b.judged.file.now ≡ file.now) }
        ensures exactly { AcceptedExactly file.now }
        ensures first { VerdictFirst file.now (verdict file.now) }
    {
        let judged = judge(file)?;
        Ok(seal(judged))
    }
}

fn figures_of(modules: usize, top: Summary) -> Figures
    ensures { Figured modules top result }
{
    Figures {
        modules,
        inputs: top.inputs as usize,
        outputs: top.outputs as usize,
        cells: top.cells as usize,
        places: top.places as usize,
        depth: top.depth as usize,
    }
}

impl Board<'_> {
    pub fn figures(&self) -> Figures
        ensures { FiguresOf self.now.judged.file.now result }
    {
        figures_of(self.judged.count, self.judged.summaries[0])
    }

    // The tables, with what reading them relies on.
    pub fn tables(&self) -> Tables<'_>
        ensures file { result.file.now ≡ self.now.judged.file.now }
        ensures right { Right result }
    {
        lend(&self.judged)
    }
}
