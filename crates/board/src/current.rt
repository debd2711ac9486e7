// The module that is being judged.
ghost use Rattle.std.specs.Prelude.{◌+◌, ◌<◌};
ghost use Rattle.std.proofs.Props.{props};
ghost use mathlib.Core.Sum.{⊎_set};
ghost use Rattle.board.specs.Summaries.{JudgedFrom};

use crate::tables::Judged;

// Module `number` of a file whose later modules are judged.
#[derive(Clone, Copy)]
pub struct Current<'b, 'f> {
    pub judged: &'b Judged<'f>,
    pub number: usize,
    ghost behind: { JudgedFrom judged.now (number + 1) } by { Prim.hlevel (props, ⊎_set) },
    ghost within: { number < judged.now.count },
}
