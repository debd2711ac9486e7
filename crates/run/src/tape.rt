// The tape: the outputs of each cycle lie behind those of the cycle before.
ghost use Rattle.std.specs.Prelude.{◌≡◌, ◌+◌, ◌*◌, ◌^◌, ◌<◌, length};
ghost use Rattle.rules.specs.Boards.{out_wires};
ghost use Rattle.run.specs.Calls.{run_top};

use crate::Run;

impl Run<'_, '_> {
    // How many values the cycles so far have put on the tape.
    #[tactic(auto, using(crate::proofs::Bounds::few_outputs, crate::proofs::Bounds::small_place))]
    pub(crate) fn written(&self) -> usize
        ensures place { result ≡ self.now.cycle * length (out_wires (run_top self.now)) }
        ensures small { result + length (out_wires (run_top self.now)) < 2 ^ 32 }
    {
        self.cycle as usize * self.board.figures().outputs
    }
}
