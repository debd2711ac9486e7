// The levels of a walk: a module on the way down, with what is left to do in it.
ghost use Rattle.std.specs.Prelude.{◌≡◌};
ghost use Rattle.walk.specs.Levels.{no_level};

// What a level is doing: its first pass with the second to come, its first pass for its outputs alone, or its second pass.
#[derive(Clone, Copy, PartialEq, Eq, Debug)]
pub enum Pass {
    ForBoth,
    ForOutputs,
    Storing,
}

// A module's number, the occurrence or the entry of its state list that it stands at, its pass, where its wires begin
// among the working values, and where its cells begin; in a second pass, the next cell.
#[derive(Clone, Copy, PartialEq, Eq, Debug)]
pub struct Level {
    pub(crate) number: usize,
    pub(crate) place: usize,
    pub(crate) pass: Pass,
    pub(crate) base: usize,
    pub(crate) cell: usize,
}

impl Level {
    // The top at its start; a caller lends such levels to a walk.
    pub fn new() -> Level
        ensures { result ≡ no_level }
    {
        Level {
            number: 0,
            place: 0,
            pass: Pass::ForBoth,
            base: 0,
            cell: 0,
        }
    }
}
