// How many modules a board has, and what its top comes to.
#[derive(Clone, Copy, PartialEq, Eq, Debug)]
pub struct Figures {
    pub modules: usize,
    pub inputs: usize,
    pub outputs: usize,
    pub cells: usize,
    pub places: usize,
    pub depth: usize,
}
