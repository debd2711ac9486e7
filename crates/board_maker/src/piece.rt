// What can stand at an occurrence.

// The gates and the cell; each number is the reference of one.
// Stays: the library has gates, too; the maker of boards uses no crate of the library that it tests.
#[derive(Clone, Copy, PartialEq, Eq)]
pub enum Primitive {
    Low = 0,
    High = 1,
    Buf = 2,
    Not = 3,
    And = 4,
    Or = 5,
    Xor = 6,
    Nand = 7,
    Nor = 8,
    Xnor = 9,
    Pick = 10,
    Cell = 11,
}

impl Primitive {
    fn inputs(self) -> usize {
        match self {
            Primitive::Low | Primitive::High => 0,
            Primitive::Buf | Primitive::Not | Primitive::Cell => 1,
            Primitive::Pick => 3,
            _ => 2,
        }
    }
}

// A set of a module's inputs: a bit for each, the lowest for the first.
#[derive(Clone, Copy, PartialEq, Eq)]
pub struct InputSet(u16);

impl InputSet {
    pub const NONE: InputSet = InputSet(0);

    pub const ALL: InputSet = InputSet(u16::MAX);

    pub fn only(input: u32) -> InputSet {
        InputSet(1u16.wrapping_shl(input))
    }

    pub fn has(self, input: u32) -> bool {
        self.0 & InputSet::only(input).0 != 0
    }

    pub fn with(self, other: InputSet) -> InputSet {
        InputSet(self.0 | other.0)
    }
}

// A primitive or a module, with what its user has to know of it.
#[derive(Clone, Copy)]
pub struct Piece {
    pub reference: usize,
    pub inputs: usize,
    pub outputs: usize,
    pub through: InputSet,
    pub cells: usize,
    pub places: usize,
    pub depth: usize,
}

impl From<Primitive> for Piece {
    fn from(primitive: Primitive) -> Piece {
        let is_cell = primitive == Primitive::Cell;
        Piece {
            reference: primitive as usize,
            inputs: primitive.inputs(),
            outputs: 1,
            through: if is_cell {
                InputSet::NONE
            } else {
                InputSet::ALL
            },
            cells: usize::from(is_cell),
            places: 0,
            depth: 0,
        }
    }
}

impl Piece {
    // The most bytes that an occurrence takes: its record, and its entry of the state list.
    pub fn bytes(&self) -> usize {
        self.inputs.saturating_add(self.outputs).saturating_add(9)
    }
}
