// The gates of a board, and what a reference number stands for.
#![tactic(auto)]

ghost use Rattle.std.specs.Prelude.{◌≡◌};
ghost use Rattle.gates.specs.Gates.{part_of, inputs_of};
ghost use Rattle.gates.specs.Words.{TableStands};

#[derive(Clone, Copy, PartialEq, Eq, Debug)]
pub enum Gate {
    Low,
    High,
    Buf,
    Not,
    And,
    Or,
    Xor,
    Nand,
    Nor,
    Xnor,
    Pick,
}

// What an occurrence refers to: a gate, a cell, or a module by its number.
#[derive(Clone, Copy, PartialEq, Eq, Debug)]
pub enum Part {
    Gate(Gate),
    Cell,
    Module(usize),
}

impl Part {
    // What a reference number stands for, if for anything.
    // Stays: `as` goes from a variant to its number and not back, so `TryFrom<u16>` would be this same `match`.
    pub fn of_reference(reference: u16) -> Option<Part>
        ensures { result ≡ part_of reference }
    {
        match reference {
            0 => Some(Part::Gate(Gate::Low)),
            1 => Some(Part::Gate(Gate::High)),
            2 => Some(Part::Gate(Gate::Buf)),
            3 => Some(Part::Gate(Gate::Not)),
            4 => Some(Part::Gate(Gate::And)),
            5 => Some(Part::Gate(Gate::Or)),
            6 => Some(Part::Gate(Gate::Xor)),
            7 => Some(Part::Gate(Gate::Nand)),
            8 => Some(Part::Gate(Gate::Nor)),
            9 => Some(Part::Gate(Gate::Xnor)),
            10 => Some(Part::Gate(Gate::Pick)),
            11 => Some(Part::Cell),
            12..=255 => None,
            256..=u16::MAX => Some(Part::Module(reference as usize - 256)),
        }
    }
}

impl Gate {
    // How many inputs a gate has.
    pub fn inputs(self) -> u8
        ensures { result ≡ inputs_of self }
    {
        match self {
            Gate::Low | Gate::High => 0,
            Gate::Buf | Gate::Not => 1,
            Gate::And | Gate::Or | Gate::Xor | Gate::Nand | Gate::Nor | Gate::Xnor => 2,
            Gate::Pick => 3,
        }
    }
}

// What the table of references says, in words.
pub fn table_stands()
    ensures { TableStands }
{}
