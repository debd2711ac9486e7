// The functions of gates.
// Stays: the library has the same gates; the flat evaluator shares no code with it.

#[derive(Clone, Copy, PartialEq, Eq, Debug)]
pub enum Function {
    Low,
    High,
    Buf,
    Not,
    And,
    Or,
    Xor,
    Nand,
    Nor,
    Xnor,
    Pick,
    // A reference that stands for no gate: it gives 0.
    Other,
}

// By the references of a board file.
impl From<usize> for Function {
    fn from(reference: usize) -> Function {
        match reference {
            0 => Function::Low,
            1 => Function::High,
            2 => Function::Buf,
            3 => Function::Not,
            4 => Function::And,
            5 => Function::Or,
            6 => Function::Xor,
            7 => Function::Nand,
            8 => Function::Nor,
            9 => Function::Xnor,
            10 => Function::Pick,
            _ => Function::Other,
        }
    }
}

impl Function {
    // What it gives of three inputs; one of fewer inputs leaves the last ones aside.
    pub(crate) fn truth(self, a: bool, b: bool, c: bool) -> bool {
        self.row()[4 * usize::from(a) + 2 * usize::from(b) + usize::from(c)]
    }

    // What it gives of the inputs 000, 001, 010, 011, 100, 101, 110 and 111, the first input first.
    fn row(self) -> [bool; 8] {
        match self {
            Function::Low | Function::Other => [
                false, false, false, false, false, false, false, false,
            ],
            Function::High => [true, true, true, true, true, true, true, true],
            Function::Buf => [false, false, false, false, true, true, true, true],
            Function::Not => [true, true, true, true, false, false, false, false],
            Function::And => [false, false, false, false, false, false, true, true],
            Function::Or => [false, false, true, true, true, true, true, true],
            Function::Xor => [false, false, true, true, true, true, false, false],
            Function::Nand => [true, true, true, true, true, true, false, false],
            Function::Nor => [true, true, false, false, false, false, false, false],
            Function::Xnor => [true, true, false, false, false, false, true, true],
            Function::Pick => [false, true, false, true, false, false, true, true],
        }
    }
}
