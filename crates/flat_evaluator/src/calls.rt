// Calls on a run, and what they answer.

// A call, and how many cells it is handed. The values themselves stand beside it.
#[derive(Clone, Copy)]
pub struct Call {
    pub operation: Operation,
    pub cells: usize,
}

// What is called, with its numbers and how many values it is handed beside the cells.
#[derive(Clone, Copy)]
pub enum Operation {
    Power,
    Cold,
    Step(Room),
    Set {
        cell: usize,
    },
    Clear,
    Read {
        cell: usize,
    },
    Look {
        cycle: usize,
        output: usize,
        tape: usize,
    },
}

// How many values of each sort a step is handed beside the cells.
#[derive(Clone, Copy)]
pub struct Room {
    pub inputs: usize,
    pub tape: usize,
    pub values: usize,
    pub levels: usize,
}

// Why a call is refused, by the numbers of the rules for runs.
// Stays: the library has the same refusals; the flat evaluator shares no code with it.
#[derive(Clone, Copy, PartialEq, Eq, Debug)]
pub enum Refusal {
    Count = 13,
    Index = 14,
    Fit = 15,
    Tape = 16,
    Unseen = 17,
}

// What a call answers that is not refused.
#[derive(Clone, Copy, PartialEq, Eq, Debug)]
pub enum Answer<V> {
    Counted(usize),
    Done,
    Value(V),
}

// What a call comes to.
pub type Outcome<V> = Result<Answer<V>, Refusal>;
