// What was compared, and what differed.
use crate::kinds::Kind;
use crate::view::{Expected, View};
use flat_evaluator::calls::{Operation, Outcome, Refusal};
use std::{fmt, io};

// What can differ in one call.
#[derive(Clone, Copy)]
pub enum Difference {
    Verdict,
    Depth,
    Figures,
    Answer,
    Cells,
    Tape,
    Scratch,
    Denied,
    Unsettled,
}

impl fmt::Display for Difference {
    fn fmt<W: fmt::Write>(&self, f: &mut fmt::Formatter<W>) -> fmt::Result {
        f.write_str(match self {
            Difference::Verdict => "the judge refuses the board",
            Difference::Depth => "a board of nine levels is not refused as SIZE at 6",
            Difference::Figures => "the figures of the board differ",
            Difference::Answer => "the answers differ",
            Difference::Cells => "the cells differ",
            Difference::Tape => "the tapes differ",
            Difference::Scratch => "a refused call changed working values or level records",
            Difference::Denied => "a value denies the bit of the flat run",
            Difference::Unsettled => "a value is not settled though all handed in are",
        })
    }
}

// A call of a board, by their numbers.
#[derive(Clone, Copy, Default)]
struct Position {
    board: usize,
    call: usize,
}

#[derive(Clone, Copy)]
struct Finding {
    position: Position,
    difference: Difference,
}

impl fmt::Display for Finding {
    fn fmt<W: fmt::Write>(&self, f: &mut fmt::Formatter<W>) -> fmt::Result {
        let Position { board, call } = self.position;
        write!(f, "board {board}, call {call}: {}", self.difference)
    }
}

// How many calls were not refused, by operation.
#[derive(Clone, Copy, Default)]
struct Answered {
    power: usize,
    cold: usize,
    step: usize,
    set: usize,
    clear: usize,
    read: usize,
    look: usize,
}

impl Answered {
    fn count(&mut self, operation: &Operation) {
        let count = match operation {
            Operation::Power => &mut self.power,
            Operation::Cold => &mut self.cold,
            Operation::Step(_) => &mut self.step,
            Operation::Set { .. } => &mut self.set,
            Operation::Clear => &mut self.clear,
            Operation::Read { .. } => &mut self.read,
            Operation::Look { .. } => &mut self.look,
        };
        add(count, 1);
    }
}

impl fmt::Display for Answered {
    fn fmt<W: fmt::Write>(&self, f: &mut fmt::Formatter<W>) -> fmt::Result {
        write!(f, "{:6} {:6} {:6} ", self.power, self.cold, self.step)?;
        write!(
            f,
            "{:6} {:6} {:6} {:6}",
            self.set, self.clear, self.read, self.look
        )
    }
}

// How many calls were refused, by refusal.
#[derive(Clone, Copy, Default)]
struct Refused {
    count: usize,
    index: usize,
    fit: usize,
    tape: usize,
    unseen: usize,
}

impl Refused {
    fn count(&mut self, refusal: Refusal) {
        let count = match refusal {
            Refusal::Count => &mut self.count,
            Refusal::Index => &mut self.index,
            Refusal::Fit => &mut self.fit,
            Refusal::Tape => &mut self.tape,
            Refusal::Unseen => &mut self.unseen,
        };
        add(count, 1);
    }
}

impl fmt::Display for Refused {
    fn fmt<W: fmt::Write>(&self, f: &mut fmt::Formatter<W>) -> fmt::Result {
        write!(f, "{:6} {:6} {:6} ", self.count, self.index, self.fit)?;
        write!(f, "{:6} {:6}", self.tape, self.unseen)
    }
}

// The counts of one kind.
#[derive(Drop)]
pub struct Tally {
    name: &'static str,
    position: Position,
    answered: Answered,
    refused: Refused,
    values: usize,
    bits: usize,
    differences: usize,
    first: Option<Finding>,
}

impl Tally {
    fn new(name: &'static str) -> Tally {
        Tally {
            name,
            position: Position::default(),
            answered: Answered::default(),
            refused: Refused::default(),
            values: 0,
            bits: 0,
            differences: 0,
            first: None,
        }
    }

    pub fn begin(&mut self, board: usize) {
        self.position = Position { board, call: 0 };
    }

    // Counts a call by what it is to come to.
    pub fn count<V>(&mut self, operation: &Operation, outcome: &Outcome<V>) {
        add(&mut self.position.call, 1);
        match outcome {
            Ok(_) => self.answered.count(operation),
            Err(refusal) => self.refused.count(*refusal),
        }
    }

    pub fn differ(&mut self, difference: Difference) {
        add(&mut self.differences, 1);
        if self.first.is_none() {
            self.first = Some(Finding {
                position: self.position,
                difference,
            });
        }
    }

    // Counts values, and what they have that they should not.
    pub fn compare<K: Kind>(
        &mut self,
        view: &View,
        found: &[K],
        expected: &Expected<'_, K::Own>,
        difference: Difference,
    ) {
        add(&mut self.values, found.len());
        add(&mut self.bits, found.len().min(expected.bits.len()));
        if view.differ(found, expected.values) {
            self.differ(difference);
        }
        if view.deny(found, expected.bits) {
            self.differ(Difference::Denied);
        }
        if view.unsettled(found, expected.bits) {
            self.differ(Difference::Unsettled);
        }
    }

    fn show_first(&self, rt: &HostRuntime) -> io::Result<()> {
        match self.first {
            Some(finding) => println!(rt; "{}, {finding}", self.name),
            None => Ok(()),
        }
    }
}

impl fmt::Display for Tally {
    fn fmt<W: fmt::Write>(&self, f: &mut fmt::Formatter<W>) -> fmt::Result {
        write!(f, "{:12} {} {} ", self.name, self.answered, self.refused)?;
        write!(f, "{:10} {:10}", self.values, self.bits)
    }
}

// The counts of all kinds.
#[derive(Drop)]
pub struct Tallies {
    pub bits: Tally,
    pub levels: Tally,
    pub rows: Tally,
    pub marked_bits: Tally,
    pub marked_levels: Tally,
}

impl Tallies {
    pub fn new() -> Tallies {
        Tallies {
            bits: Tally::new("bits"),
            levels: Tally::new("levels"),
            rows: Tally::new("rows"),
            marked_bits: Tally::new("marks/bits"),
            marked_levels: Tally::new("marks/levels"),
        }
    }

    fn all(&self) -> [&Tally; 5] {
        [
            &self.bits,
            &self.levels,
            &self.rows,
            &self.marked_bits,
            &self.marked_levels,
        ]
    }

    pub fn differences(&self) -> usize {
        self.all()
            .iter()
            .fold(0, |sum, tally| tally.differences.saturating_add(sum))
    }

    pub fn show(&self, rt: &HostRuntime) -> io::Result<()> {
        println!(rt;
            "kind          power   cold   step    set  clear   read   look  COUNT  INDEX    FIT   TAPE UNSEEN     values       bits"
        )?;
        for tally in self.all() {
            println!(rt; "{tally}")?;
        }
        for tally in self.all() {
            tally.show_first(rt)?;
        }
        Ok(())
    }
}

fn add(count: &mut usize, more: usize) {
    *count = count.saturating_add(more);
}
