// What a judge says of a file.
use board::{Board, Refusal};
use std::fmt;

pub type Verdict = Result<Figures, Refused>;

// Stays: the stored cases have four of a board's six figures, and the judge they come from gives no others.
#[derive(Clone, Copy, PartialEq, Eq)]
pub struct Figures {
    pub modules: usize,
    pub cells: usize,
    pub places: usize,
    pub depth: usize,
}

impl From<board::Figures> for Figures {
    fn from(top: board::Figures) -> Figures {
        Figures {
            modules: top.modules,
            cells: top.cells,
            places: top.places,
            depth: top.depth,
        }
    }
}

impl fmt::Display for Figures {
    fn fmt<W: fmt::Write>(&self, f: &mut fmt::Formatter<W>) -> fmt::Result {
        let modules = self.modules;
        let cells = self.cells;
        let places = self.places;
        let depth = self.depth;
        write!(
            f,
            "modules {modules}, cells {cells}, places {places}, depth {depth}"
        )
    }
}

// The number of a refusal, and the first byte of the record at fault.
// Stays: the stored cases name a refusal by its number.
#[derive(Clone, Copy, PartialEq, Eq)]
pub struct Refused {
    pub number: u8,
    pub place: usize,
}

impl From<Refusal> for Refused {
    fn from(refusal: Refusal) -> Refused {
        Refused {
            number: refusal.number(),
            place: refusal.place(),
        }
    }
}

impl fmt::Display for Refused {
    fn fmt<W: fmt::Write>(&self, f: &mut fmt::Formatter<W>) -> fmt::Result {
        let number = self.number;
        let place = self.place;
        write!(f, "{number} at {place}")
    }
}

// What the board library says of a file.
pub(crate) fn verdict_of(file: &[u8]) -> Verdict {
    Ok(Board::read(file)?.figures().into())
}
