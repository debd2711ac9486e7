// How many files came out in each way.
use crate::verdict::Verdict;
use std::{fmt, io};

// The outcomes by their numbers: 0 for an accepted file, and the others for the refusals.
// Stays: the stored cases name a refusal by its number.
const NAMES: [&str; 13] = [
    "accepted", "LONG", "CUT", "KIND", "SHAPE", "TRAIL", "REFER", "PINS", "WIRE", "ORDER", "DRIVE",
    "STATE", "SIZE",
];

// How many mismatches are shown.
const SHOWN: usize = 10;

#[derive(Drop)]
pub struct Tally {
    // Stays: the counts beside the names, so that a tally allocates nothing.
    agreed: [usize; 13],
    pub mismatches: usize,
}

impl Tally {
    pub fn new() -> Tally {
        Tally {
            agreed: [0; 13],
            mismatches: 0,
        }
    }

    pub fn agree(&mut self, verdict: Verdict) {
        let number = verdict.map_or_else(|refused| usize::from(refused.number), |_| 0);
        if let Some(count) = self.agreed.get_mut(number) {
            *count = count.saturating_add(1);
        }
    }

    pub fn differ(
        &mut self,
        rt: &HostRuntime,
        case: usize,
        expected: Verdict,
        found: Verdict,
    ) -> io::Result<()> {
        self.mismatches = self.mismatches.saturating_add(1);
        if self.mismatches <= SHOWN {
            let expected = Shown(expected);
            let found = Shown(found);
            println!(rt; "case {case}: expected {expected}, found {found}")?;
        }
        Ok(())
    }

    pub fn show(&self, rt: &HostRuntime) -> io::Result<()> {
        for (number, (name, count)) in NAMES.iter().zip(self.agreed.iter()).enumerate() {
            println!(rt; "{number:2} {name:8} {count:6}")?;
        }
        Ok(())
    }
}

// A verdict as it is printed.
#[derive(Clone, Copy)]
struct Shown(Verdict);

impl fmt::Display for Shown {
    fn fmt<W: fmt::Write>(&self, f: &mut fmt::Formatter<W>) -> fmt::Result {
        match self.0 {
            Ok(figures) => write!(f, "accepted, {figures}"),
            Err(refused) => write!(f, "{refused}"),
        }
    }
}
