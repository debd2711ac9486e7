// Judges the files of data/ with the board library, and compares each verdict with the expected one.
// tests/reference/cases.py makes the data and says how they are laid out.
#![tactic(auto)]

mod case;
mod fault;
mod reader;
mod tally;
mod verdict;

use crate::case::{Bases, Cases};
use crate::tally::Tally;
use crate::verdict::verdict_of;
use std::fs;

fn run(rt: &HostRuntime) -> anyhow::Result<()> {
    let base_bytes = fs::read(rt, "bases.bin")?;
    let bases = Bases::read(rt.alloc(), base_bytes.as_slice())?;
    let case_bytes = fs::read(rt, "cases.bin")?;
    let mut cases = Cases::new(bases, case_bytes.as_slice())?;
    let mut tally = Tally::new();
    for number in 0..cases.count() {
        let case = cases.read()?;
        let found = verdict_of(case.file.as_slice());
        if found == case.expected {
            tally.agree(found);
        } else {
            tally.differ(rt, number, case.expected, found)?;
        }
    }
    cases.end()?;
    tally.show(rt)?;
    let files = cases.count();
    let mismatches = tally.mismatches;
    println!(rt; "{files} files, {mismatches} mismatches")?;
    Ok(())
}

fn main(rt: HostRuntime) -> anyhow::Result<()> {
    run(&rt)
}
