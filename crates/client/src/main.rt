// How a program uses the library: it drives a board, rewrites the board's file in its buffer, and drives it again.
#![tactic(auto)]

mod drive;
mod trouble;

use drive::drive_rewritten;
use std::{fs, io};
use trouble::Trouble;

// The switches are seat, clutch, brake, power take-off and key. The driver starts the engine, lets go of all but the seat,
// and leaves.
const DRIVE: [[bool; 5]; 3] = [
    [true, true, true, false, true],
    [true, false, false, false, false],
    [false, false, false, false, false],
];

// Where the file has the gate by which the engine goes on turning, and what can be put there.
const HOLD: usize = 76;

const AND: u8 = 4;

const NO_GATE: u8 = 12;

fn show(rt: &HostRuntime, what: &str, outcome: Result<[bool; 3], Trouble>) -> io::Result<()> {
    match outcome {
        Ok(answer) => println!(rt; "{what}: {answer:?}"),
        Err(trouble) => println!(rt; "{what}: {trouble}"),
    }
}

fn main(rt: HostRuntime) -> io::Result<()> {
    let mut bytes = fs::read(&rt, "board.bin")?;
    let file = bytes.as_mut_slice();
    let (before, after) = drive_rewritten(file, HOLD, AND, &DRIVE);
    show(&rt, "turns", before)?;
    show(&rt, "turns, rewritten", after)?;
    let (_, spoilt) = drive_rewritten(file, HOLD, NO_GATE, &DRIVE);
    show(&rt, "turns, spoilt", spoilt)
}
