// Steps a board on a fixed stream of inputs, for the benchmark.
//
//     stepper BOARD KIND STEPS [time]
//
// KIND is b (bits), t (three levels) or r (64 rows). A line on stdout has a checksum over all outputs and counts, and the
// total count; with the word time, a line on stderr has the nanoseconds per step. bench/plain.rs prints the same line.
#![tactic(auto)]

mod fault;
mod kind;
mod memory;
mod runs;
mod sample;
mod stream;
mod totals;

use crate::fault::Fault;
use crate::kind::Kind;
use crate::runs::run_all;
use crate::sample::Sample;
use board::Board;
use signal::levels::Level;
use std::{env, fs};

#[derive(Drop)]
struct Words {
    path: String,
    kind: String,
    steps: usize,
    timed: bool,
}

fn read_words(rt: &HostRuntime) -> anyhow::Result<Words> {
    let mut given = env::args(rt)?;
    let _program = given.next();
    let path = given.next().ok_or(Fault::Usage)?;
    let kind = given.next().ok_or(Fault::Usage)?;
    let steps = given.next().ok_or(Fault::Usage)?;
    Ok(Words {
        path,
        kind,
        steps: steps.parse::<usize>()?,
        timed: given.next().is_some(),
    })
}

fn show<K: Sample>(rt: &HostRuntime, board: &Board<'_>, words: &Words) -> anyhow::Result<()> {
    let totals = run_all::<K>(rt, board, words.steps)?;
    let checksum = totals.checksum;
    let count = totals.count;
    println!(rt; "{checksum:016x} {count}")?;
    if words.timed {
        let nanos = totals.nanos / words.steps.max(1) as u128;
        eprintln!(rt; "{nanos} ns per step")?;
    }
    Ok(())
}

fn show_kind(rt: &HostRuntime, board: &Board<'_>, words: &Words) -> anyhow::Result<()> {
    match words.kind.as_str().parse::<Kind>()? {
        Kind::Bits => show::<bool>(rt, board, words),
        Kind::Levels => show::<Level>(rt, board, words),
        Kind::Rows => show::<u64>(rt, board, words),
    }
}

fn run(rt: &HostRuntime) -> anyhow::Result<()> {
    let words = read_words(rt)?;
    let file = fs::read(rt, words.path.as_str())?;
    let board = Board::read(file.as_slice()).map_err(Fault::from)?;
    show_kind(rt, &board, &words)
}

fn main(rt: HostRuntime) -> anyhow::Result<()> {
    run(&rt)
}
