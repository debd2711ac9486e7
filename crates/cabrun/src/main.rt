// Runs the board of board.bin in the current folder on three levels, by the lines of standard input.
#![tactic(auto)]

use std::fmt::Display;
use std::io::{ErrorKind, Read};
use std::process::ExitCode;
use std::{fs, io};
use transcript::{cab_transcript, takes_input};

// No file is an empty file.
fn read_board(rt: &HostRuntime) -> io::Result<Vec<u8>> {
    match fs::read(rt, "board.bin") {
        Err(e) if e.kind() == ErrorKind::NotFound => Ok(Vec::new(rt.alloc())),
        found => found,
    }
}

fn read_input(rt: &HostRuntime, file: &[u8]) -> io::Result<Vec<u8>> {
    let mut input = Vec::new(rt.alloc());
    if takes_input(file) {
        rt.stdin().read_to_end(&mut input)?;
    }
    Ok(input)
}

// Says on standard error what failed.
fn tell<E: Display>(rt: &HostRuntime, failure: &str, error: &E) {
    let _ = eprintln!(rt; "cabrun: {failure}: {error}");
}

fn run(rt: &HostRuntime) -> io::Result<()> {
    let file = read_board(rt).inspect_err(|e| tell(rt, "board.bin cannot be read", e))?;
    let input = read_input(rt, file.as_slice());
    let input = input.inspect_err(|e| tell(rt, "standard input cannot be read", e))?;
    let text = cab_transcript(rt.alloc(), file.as_slice(), input.as_slice());
    let text = text.inspect_err(|e| tell(rt, "the text cannot be made", e))?;
    print!(rt; "{text}").inspect_err(|e| tell(rt, "the text cannot be printed", e))
}

// What failed has been said where it failed.
fn main(rt: HostRuntime) -> ExitCode {
    match run(&rt) {
        Ok(()) => ExitCode::SUCCESS,
        Err(_) => ExitCode::FAILURE,
    }
}
