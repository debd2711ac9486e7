// Makes the text for each board and input of data/, and compares it with the expected one.
// tests/reference/transcripts.py makes the data.
#![tactic(auto)]

use std::{fs, io};
use transcript::cab_transcript;

fn read(rt: &HostRuntime, name: &str, part: &str) -> io::Result<Vec<u8>> {
    let path = format!(in rt.alloc(); "{name}.{part}")?;
    fs::read(rt, path.as_str())
}

fn agrees(rt: &HostRuntime, name: &str) -> io::Result<bool> {
    let file = read(rt, name, "board")?;
    let input = read(rt, name, "input")?;
    let expected = read(rt, name, "text")?;
    let text = cab_transcript(rt.alloc(), file.as_slice(), input.as_slice())?;
    if text.as_bytes() == expected.as_slice() {
        println!(rt; "{name} agrees")?;
        return Ok(true);
    }
    println!(rt; "{name} differs:\n{text}")?;
    Ok(false)
}

fn run(rt: &HostRuntime) -> anyhow::Result<()> {
    let names = fs::read_to_string(rt, "names")?;
    let agreed = names
        .as_str()
        .lines()
        .map(|name| agrees(rt, name))
        .try_collect::<Vec<bool>>(rt.alloc())?;
    let cases = agreed.len();
    let mismatches = agreed.iter().filter(|agrees| !**agrees).count();
    println!(rt; "{cases} cases, {mismatches} mismatches")?;
    Ok(())
}

fn main(rt: HostRuntime) -> anyhow::Result<()> {
    run(&rt)
}
