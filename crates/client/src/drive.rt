// Drives of a tractor whose board has five inputs, two outputs and one cell. Output 0 says whether the engine may turn.
ghost use Rattle.std.specs.Prelude.{◌≡◌, slice_set};
ghost use Rattle.client.specs.Drives.{Driven};

use crate::trouble::Trouble;
use board::{judge, seal};
use run::{LEVEL_RECORDS, Level, WORKING_VALUES, power};

// Whether the engine turns in each of three steps after power.
pub fn drive(file: &[u8], switches: &[[bool; 5]; 3]) -> Result<[bool; 3], Trouble>
    ensures { Driven file.now switches.now result }
{
    let judged = judge(file)?;
    let board = seal(judged);
    let mut cells = [false; 1];
    let mut tape = [false; 6];
    let mut work = [false; WORKING_VALUES];
    let mut levels = [Level::new(); LEVEL_RECORDS];
    let mut run = power(&board, &mut cells)?;
    let mut turns = [false; 3];
    // Stays: after a `zip` over `iter_mut` a proof knows nothing of what was written.
    for (cycle, inputs) in switches.iter().enumerate() {
        run.step(inputs, &mut cells, &mut tape, &mut work, &mut levels)?;
        turns[cycle] = run.look(0, cycle, &cells, &tape)?;
    }
    Ok(turns)
}

// Puts another byte at a place of the file, if the file has that place.
fn rewrite(file: &mut [u8], place: usize, byte: u8)
    ensures { file.new ≡ slice_set file.old place byte }
{
    // Stays: after a write through `get_mut` a proof knows only how long the file is.
    if place < file.len() {
        file[place] = byte;
    }
}

// A drive of the file as it is, and one of the file with another byte at a place.
pub fn drive_rewritten(
    file: &mut [u8],
    place: usize,
    byte: u8,
    switches: &[[bool; 5]; 3],
) -> (Result<[bool; 3], Trouble>, Result<[bool; 3], Trouble>)
    ensures before { Driven file.old switches.now result.0 }
    ensures after { Driven (slice_set file.old place byte) switches.now result.1 }
{
    let before = drive(file, switches);
    rewrite(file, place, byte);
    let after = drive(file, switches);
    (before, after)
}
