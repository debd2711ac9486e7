// Records and their bodies. A body is a part of the file.
ghost use Rattle.std.specs.Prelude.{◌≡◌, ◌+◌, ◌<◌, ◌≤◌, length};
ghost use Rattle.rules.specs.Refusals.{Judges, asked};
ghost use Rattle.rules.specs.Records.{number_at, framed, board_shape, module_shape, occurrence_shape};
ghost use Rattle.board.specs.Bodies.{kind_number, RecordOf, CountsOf, OccurrenceOf};

use crate::bodies::{Counts, Occurrence};
use rules::Refusal;

#[derive(Clone, Copy)]
pub enum RecordKind {
    Board = 1,
    Module = 2,
    Occurrence = 3,
}

impl RecordKind {
    pub fn number(self) -> u16
        ensures { result ≡ kind_number self }
    {
        self as u16
    }
}

#[derive(Clone, Copy)]
pub struct Record<'f> {
    pub place: usize,
    pub kind: RecordKind,
    pub body: &'f [u8],
}

// The record at `at`, if it is whole and of the kind that is due.
pub fn read_record<'f>(file: &'f [u8], at: usize, due: RecordKind) -> Result<Record<'f>, Refusal>
    requires { at ≤ length file.now }
    ensures { Judges result (framed file.now at (kind_number due)) (RecordOf file.now at due) }
{
    if file.len() - at < 4 {
        return Err(Refusal::Cut { place: at });
    }
    let size = u16::from_le_bytes([file[at], file[at + 1]]) as usize;
    if file.len() - at - 4 < size {
        return Err(Refusal::Cut { place: at });
    }
    if u16::from_le_bytes([file[at + 2], file[at + 3]]) != due.number() {
        return Err(Refusal::Kind { place: at });
    }
    let body = &file[at + 4..at + 4 + size];
    Ok(Record {
        place: at,
        kind: due,
        body,
    })
}

// How many modules the board has.
pub fn parse_board(body: &[u8], place: usize) -> Result<usize, Refusal>
    ensures { Judges result (asked (board_shape body.now) (Refusal.Shape place)) (λ m. (m ≡ number_at body.now 0) × (1 ≤ m) × (m ≤ 64)) }
{
    let [low, high] = body else {
        return Err(Refusal::Shape { place });
    };
    let count = u16::from_le_bytes([*low, *high]) as usize;
    if count < 1 || count > 64 {
        return Err(Refusal::Shape { place });
    }
    Ok(count)
}

pub fn parse_module(body: &[u8], place: usize) -> Result<Counts, Refusal>
    ensures { Judges result (asked (module_shape body.now) (Refusal.Shape place)) (CountsOf body.now) }
{
    let [inputs, outputs, wires, occurrences, states, ..] = body else {
        return Err(Refusal::Shape { place });
    };
    if *inputs > 16 || *outputs > 16 || *wires < *inputs || *wires > 128 {
        return Err(Refusal::Shape { place });
    }
    if *occurrences > 64 || *states > *occurrences {
        return Err(Refusal::Shape { place });
    }
    if body.len() != 5 + *outputs as usize + *states as usize {
        return Err(Refusal::Shape { place });
    }
    Ok(Counts {
        inputs: *inputs,
        outputs: *outputs,
        wires: *wires,
        occurrences: *occurrences,
        states: *states,
    })
}

pub fn parse_occurrence<'f>(body: &'f [u8], place: usize) -> Result<Occurrence<'f>, Refusal>
    ensures { Judges result (asked (occurrence_shape body.now) (Refusal.Shape place)) (OccurrenceOf body.now) }
{
    let [low, high, a, b, ..] = body else {
        return Err(Refusal::Shape { place });
    };
    let ins = *a as usize;
    let outs = *b as usize;
    if ins > 16 || outs > 16 || body.len() != 4 + ins + outs {
        return Err(Refusal::Shape { place });
    }
    Ok(Occurrence {
        reference: u16::from_le_bytes([*low, *high]),
        ins: &body[4..4 + ins],
        outs: &body[4 + ins..4 + ins + outs],
    })
}
