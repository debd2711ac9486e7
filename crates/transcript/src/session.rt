// A board that answers the lines of an input.
ghost use Rattle.std.specs.Prelude.{◌≡◌, ◌*◌, ◌≤◌, ◌++◌, length, IfOk, vec_len, string_bytes, OnOk};
ghost use Rattle.rules.specs.Boards.{in_count, out_wires};
ghost use Rattle.run.specs.Calls.{run_top};
ghost use Rattle.transcript.specs.Lines.{lines_of};
ghost use Rattle.transcript.specs.Sessions.{answers, transcript as transcript_text};

use crate::printing::{
    push_board_line, push_ended_line, push_kind_line, push_refused_line, push_step_line,
};
use crate::reading::{cut_line, parse_line};
use board::Board;
use run::{CallRefusal, LEVEL_RECORDS, Level, Run, WORKING_VALUES, power};
use signal::{Signal, WithUnknown};
use std::alloc::{AllocError, Global};

const TAPE_VALUES: usize = 4096;

// A run with the memory that it is lent.
#[derive(Drop)]
struct Desk<'b, 'f, K> {
    run: Run<'b, 'f>,
    inputs: Vec<K>,
    cells: Vec<K>,
    tape: Vec<K>,
    work: Vec<K>,
    levels: Vec<Level>,
    ghost input_count: { vec_len inputs ≡ in_count (run_top run) },
    ghost tape_size: { vec_len tape ≡ 4096 },
    ghost work_size: { vec_len work ≡ 1024 },
    ghost level_count: { vec_len levels ≡ 8 },
    ghost filled: { run.cycle * length (out_wires (run_top run)) ≤ 4096 },
}

fn all_low<K: Signal>(heap: Global, count: usize) -> Result<Vec<K>, AllocError>
    ensures { IfOk result (λ v. vec_len v ≡ count) }
{
    Ok(vec![in heap; K::low(); count]?)
}

impl<'b, 'f, K: WithUnknown> Desk<'b, 'f, K> {
    ghost use Rattle.transcript.specs.Desks.{Answered, Fresh, Told, design_of, run_of};

    // All cells low.
    fn power(heap: Global, board: &'b Board<'f>) -> Result<Desk<'b, 'f, K>, AllocError>
        ensures { IfOk result (Fresh K.Signal.kind board.now) }
    {
        let figures = board.figures();
        let inputs = all_low(heap, figures.inputs)?;
        let mut cells = all_low(heap, figures.cells)?;
        let tape = all_low(heap, TAPE_VALUES)?;
        let work = all_low(heap, WORKING_VALUES)?;
        let levels = vec![in heap; Level::new(); LEVEL_RECORDS]?;
        let run = power(board, cells.as_mut_slice()).unwrap();
        Ok(Desk {
            run,
            inputs,
            cells,
            tape,
            work,
            levels,
        })
    }

    // A step on what the line stands for.
    fn step(&mut self, line: &[u8]) -> Result<u32, CallRefusal>
        ensures { Told K.Signal.kind K.WithUnknown.blank self.old line.now self.new result }
    {
        parse_line(line, self.inputs.as_mut_slice()).ok_or(CallRefusal::Count)?;
        self.run.step(
            self.inputs.as_slice(),
            self.cells.as_mut_slice(),
            self.tape.as_mut_slice(),
            self.work.as_mut_slice(),
            self.levels.as_mut_slice(),
        )
    }

    // Prints the answer to a line.
    fn answer(&mut self, line: &[u8], text: &mut String) -> Result<(), AllocError>
        ensures { OnOk result (Answered K.Signal.kind K.WithUnknown.blank self.old line.now self.new (string_bytes text.old) (string_bytes text.new)) }
    {
        let cycle = self.run.cycle();
        match self.step(line) {
            Ok(count) => {
                let width = self.run.figures().outputs;
                let at = usize::from(cycle) * width;
                let outputs = &self.tape.as_slice()[at..at + width];
                push_step_line(text, cycle, outputs, count)
            }
            Err(refusal) => push_refused_line(text, refusal.number()),
        }
    }

    // Prints the answers to all lines of an input, and the end.
    fn converse(&mut self, input: &[u8], text: &mut String) -> Result<(), AllocError>
        ensures { OnOk result (string_bytes text.new ≡ string_bytes text.old ++ answers K.Signal.kind K.WithUnknown.blank (design_of self.old) (run_of self.old) (lines_of input.now)) }
    {
        let mut rest = input;
        while !rest.is_empty() {
            let cut = cut_line(rest);
            self.answer(cut.line, text)?;
            rest = cut.rest;
        }
        push_ended_line(text, self.run.cycle())
    }
}

// The whole text for a board file and an input, on any kind with an unknown.
pub fn transcript<K: WithUnknown>(
    heap: Global,
    file: &[u8],
    input: &[u8],
) -> Result<String, AllocError>
    ensures { IfOk result (λ t. string_bytes t ≡ transcript_text K.Signal.kind K.WithUnknown.blank file.now input.now) }
{
    let mut text = String::new(heap);
    match Board::read(file) {
        Ok(board) => {
            push_kind_line::<K>(&mut text)?;
            let mut desk: Desk<K> = Desk::power(heap, &board)?;
            desk.converse(input, &mut text)?;
        }
        Err(refusal) => push_board_line(&mut text, refusal)?,
    }
    Ok(text)
}
