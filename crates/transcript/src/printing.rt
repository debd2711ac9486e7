// The lines that are printed.
ghost use Rattle.std.specs.Prelude.{◌≡◌, ◌++◌, Some, string_bytes, OnOk};
ghost use Rattle.transcript.specs.Printed.{board_line, ended_line, kind_line, output_character, outputs_text, refused_line, step_line};

use rules::Refusal;
use signal::Signal;
use std::alloc::AllocError;
use std::fmt;

fn output_character<K: Signal>(output: K) -> char
    ensures { result ≡ output_character (K.Signal.kind.told output) }
{
    // Stays: a rule of the project: what is told is taken apart by `Some` with a guard and `None`.
    match output.told() {
        Some(bit) if bit => '1',
        Some(_) => '0',
        None => '?',
    }
}

// The outputs of a cycle: a character for each, and - if there are none.
#[derive(Clone, Copy)]
struct Outputs<'o, K>(&'o [K]);

impl<K: Signal> fmt::Display for Outputs<'_, K> {
    ghost output = { λ o. Some (outputs_text K.Signal.kind o.0.now) };

    fn fmt<W: fmt::Write>(&self, f: &mut fmt::Formatter<W>) -> fmt::Result {
        if self.0.is_empty() {
            return write!(f, "-");
        }
        for output in self.0 {
            let character = output_character(*output);
            write!(f, "{character}")?;
        }
        Ok(())
    }
}

// The line of a step: its cycle, its outputs and its count.
pub fn push_step_line<K: Signal>(
    text: &mut String,
    cycle: u16,
    outputs: &[K],
    count: u32,
) -> Result<(), AllocError>
    ensures { OnOk result (string_bytes text.new ≡ string_bytes text.old ++ step_line K.Signal.kind cycle outputs.now count) }
{
    let outputs = Outputs(outputs);
    writeln!(text, "{cycle} {outputs} {count}")
}

// Stays: a public signature: a caller may hold the number of either sort of refusal.
pub fn push_refused_line(text: &mut String, number: u8) -> Result<(), AllocError>
    ensures { OnOk result (string_bytes text.new ≡ string_bytes text.old ++ refused_line number) }
{
    writeln!(text, "refused {number}")
}

pub fn push_ended_line(text: &mut String, steps: u16) -> Result<(), AllocError>
    ensures { OnOk result (string_bytes text.new ≡ string_bytes text.old ++ ended_line steps) }
{
    writeln!(text, "ended {steps}")
}

pub fn push_kind_line<K: Signal>(text: &mut String) -> Result<(), AllocError>
    ensures { OnOk result (string_bytes text.new ≡ string_bytes text.old ++ kind_line K.Signal.kind) }
{
    let letter = K::kind_letter();
    writeln!(text, "kind {letter}")
}

pub fn push_board_line(text: &mut String, refusal: Refusal) -> Result<(), AllocError>
    ensures { OnOk result (string_bytes text.new ≡ string_bytes text.old ++ board_line refusal) }
{
    let number = refusal.number();
    let place = refusal.place();
    writeln!(text, "board {number} {place}")
}
