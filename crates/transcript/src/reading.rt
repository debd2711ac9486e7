// The lines of an input, and what they stand for.
ghost use Rattle.std.specs.Prelude.{◌≡◌, None, length, is_some, position, ◌==◌};
ghost use Rattle.std.specs.List.{list_all};
ghost use Rattle.transcript.specs.Lines.{after_line, first_line, inputs_of, read_as, value_of};

use signal::WithUnknown;

// The first line of an input without its line end, and what follows that line.
#[derive(Drop)]
pub struct CutLine<'i> {
    pub line: &'i [u8],
    pub rest: &'i [u8],
}

// Where the first line ends, if it has a line end.
fn line_end(input: &[u8]) -> Option<usize>
    ensures { result ≡ position (λ byte. byte == 10) input.now }
{
    input.iter().position(|byte| *byte == b'\n')
}

// An input that has no line end is one line.
pub fn cut_line<'i>(input: &'i [u8]) -> CutLine<'i>
    ensures line { result.line.now ≡ first_line input.now }
    ensures rest { result.rest.now ≡ after_line input.now }
{
    match line_end(input) {
        Some(at) => CutLine {
            line: &input[..at],
            rest: &input[at + 1..],
        },
        None => CutLine {
            line: input,
            rest: &[],
        },
    }
}

fn value_of<K: WithUnknown>(character: u8) -> Option<K>
    ensures { result ≡ value_of K.Signal.kind K.WithUnknown.blank character }
{
    match character {
        b'0' => Some(K::low()),
        b'1' => Some(K::high()),
        b'?' => Some(K::unknown()),
        _ => None,
    }
}

// Whether each character of a line stands for a value.
fn all_values<K: WithUnknown>(line: &[u8]) -> bool
    ensures { result ≡ list_all (λ character. is_some (value_of K.Signal.kind K.WithUnknown.blank character)) line.now }
{
    line.iter()
        .all(|character| value_of::<K>(*character).is_some())
}

// Puts the values that a line stands for into the inputs. It is None, with the inputs as they were, if the line is ill formed.
pub fn parse_line<K: WithUnknown>(line: &[u8], inputs: &mut [K]) -> Option<()>
    ensures read { read_as (is_some result) inputs.new ≡ inputs_of K.Signal.kind K.WithUnknown.blank (length inputs.old) line.now }
    ensures kept { result ≡ None → inputs.new ≡ inputs.old }
{
    if line.len() != inputs.len() {
        return None;
    }
    if !all_values::<K>(line) {
        return None;
    }
    // Stays: after a `zip` over `iter_mut` a proof knows nothing of what was written.
    for (at, character) in line.iter().enumerate() {
        inputs[at] = value_of(*character).unwrap();
    }
    Some(())
}
