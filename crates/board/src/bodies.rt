// What the bodies of records hold, within the limits of a board.
ghost use Rattle.std.specs.Prelude.{◌≤◌, length};

// What a module's record counts.
#[derive(Clone, Copy)]
pub struct Counts {
    pub inputs: u8,
    pub outputs: u8,
    pub wires: u8,
    pub occurrences: u8,
    pub states: u8,
    ghost few_inputs: { inputs ≤ 16 },
    ghost few_occurrences: { occurrences ≤ 64 },
}

// An occurrence's record: its reference number and its wires.
#[derive(Clone, Copy)]
pub struct Occurrence<'f> {
    pub reference: u16,
    pub ins: &'f [u8],
    pub outs: &'f [u8],
    ghost few_ins: { length ins.now ≤ 16 },
    ghost few_outs: { length outs.now ≤ 16 },
}
