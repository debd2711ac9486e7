// One occurrence, by checks 6 to 10.
ghost use Rattle.std.specs.Prelude.{◌≡◌, ℕ, ◌≤◌, length, Some};
ghost use Rattle.gates.specs.Gates.{part_of};
ghost use Rattle.rules.specs.Refusals.{accepted, Judges, asked};
ghost use Rattle.rules.specs.Records.{read, occurrence_shape};
ghost use Rattle.rules.specs.Boards.{Design, part, present};
ghost use Rattle.rules.specs.Wires.{picked, drive};
ghost use Rattle.rules.specs.Judging.{known, pins_judged, occurrence_judged, occurrence_at};
ghost use Rattle.board.specs.WireTables.{bit, driven_by, reaches};
ghost use Rattle.board.specs.Summaries.{SummaryOf, Described, reach_on};
ghost use Rattle.board.specs.Current.{file_under, seen};

use crate::bodies::Occurrence;
use crate::current::Current;
use crate::records::{RecordKind, parse_occurrence, read_record};
use crate::tables::Summary;
use crate::wires::{WireTable, all_below};
use gates::{Gate, Part};
use rules::Refusal;

fn gate_summary(gate: Gate) -> Summary
    ensures { (below : ℕ → Design) → SummaryOf below (Some (Part.Gate gate)) result }
{
    Summary {
        inputs: gate.inputs(),
        outputs: 1,
        through: 0xffff,
        ..Summary::default()
    }
}

fn cell_summary() -> Summary
    ensures { (below : ℕ → Design) → SummaryOf below (Some Part.Cell) result }
{
    Summary {
        inputs: 1,
        outputs: 1,
        through: 0,
        cells: 1,
        ..Summary::default()
    }
}

// Checks 7 to 10, and the wires that the occurrence drives.
fn connect(
    o: Occurrence,
    summary: Summary,
    wires: u8,
    place: usize,
    table: &mut WireTable,
) -> Result<(), Refusal>
    ensures answer { Judges result (pins_judged summary.inputs summary.outputs (picked (bit summary.through) o.entry.ins.now) wires (driven_by table.old.driven) place o.entry.ins.now o.entry.outs.now) (λ _. driven_by table.new.driven ≡ drive o.entry.outs.now (driven_by table.old.driven)) }
    ensures reach { table.new.reach ≡ table.old.reach }
{
    if o.ins.len() != summary.inputs as usize || o.outs.len() != summary.outputs as usize {
        return Err(Refusal::Pins { place });
    }
    if !all_below(o.ins, wires) || !all_below(o.outs, wires) {
        return Err(Refusal::Wire { place });
    }
    if !table.all_driven(o.ins, summary.through) {
        return Err(Refusal::Order { place });
    }
    table.drive(o.outs, place)
}

impl Current<'_, '_> {
    // What was found of a module that this one refers to: one of greater number.
    fn module_summary(&self, number: usize, place: usize) -> Result<Summary, Refusal>
        ensures { Judges result (asked (present (seen self.now number)) (Refusal.Refer place)) (Described (seen self.now number)) }
    {
        if number <= self.number || number >= self.judged.count {
            return Err(Refusal::Refer { place });
        }
        Ok(self.judged.summaries[number])
    }

    // What a reference number stands for.
    fn refer(&self, reference: u16, place: usize) -> Result<Summary, Refusal>
        ensures { Judges result (asked (known (seen self.now) (part_of reference)) (Refusal.Refer place)) (SummaryOf (seen self.now) (part_of reference)) }
    {
        match Part::of_reference(reference) {
            Some(Part::Gate(gate)) => Ok(gate_summary(gate)),
            Some(Part::Cell) => Ok(cell_summary()),
            Some(Part::Module(number)) => self.module_summary(number, place),
            None => Err(Refusal::Refer { place }),
        }
    }

    // Checks 6 to 10 of the occurrence at `at`, and which inputs reach the wires behind it.
    pub fn judge_occurrence(
        &self,
        at: usize,
        wires: u8,
        table: &mut WireTable,
    ) -> Result<Summary, Refusal>
        requires { (read (file_under self.now) at 3 occurrence_shape ≡ accepted) × (at ≤ length (file_under self.now)) }
        ensures { Judges result (occurrence_judged (seen self.now) wires (driven_by table.old.driven) (occurrence_at (file_under self.now) at)) (λ s. SummaryOf (seen self.now) (part (occurrence_at (file_under self.now) at).occurrence) s × (driven_by table.new.driven ≡ drive (occurrence_at (file_under self.now) at).occurrence.outs (driven_by table.old.driven)) × (reaches table.new.reach ≡ reach_on (seen self.now) (occurrence_at (file_under self.now) at).occurrence (reaches table.old.reach))) }
    {
        let record = read_record(self.judged.file, at, RecordKind::Occurrence)?;
        let o = parse_occurrence(record.body, at)?;
        let summary = self.refer(o.reference, at)?;
        connect(o, summary, wires, at, table)?;
        let mask = table.inputs_reaching(o.ins, summary.through);
        table.put_reach(o.outs, mask);
        Ok(summary)
    }
}
