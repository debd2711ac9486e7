// One module: its occurrences, and then the module itself by checks 8, 10, 11 and 12.
ghost use Rattle.std.specs.Prelude.{◌≡◌, ℕ, ◌+◌, ◌*◌, ◌<◌, ◌≤◌, ◌&&◌, max, ◌==◌, nat_lt, replicate, slice_set};
ghost use Rattle.rules.specs.Refusals.{accepted, Judges};
ghost use Rattle.rules.specs.Boards.{node};
ghost use Rattle.rules.specs.Judging.{occurrences_judged, module_judged, module_of};
ghost use Rattle.board.specs.WireTables.{driven_by, reaches};
ghost use Rattle.board.specs.Layouts.{ModuleOf};
ghost use Rattle.board.specs.Summaries.{Described};
ghost use Rattle.board.specs.Tallies.{TallyOf, ListsOf, StartsOf, Summed, within_limits};
ghost use Rattle.board.specs.Current.{file_under, place, unit, seen};

use crate::bodies::Counts;
use crate::current::Current;
use crate::layout::ModuleRecords;
use crate::records::{RecordKind, read_record};
use crate::tables::{Found, Summary};
use crate::wires::{WireTable, all_below, cell_starts, states_right};
use rules::Refusal;

// What the occurrences of a module come to.
#[derive(Clone, Copy)]
pub struct Tally {
    pub wires: WireTable,
    pub sizes: [u16; 64],
    pub cells: u32,
    pub depth: u8,
    pub places: u32,
}

impl Tally {
    // The tally of no occurrences.
    fn of_inputs(counts: Counts) -> Tally
        ensures driven { (w : ℕ) → driven_by result.wires.driven w ≡ nat_lt w counts.inputs }
        ensures reach { (w x : ℕ) → reaches result.wires.reach w x ≡ (nat_lt w counts.inputs && w == x) }
        ensures counts { result ≡ record { wires = result.wires; sizes = replicate 64 0; cells = 0; depth = 0; places = 0 } }
    {
        Tally {
            wires: WireTable::of_inputs(counts),
            sizes: [0; 64],
            cells: 0,
            depth: 0,
            places: 0,
        }
    }

    // Counts in occurrence `i`, whose part has such a summary. Its wires are in the table already.
    fn count(&mut self, i: usize, part: Summary)
        requires inside { i < 64 }
        requires few_cells { self.old.cells ≤ 65536 * i }
        requires few_places { self.old.places ≤ 65536 * i }
        ensures { self.new ≡ record { wires = self.old.wires; sizes = slice_set self.old.sizes i part.cells; cells = self.old.cells + part.cells; depth = max self.old.depth part.depth; places = self.old.places + (1 + part.places) } }
    {
        self.sizes[i] = part.cells;
        self.cells += part.cells as u32;
        self.depth = self.depth.max(part.depth);
        self.places += 1 + part.places as u32;
    }

    // Whether the module's depth, cells and places are within the limits; its depth is one more than that of the modules it uses.
    fn within_limits(&self) -> bool
        ensures { result ≡ within_limits self.now }
    {
        self.depth <= 7 && self.cells <= 4096 && self.places <= 65535
    }

    // What the module is to the modules ahead of it.
    fn summary(&self, counts: Counts, through: u16) -> Summary
        requires { (self.now.depth ≤ 7) × ((self.now.cells ≤ 4096) × (self.now.places ≤ 65535)) }
        ensures { Summed counts self.now through result }
    {
        Summary {
            inputs: counts.inputs,
            outputs: counts.outputs,
            through,
            cells: self.cells as u16,
            depth: self.depth + 1,
            places: self.places as u16,
        }
    }
}

// A module's output wires and its state list, as they lie in the file.
#[derive(Clone, Copy)]
pub struct Lists<'f> {
    pub outs: &'f [u8],
    pub states: &'f [u8],
}

impl<'f> Current<'_, 'f> {
    fn records(&self) -> ModuleRecords
        ensures { ModuleOf (file_under self.now) (place self.now) result }
    {
        let modules = &self.judged.modules;
        modules[self.number]
    }

    fn judge_occurrences(&self) -> Result<Tally, Refusal>
        ensures { Judges result (occurrences_judged (seen self.now) (unit self.now).wires (λ w. nat_lt w (unit self.now).inputs) (unit self.now).placed) (TallyOf (seen self.now) (unit self.now)) }
    {
        let m = self.records();
        let mut tally = Tally::of_inputs(m.counts);
        let starts = &m.occurrences.starts[..m.counts.occurrences as usize];
        for (i, start) in starts.iter().enumerate() {
            let part = self.judge_occurrence(*start as usize, m.counts.wires, &mut tally.wires)?;
            tally.count(i, part);
        }
        Ok(tally)
    }

    fn lists(&self) -> Result<Lists<'f>, Refusal>
        ensures { Judges result accepted (ListsOf (unit self.now)) }
    {
        let m = self.records();
        let record = read_record(self.judged.file, m.place, RecordKind::Module)?;
        let ends = 5 + m.counts.outputs as usize;
        let outs = &record.body[5..ends];
        let states = &record.body[ends..ends + m.counts.states as usize];
        Ok(Lists { outs, states })
    }

    // The module by checks 6 to 12, and what it is to the modules ahead of it.
    pub fn judge(&self) -> Result<Found, Refusal>
        ensures { Judges result (module_judged (seen self.now) (unit self.now)) (λ j. Described (node (module_of (unit self.now)) (seen self.now)) j.summary × StartsOf (file_under self.now) self.now.number j.starts) }
    {
        let m = self.records();
        let place = m.place;
        let tally = self.judge_occurrences()?;
        let lists = self.lists()?;
        if !all_below(lists.outs, m.counts.wires) {
            return Err(Refusal::Wire { place });
        }
        if !tally.wires.first_driven(m.counts.wires) {
            return Err(Refusal::Drive { place });
        }
        if !states_right(lists.states, &tally.sizes, m.counts.occurrences) {
            return Err(Refusal::State { place });
        }
        if !tally.within_limits() {
            return Err(Refusal::Size { place });
        }
        let through = tally.wires.inputs_reaching(lists.outs, 0xffff);
        let summary = tally.summary(m.counts, through);
        let starts = cell_starts(lists.states, &tally.sizes, m.counts.occurrences as usize);
        Ok(Found { summary, starts })
    }
}
