// What a board's tables say of a module and of an occurrence. Wires and state lists are read where they lie in the file.
ghost use Rattle.std.specs.Prelude.{◌≡◌, ◌<◌, length, Some};
ghost use Rattle.rules.specs.Boards.{part as part_in};
ghost use Rattle.board.specs.Lent.{board_in, RecordsOf, Right};
ghost use Rattle.walk.specs.Levels.{module_in, use_in, cells_ahead};

use board::{ModuleRecords, Tables};
use gates::Part;

// An occurrence: what it refers to, and the wires on its inputs and outputs.
#[derive(Clone, Copy)]
pub(crate) struct Occurrence<'b> {
    pub(crate) part: Part,
    pub(crate) ins: &'b [u8],
    pub(crate) outs: &'b [u8],
}

// A module that is to be entered: its number, its occurrence's input wires, and where its cells begin.
#[derive(Clone, Copy)]
pub(crate) struct Child<'b> {
    pub(crate) number: usize,
    pub(crate) ins: &'b [u8],
    pub(crate) cell: usize,
}

// A module of a board: the board's tables, and the module's number in them.
#[derive(Clone, Copy)]
pub(crate) struct Module<'b> {
    pub(crate) tables: Tables<'b>,
    pub(crate) number: usize,
    ghost right: { Right tables },
    ghost there: { number < length (board_in tables) },
}

impl<'b> Module<'b> {
    // Another module of the same board.
    pub(crate) fn other(self, number: usize) -> Module<'b>
        requires { number < length (board_in self.tables) }
        ensures tables { result.tables ≡ self.entry.tables }
        ensures number { result.number ≡ number }
    {
        Module {
            tables: self.tables,
            number,
        }
    }

    pub(crate) fn records(self) -> &'b ModuleRecords
        ensures { RecordsOf (board_in self.entry.tables) self.entry.number result.now }
    {
        let modules = self.tables.modules;
        &modules[self.number]
    }

    // Where the cells of an occurrence begin among the module's.
    pub(crate) fn first_cell(self, i: usize) -> usize
        requires { i < length (module_in self.tables self.number).occurrences }
        ensures { result ≡ cells_ahead (board_in self.entry.tables) self.entry.number i }
    {
        self.tables.starts[self.number][i] as usize
    }

    pub(crate) fn occurrence(self, i: usize) -> Occurrence<'b>
        requires { i < length (module_in self.tables self.number).occurrences }
        ensures part { part_in (use_in self.entry.tables self.entry.number i) ≡ Some result.part }
        ensures ins { result.ins.now ≡ (use_in self.entry.tables self.entry.number i).ins }
        ensures outs { result.outs.now ≡ (use_in self.entry.tables self.entry.number i).outs }
    {
        let file = self.tables.file;
        let at = self.records().occurrences.starts[i] as usize;
        let reference = u16::from_le_bytes([file[at + 4], file[at + 5]]);
        let part = Part::of_reference(reference).unwrap();
        let middle = at + 8 + file[at + 6] as usize;
        let end = middle + file[at + 7] as usize;
        Occurrence {
            part,
            ins: &file[at + 8..middle],
            outs: &file[middle..end],
        }
    }

    pub(crate) fn output_wires(self) -> &'b [u8]
        ensures { result.now ≡ (module_in self.entry.tables self.entry.number).outs }
    {
        let records = self.records();
        let start = records.place + 9;
        let end = start + records.counts.outputs as usize;
        &self.tables.file[start..end]
    }

    pub(crate) fn state_list(self) -> &'b [u8]
        ensures { result.now ≡ (module_in self.entry.tables self.entry.number).states }
    {
        let records = self.records();
        let start = records.place + 9 + records.counts.outputs as usize;
        let end = start + records.counts.states as usize;
        &self.tables.file[start..end]
    }
}
