// Where the records of a file lie: the file read front to back.
ghost use Rattle.std.specs.Prelude.{◌+◌, ◌≤◌, length};
ghost use Rattle.rules.specs.Refusals.{Judges};
ghost use Rattle.rules.specs.Records.{occurrences_read, module_read, modules_read, records_read};
ghost use Rattle.board.specs.Layouts.{OccurrencesOf, ModuleOf, ModulesOf, LayoutOf};

use crate::bodies::Counts;
use crate::records::{RecordKind, parse_board, parse_module, parse_occurrence, read_record};
use rules::Refusal;

// Where the records of a module's occurrences begin, and where the last of them ends.
// Stays: an array whose count is in the module's `Counts`, since judging allocates nothing and the crates above read both.
#[derive(Clone, Copy)]
pub struct OccurrenceRecords {
    pub starts: [u16; 64],
    pub end: usize,
}

#[derive(Clone, Copy)]
pub struct ModuleRecords {
    pub place: usize,
    pub counts: Counts,
    pub occurrences: OccurrenceRecords,
}

// Stays: an array with its count beside it, since judging allocates nothing.
#[derive(Clone, Copy)]
pub struct Layout {
    pub count: usize,
    pub modules: [ModuleRecords; 64],
}

const NO_RECORDS: ModuleRecords = ModuleRecords {
    place: 0,
    counts: Counts {
        inputs: 0,
        outputs: 0,
        wires: 0,
        occurrences: 0,
        states: 0,
    },
    occurrences: OccurrenceRecords {
        starts: [0; 64],
        end: 0,
    },
};

// What is left of a file from `at` on. The file is no longer than a board's.
#[derive(Clone, Copy)]
pub struct Rest<'f> {
    pub file: &'f [u8],
    pub at: usize,
    ghost inside: { at ≤ length file.now },
    ghost short: { length file.now ≤ 32768 },
}

impl Rest<'_> {
    fn occurrences(&self, counts: Counts) -> Result<OccurrenceRecords, Refusal>
        ensures { Judges result (occurrences_read self.now.file.now self.now.at counts.occurrences) (OccurrencesOf self.now.file.now self.now.at counts.occurrences) }
    {
        let mut starts = [0u16; 64];
        let mut at = self.at;
        for start in starts[..counts.occurrences as usize].iter_mut() {
            let record = read_record(self.file, at, RecordKind::Occurrence)?;
            parse_occurrence(record.body, record.place)?;
            *start = at as u16;
            at += 4 + record.body.len();
        }
        Ok(OccurrenceRecords { starts, end: at })
    }

    fn module(&self) -> Result<ModuleRecords, Refusal>
        ensures { Judges result (module_read self.now.file.now self.now.at) (ModuleOf self.now.file.now self.now.at) }
    {
        let record = read_record(self.file, self.at, RecordKind::Module)?;
        let counts = parse_module(record.body, record.place)?;
        let behind = Rest {
            file: self.file,
            at: self.at + 4 + record.body.len(),
        };
        let occurrences = behind.occurrences(counts)?;
        Ok(ModuleRecords {
            place: self.at,
            counts,
            occurrences,
        })
    }

    fn modules(&self, count: usize) -> Result<[ModuleRecords; 64], Refusal>
        requires { count ≤ 64 }
        ensures { Judges result (modules_read self.now.file.now self.now.at count) (ModulesOf self.now.file.now self.now.at count) }
    {
        let mut modules = [NO_RECORDS; 64];
        let mut at = self.at;
        for module in modules[..count].iter_mut() {
            let rest = Rest {
                file: self.file,
                at,
            };
            *module = rest.module()?;
            at = module.occurrences.end;
        }
        if at != self.file.len() {
            return Err(Refusal::Trail { place: at });
        }
        Ok(modules)
    }
}

// The records of a file, by checks 1 to 5.
pub fn read_file(file: &[u8]) -> Result<Layout, Refusal>
    ensures { Judges result (records_read file.now) (LayoutOf file.now) }
{
    if file.len() > 32768 {
        return Err(Refusal::Long);
    }
    let record = read_record(file, 0, RecordKind::Board)?;
    let count = parse_board(record.body, record.place)?;
    let behind = Rest {
        file,
        at: 4 + record.body.len(),
    };
    let modules = behind.modules(count)?;
    Ok(Layout { count, modules })
}
