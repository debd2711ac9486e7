// What judging holds of a file.
use crate::layout::ModuleRecords;

// What a part is to the module that uses it: its pins, its through inputs as a set of bits, its cells, depth and places.
#[derive(Clone, Copy, Default)]
pub struct Summary {
    pub inputs: u8,
    pub outputs: u8,
    pub through: u16,
    pub cells: u16,
    pub depth: u8,
    pub places: u16,
}

// A file with its records, what was found of its modules, and where the cells of each occurrence begin among its module's.
// Stays: three arrays by module: all records are read before any module is judged, and Tables, which is public, lends
// the starts as one array. Their count stands beside them, since judging allocates nothing.
#[derive(Drop)]
pub struct Judged<'f> {
    pub(crate) file: &'f [u8],
    pub(crate) count: usize,
    pub(crate) modules: [ModuleRecords; 64],
    pub(crate) summaries: [Summary; 64],
    pub(crate) starts: [[u32; 64]; 64],
}

// What was found of a module, and where the cells of its occurrences begin.
#[derive(Clone, Copy)]
pub struct Found {
    pub summary: Summary,
    pub starts: [u32; 64],
}
