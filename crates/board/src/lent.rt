// A board's tables, lent for reading.
ghost use Rattle.std.specs.Prelude.{◌≡◌};

use crate::layout::ModuleRecords;
use crate::tables::Judged;

// The file, the records of its modules, and where the cells of each occurrence begin among its module's.
// Stays: two arrays by module, as they lie in the judged file; the fields are public.
#[derive(Clone, Copy)]
pub struct Tables<'b> {
    pub file: &'b [u8],
    pub modules: &'b [ModuleRecords; 64],
    pub starts: &'b [[u32; 64]; 64],
}

pub fn lend<'b>(judged: &'b Judged) -> Tables<'b>
    ensures file { result.file.now ≡ judged.now.file.now }
    ensures modules { result.modules.now ≡ judged.now.modules }
    ensures starts { result.starts.now ≡ judged.now.starts }
{
    Tables {
        file: judged.file,
        modules: &judged.modules,
        starts: &judged.starts,
    }
}
