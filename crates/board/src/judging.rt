// Judging a file as a whole.
ghost use Rattle.std.specs.Prelude.{◌≡◌};
ghost use Rattle.rules.specs.Refusals.{Judges};
ghost use Rattle.rules.specs.Judging.{verdict};
ghost use Rattle.rules.specs.Breaks.{AcceptedExactly, VerdictFirst};
ghost use Rattle.board.specs.Decoded.{Decoded};

use crate::current::Current;
use crate::layout::read_file;
use crate::tables::{Found, Judged, Summary};
use rules::Refusal;

// The file's records and then its modules, from the last to the top.
fn judge_file<'f>(file: &'f [u8]) -> Result<Judged<'f>, Refusal>
    ensures { Judges result (verdict file.now) (Decoded file.now) }
{
    let layout = read_file(file)?;
    let modules = layout.modules;
    let summaries = [Summary::default(); 64];
    let starts = [[0u32; 64]; 64];
    let mut b = Judged {
        file,
        count: layout.count,
        modules,
        summaries,
        starts,
    };
    // Stays: module `k` is judged over the tables of all modules behind it, while its own entries wait to be written.
    for k in (0..layout.count).rev() {
        let current = Current {
            judged: &b,
            number: k,
        };
        let Found { summary, starts } = current.judge()?;
        b.summaries[k] = summary;
        b.starts[k] = starts;
    }
    Ok(b)
}

// Whether a file is a board, and if not, why and where. It is one exactly when it is the records of modules that keep the
// rules; any other is refused by the first rule that it breaks.
pub fn judge<'f>(file: &'f [u8]) -> Result<Judged<'f>, Refusal>
    ensures answer { Judges result (verdict file.now) (Decoded file.now) }
    ensures exactly { AcceptedExactly file.now }
    ensures first { VerdictFirst file.now (verdict file.now) }
{
    judge_file(file)
}
