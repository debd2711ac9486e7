// The cab program's choice: three levels.
ghost use Rattle.std.specs.Prelude.{◌≡◌, IfOk, string_bytes};
ghost use Rattle.rules.specs.Judging.{verdict};
ghost use Rattle.transcript.specs.Cab.{cab_text};
ghost use Rattle.transcript.specs.Sessions.{is_accepted};

use crate::session::transcript;
use board::judge;
use signal::levels::Level;
use std::alloc::{AllocError, Global};

// Whether the input matters: not for a refused board.
pub fn takes_input(file: &[u8]) -> bool
    ensures { result ≡ is_accepted (verdict file.now) }
{
    judge(file).is_ok()
}

// The whole text on three levels.
pub fn cab_transcript(heap: Global, file: &[u8], input: &[u8]) -> Result<String, AllocError>
    ensures { IfOk result (λ t. string_bytes t ≡ cab_text file.now input.now) }
{
    transcript::<Level>(heap, file, input)
}
