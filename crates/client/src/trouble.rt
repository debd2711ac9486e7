// Why a drive has no outcome.
ghost use Rattle.std.specs.Prelude.{◌≡◌};
ghost use Rattle.client.specs.declared.trouble.Trouble.TheVariants.{File, Call};

use board::Refusal;
use run::CallRefusal;
use std::fmt;

// The file is no board, or a call on the run is refused.
// Stays: the `From` of the kit's derive has no contract, and the clause of `drive` says which trouble a refusal becomes.
#[derive(Clone, Copy, PartialEq, Eq, Debug)]
pub enum Trouble {
    File(Refusal),
    Call(CallRefusal),
}

impl From<Refusal> for Trouble {
    ghost from_gives = { λ e t. t ≡ File e };

    fn from(refusal: Refusal) -> Trouble {
        Trouble::File(refusal)
    }
}

impl From<CallRefusal> for Trouble {
    ghost from_gives = { λ e t. t ≡ Call e };

    fn from(refusal: CallRefusal) -> Trouble {
        Trouble::Call(refusal)
    }
}

impl fmt::Display for Trouble {
    fn fmt<W: fmt::Write>(&self, f: &mut fmt::Formatter<W>) -> fmt::Result {
        match self {
            Trouble::File(refusal) => {
                let number = refusal.number();
                let place = refusal.place();
                write!(f, "the file is refused by {number} at {place}")
            }
            Trouble::Call(refusal) => {
                let number = refusal.number();
                write!(f, "a call is refused by {number}")
            }
        }
    }
}
