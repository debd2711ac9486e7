// Why the program gives up.
use board::Refusal;
use run::CallRefusal;
use thiserror::Error;

#[derive(Debug, Drop, Error)]
pub enum Fault {
    #[error("usage: stepper BOARD KIND STEPS [time], with the kind b, t or r")]
    Usage,
    #[error("the tape of a run is too long")]
    TooLong,
    // Stays: what is printed is the number alone, of either sort of refusal.
    #[error("refused by {0}")]
    Refused(u8),
}

impl From<Refusal> for Fault {
    fn from(refusal: Refusal) -> Fault {
        Fault::Refused(refusal.number())
    }
}

impl From<CallRefusal> for Fault {
    fn from(refusal: CallRefusal) -> Fault {
        Fault::Refused(refusal.number())
    }
}
