// The word for the kind of the values on a run.
use crate::fault::Fault;
use std::str::FromStr;

#[derive(Clone, Copy)]
pub enum Kind {
    Bits,
    Levels,
    Rows,
}

impl FromStr for Kind {
    type Err = Fault;

    fn from_str(word: &str) -> Result<Kind, Fault> {
        match word {
            "b" => Ok(Kind::Bits),
            "t" => Ok(Kind::Levels),
            "r" => Ok(Kind::Rows),
            _ => Err(Fault::Usage),
        }
    }
}
