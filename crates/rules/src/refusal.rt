ghost use Rattle.std.specs.Prelude.{◌≡◌};
ghost use Rattle.rules.specs.Refusals.{number_of, place_of};

// Why a file is no board, and the first byte of the record at fault.
#[derive(Clone, Copy, PartialEq, Eq, Debug)]
pub enum Refusal {
    Long,
    Cut { place: usize },
    Kind { place: usize },
    Shape { place: usize },
    Trail { place: usize },
    Refer { place: usize },
    Pins { place: usize },
    Wire { place: usize },
    Order { place: usize },
    Drive { place: usize },
    State { place: usize },
    Size { place: usize },
}

impl Refusal {
    // Stays: `as` takes only an enum whose variants have no fields, and these have a place.
    pub fn number(self) -> u8
        ensures { result ≡ number_of self }
    {
        match self {
            Refusal::Long => 1,
            Refusal::Cut { .. } => 2,
            Refusal::Kind { .. } => 3,
            Refusal::Shape { .. } => 4,
            Refusal::Trail { .. } => 5,
            Refusal::Refer { .. } => 6,
            Refusal::Pins { .. } => 7,
            Refusal::Wire { .. } => 8,
            Refusal::Order { .. } => 9,
            Refusal::Drive { .. } => 10,
            Refusal::State { .. } => 11,
            Refusal::Size { .. } => 12,
        }
    }

    pub fn place(self) -> usize
        ensures { result ≡ place_of self }
    {
        match self {
            Refusal::Long => 0,
            Refusal::Cut { place }
            | Refusal::Kind { place }
            | Refusal::Shape { place }
            | Refusal::Trail { place }
            | Refusal::Refer { place }
            | Refusal::Pins { place }
            | Refusal::Wire { place }
            | Refusal::Order { place }
            | Refusal::Drive { place }
            | Refusal::State { place }
            | Refusal::Size { place } => place,
        }
    }
}
