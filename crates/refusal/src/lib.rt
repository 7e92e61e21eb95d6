// Why a call or a room text is refused: document 01's table.
#![tactic(auto)]

ghost use Rattle.std.specs.Prelude.{◌≡◌};
ghost use Rattle.refusal.specs.Table.{number_of, place_of};

// The rows of the table. The two that have a place carry it.
#[derive(Clone, Copy, Debug, PartialEq, Eq)]
pub enum Refusal {
    BadGrid,
    Lanes,
    Count,
    BadResource { first: u32 },
    Blockers,
    Targets,
    Scratch,
    Access,
    Text { line: u32 },
    TooLarge,
}

impl Refusal {
    // The number of its row.
    pub fn number(self) -> u32
        ensures { result ≡ number_of self }
    {
        match self {
            Refusal::BadGrid => 1,
            Refusal::Lanes => 2,
            Refusal::Count => 3,
            Refusal::BadResource { first: _ } => 4,
            Refusal::Blockers => 5,
            Refusal::Targets => 6,
            Refusal::Scratch => 7,
            Refusal::Access => 8,
            Refusal::Text { line: _ } => 9,
            Refusal::TooLarge => 10,
        }
    }

    // Its place.
    pub fn place(self) -> u32
        ensures { result ≡ place_of self }
    {
        match self {
            Refusal::BadResource { first } => first,
            Refusal::Text { line } => line,
            _ => 0,
        }
    }
}
