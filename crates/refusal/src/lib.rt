// Why a call is refused, as an enum with the documents' numbers.
#![tactic(auto)]

ghost use Rattle.std.specs.Prelude.{◌≡◌};
ghost use Rattle.refusal.specs.Numbered.{number_of};

// The reasons, in the order of their numbers: document 01, "Refused", and document 02.
#[derive(Clone, Copy, Debug, PartialEq, Eq)]
pub enum Refusal {
    OffDomain,
    OutOfRange,
    Taken,
    Missing,
    Full,
    Empty,
    GridRules,
    TooFewLent,
    FileLength,
    Magic,
    Count,
    BackDistance,
    Sum,
    RecordOffDomain,
    RecordOrder,
    UnequalSteps,
    NoRow,
}

impl Refusal {
    // The documents' number, from 1 to 17.
    pub fn number(self) -> u8
        ensures { result ≡ number_of self }
    {
        match self {
            Refusal::OffDomain => 1,
            Refusal::OutOfRange => 2,
            Refusal::Taken => 3,
            Refusal::Missing => 4,
            Refusal::Full => 5,
            Refusal::Empty => 6,
            Refusal::GridRules => 7,
            Refusal::TooFewLent => 8,
            Refusal::FileLength => 9,
            Refusal::Magic => 10,
            Refusal::Count => 11,
            Refusal::BackDistance => 12,
            Refusal::Sum => 13,
            Refusal::RecordOffDomain => 14,
            Refusal::RecordOrder => 15,
            Refusal::UnequalSteps => 16,
            Refusal::NoRow => 17,
        }
    }
}
