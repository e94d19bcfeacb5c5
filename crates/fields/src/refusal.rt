// Why a call refuses: the table of document 01, in its order, and behind it what the requests of document 02 add. `specs/Refusals.antt` gives each its number.
ghost use Rattle.std.specs.Prelude.{◌≡◌};
ghost use Rattle.fields.specs.Refusals.{number_of};

#[derive(Clone, Copy, PartialEq, Eq)]
pub enum Refusal {
    BadController,
    BadStore,
    ShortImage,
    NotAnImage,
    NotATrack,
    TooManyTracks,
    TooManySectors,
    NoRoom,
    NoTransferRoom,
    LongInput,
    BadSheet,
    NoImage,
    ShortBuffer,
}

impl Refusal {
    // The number by which the documents know a refusal, case by case, as document 01 has its definition.
    pub fn number(self) -> u8
        ensures { result ≡ number_of self }
    {
        match self {
            Refusal::BadController => 1,
            Refusal::BadStore => 2,
            Refusal::ShortImage => 3,
            Refusal::NotAnImage => 4,
            Refusal::NotATrack => 5,
            Refusal::TooManyTracks => 6,
            Refusal::TooManySectors => 7,
            Refusal::NoRoom => 8,
            Refusal::NoTransferRoom => 9,
            Refusal::LongInput => 10,
            Refusal::BadSheet => 11,
            Refusal::NoImage => 12,
            Refusal::ShortBuffer => 13,
        }
    }
}
