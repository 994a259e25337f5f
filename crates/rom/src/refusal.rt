// Why something is refused: "Numbers handed back" of documents 01 and 02, each by a name. 28, a spent budget, is no refusal.
ghost use Rattle.std.specs.Prelude.{◌≡◌};
ghost use Rattle.rom.specs.Refusal.{refusal_number, refusal_in};

#[derive(Clone, Copy)]
pub enum Refusal {
    // 1 to 7: what is lent
    WrongRom,
    UnknownStart,
    UnknownFormat,
    WrongLength,
    WrongChecksum,
    WrongSize,
    Damaged,
    // 10 to 20: a token
    CutOff,
    Unlisted,
    Undefined,
    DefinedAlready,
    TooLow,
    TooHigh,
    WrongReturns,
    TooManyCalls,
    Misplaced,
    Astray,
    NoNode,
    // 21 to 27: what depends on data
    ZeroDivisor,
    NoWindow,
    NotAligned,
    WorkExhausted,
    NotAdjoining,
    BadName,
    StoreFull,
    // 29 to 31: a path, what it names, and the screen
    BadPath,
    NotFound,
    NoHeights,
}

impl Refusal {
    // Its number in the documents.
    pub fn number(self) -> u32
        ensures { result ≡ refusal_number self }
    {
        match self {
            Refusal::WrongRom => 1,
            Refusal::UnknownStart => 2,
            Refusal::UnknownFormat => 3,
            Refusal::WrongLength => 4,
            Refusal::WrongChecksum => 5,
            Refusal::WrongSize => 6,
            Refusal::Damaged => 7,
            Refusal::CutOff => 10,
            Refusal::Unlisted => 11,
            Refusal::Undefined => 12,
            Refusal::DefinedAlready => 13,
            Refusal::TooLow => 14,
            Refusal::TooHigh => 15,
            Refusal::WrongReturns => 16,
            Refusal::TooManyCalls => 17,
            Refusal::Misplaced => 18,
            Refusal::Astray => 19,
            Refusal::NoNode => 20,
            Refusal::ZeroDivisor => 21,
            Refusal::NoWindow => 22,
            Refusal::NotAligned => 23,
            Refusal::WorkExhausted => 24,
            Refusal::NotAdjoining => 25,
            Refusal::BadName => 26,
            Refusal::StoreFull => 27,
            Refusal::BadPath => 29,
            Refusal::NotFound => 30,
            Refusal::NoHeights => 31,
        }
    }
}

// The number of what may be refused: 0 where it is not.
pub fn refusal_in(done: Result<(), Refusal>) -> u32
    ensures { result ≡ refusal_in done }
{
    match done {
        Ok(()) => 0,
        Err(why) => why.number(),
    }
}
