// An answer by its refusal's number, whatever the number is: as it was stored, or as another version told it.
ghost use Rattle.std.specs.Prelude.{◌≡◌};
ghost use Rattle.answers.specs.Answers.{answer, answer_by};

use crate::{Answer, Answered};

// Passed, or a refusal by its number with its place.
// Kept: no Result, whose refusal would be one of the documents'.
#[derive(Clone, Copy, PartialEq, Eq)]
pub enum ByNumber {
    Passed,
    Refused { number: u32, place: u64 },
}

impl ByNumber {
    // The answer with a refusal's number and place: passed where the number is 0.
    pub fn new(number: u32, place: u64) -> ByNumber
        ensures { answer_by result ≡ answer number place }
    {
        if number == 0 {
            return ByNumber::Passed;
        }
        ByNumber::Refused { number, place }
    }
}

impl Answered for ByNumber {
    ghost answered = { answer_by };

    fn number(self) -> u32 {
        match self {
            ByNumber::Passed => 0,
            ByNumber::Refused { number, place: _ } => number,
        }
    }

    fn place(self) -> u64 {
        match self {
            ByNumber::Passed => 0,
            ByNumber::Refused { number: _, place } => place,
        }
    }
}

// A call's answer by its number.
impl From<Answer> for ByNumber {
    ghost use Rattle.answers.specs.Answers.{answer_of};

    ghost from_gives = { λ answer told. answer_by told ≡ answer_of answer };

    fn from(answer: Answer) -> ByNumber {
        match answer {
            Ok(()) => ByNumber::Passed,
            Err(refused) => ByNumber::Refused {
                number: u32::from(refused.refusal),
                place: refused.place,
            },
        }
    }
}
