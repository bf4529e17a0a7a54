// The answer that every call of the journal and of the validators gives (document 01, "Refusals"), refusals in order, and the balance of
// one account.
#![tactic(auto)]

pub mod refusal; // refusal.rt: the refusals, each with its number
pub mod by_number; // by_number.rt: an answer by its number, whatever the number is
pub mod balance; // balance.rt: the balance of one account

ghost use Rattle.std.specs.Prelude.{◌≡◌};
ghost use Rattle.answers.specs.Answers.{number_of, place_of, answer, answer_of, refuse, or_else};
ghost use Rattle.answers.specs.Answers.{Answer as ToldAnswer};
ghost use Rattle.answers.specs.Refusals.{refusal_number, refused_by};

pub use balance::balance_among;
pub use by_number::ByNumber;
pub use refusal::{Refusal, Refused};

// Passed, or one of the documents' refusals with its place.
pub type Answer = Result<(), Refused>;

// An answer, with the state to go on with beside it: a refusal hands it back as it came.
// Kept: the state stands beside the answer: check_record's hands_back gives it on a refusal too, so a Result would carry it twice.
#[derive(Clone, Copy, PartialEq, Eq)]
pub struct Outcome<S> {
    pub answer: Answer,
    pub state: S,
}

// A refusal where a test refuses.
pub fn refuse_if(refuses: bool, refusal: Refusal) -> Result<(), Refusal>
    ensures { refused_by result ≡ refuse refuses (refusal_number refusal) 0 }
{
    if refuses { Err(refusal) } else { Ok(()) }
}

// The first of two refusals, in their order.
pub fn first_refusal(first: Result<(), Refusal>, later: Result<(), Refusal>) -> Result<(), Refusal>
    ensures { refused_by result ≡ or_else (refused_by first) (refused_by later) }
{
    first.and(later)
}

// The answer at a place: passed where there is no refusal.
pub fn answer_at(judged: Result<(), Refusal>, place: u64) -> Answer
    ensures { answer_of result ≡ answer (refused_by judged) place }
{
    judged.map_err(|refusal| Refused { refusal, place })
}

// What tells an answer: a call's, or one by its number.
// Kept: number and place beside it, since README names them.
pub trait Answered: Copy {
    // The answer that it tells.
    ghost answered: { Self → ToldAnswer };

    // The refusal's number; 0 where it passed.
    fn number(self) -> u32
        ensures { result ≡ number_of (answered self) };

    // The refusal's place; 0 where it passed.
    fn place(self) -> u64
        ensures { result ≡ place_of (answered self) };
}

impl Answered for Answer {
    ghost answered = { λ answer. answer_of answer };

    fn number(self) -> u32 {
        match self {
            Ok(()) => 0,
            Err(refused) => u32::from(refused.refusal),
        }
    }

    fn place(self) -> u64 {
        match self {
            Ok(()) => 0,
            Err(refused) => refused.place,
        }
    }
}

// The refusal's number; 0 where it passed.
pub fn number<A: Answered>(answer: A) -> u32
    ensures { result ≡ number_of (A.answered answer) }
{
    answer.number()
}

// The refusal's place; 0 where it passed.
pub fn place<A: Answered>(answer: A) -> u64
    ensures { result ≡ place_of (A.answered answer) }
{
    answer.place()
}
