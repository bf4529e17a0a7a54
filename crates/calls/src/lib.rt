// The calls of a validator with one record and with a list of records (document 01, "Refusals"), in place on the words of a state that is
// lent: what a validator's core brings, and the calls, the same over each.
#![tactic(auto)]

ghost use Rattle.std.specs.Prelude.{true, ◌≡◌};
ghost use Rattle.answers.specs.Answers.{answer_of};
ghost use Rattle.answers.specs.Refusals.{refused_by};
ghost use Rattle.rules.specs.Calls.{Checker, call, call_one, list, one};

use answers::{Answer, Refusal, Refused, answer_at};
use records::Record;

// A validator over the words of its state, with an index of the numbers of the records that they hold.
pub trait Core {
    type Words: Copy;

    type Index: Drop;

    // Which states it accepts, its refusals, and the words after a record.
    ghost checker: { Checker Self.Words };

    // An index of no record.
    ghost Empty: { Self.Index → Type 0 };

    // Words that are accepted, with the index of their numbers.
    ghost Ready: { Self.Words → Self.Index → Type 0 };

    // An index of no record.
    fn empty_index() -> Self::Index
        ensures { Empty result };

    // All that 3 asks of a state; where it holds, the index of its numbers is made in place of an empty one.
    // Kept: a bool and a lent index, as both cores' public is_accepted say by accepts and ready; an Option of it would be copied.
    fn is_accepted(words: &Self::Words, index: &mut Self::Index) -> bool
        requires { Empty index.old }
        ensures accepts { result ≡ checker.accepts words.now }
        ensures ready { result ≡ true → Ready words.now index.new };

    // One record of a call in an accepted state, with the index of its numbers kept: its refusal, or it passes and is stored.
    fn step(words: &mut Self::Words, index: &mut Self::Index, bytes: &[u8]) -> Result<(), Refusal>
        requires { Ready words.old index.old }
        ensures answers { refused_by result ≡ checker.judge words.old bytes.now }
        ensures leaves { words.new ≡ (call_one checker words.old bytes.now).state }
        ensures keeps { Ready words.new index.new };
}

// Whether the words of a state are accepted (3 where they are not).
pub fn accepts<C: Core>(words: &C::Words) -> bool
    ensures { result ≡ C.checker.accepts words.now }
{
    let mut index = C::empty_index();
    C::is_accepted(words, &mut index)
}

// 3, which has place 0 and comes before all else.
const NOT_ACCEPTED: Refused = Refused {
    refusal: Refusal::StateNotAccepted,
    place: 0,
};

// A call with one record: 3, and then what the record is refused for. A refusal leaves every word as it was.
pub fn take<C: Core>(words: &mut C::Words, bytes: &[u8]) -> Answer
    ensures answers { answer_of result ≡ (call C.checker words.old (one bytes.now)).answer }
    ensures leaves { words.new ≡ (call C.checker words.old (one bytes.now)).state }
{
    let mut index = C::empty_index();
    if !C::is_accepted(words, &mut index) {
        return Err(NOT_ACCEPTED);
    }
    answer_at(C::step(words, &mut index, bytes), 0)
}

// A call with a list of records: 3, and then of each record what it is refused for. A refusal has its record's index, and leaves every word
// as it was.
pub fn take_list<C: Core>(words: &mut C::Words, bytes: &[u8]) -> Answer
    ensures answers { answer_of result ≡ (call C.checker words.old (list bytes.now)).answer }
    ensures leaves { words.new ≡ (call C.checker words.old (list bytes.now)).state }
{
    let mut index = C::empty_index();
    if !C::is_accepted(words, &mut index) {
        return Err(NOT_ACCEPTED);
    }
    let before = *words;
    for (i, part) in bytes.chunks(Record::SIZE).enumerate() {
        if let Err(refusal) = C::step(words, &mut index, part) {
            *words = before; // nothing of the list is kept
            return Err(Refused {
                refusal,
                place: i as u64,
            });
        }
    }
    Ok(())
}
