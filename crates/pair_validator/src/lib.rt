// The pair validator (document 01: pair book), which sees the records of both ledgers in one order: its state, and the calls that
// makers use. A call takes the state by value and hands it back beside the answer; a list copies it once to have it for a
// refusal, and beside that the words are lent and stored to in place. No call asks anything of the state or of the bytes that
// it is given.
#![tactic(auto)]

pub mod asked; // asked.rt: what a state is asked for: figures, a balance, the places left

ghost use Rattle.std.specs.Prelude.{◌≡◌};
ghost use Rattle.answers.specs.Answers.{answer, answer_of, unless_refused};
ghost use Rattle.pair_validator.specs.State.{pair_checker, pair_opened_state, pair_zero_state};
ghost use Rattle.rules.specs.Calls.{call, one, list};
ghost use Rattle.rules.specs.PairValidator.{pair_opening_refusal};

use answers::{Outcome, answer_at};
pub use asked::{balance, figures, places_left};
use pair_core::{WORDS, take, take_list};
use tariffs::Tariff;

// The state, in the layout of pair_core. Words of records at or beyond a ledger's count are not looked at, and only a passed record
// writes there.
// Kept: a struct for each validator: it crosses to C by value, which no generic does, and README names its methods.
#[repr(C)]
#[derive(Clone, Copy)]
pub struct PairValidator {
    pub words: [u64; WORDS],
}

impl PairValidator {
    // An opening with the balances of each ledger and home's tariff: 1, 2, 52. Beside a refusal stands the all-zero state, which every call
    // refuses.
    pub fn open<'a>(homes: &'a [u64], fars: &'a [u64], tariff: Tariff) -> Outcome<PairValidator>
        ensures answers { answer_of result.answer ≡ answer (pair_opening_refusal tariff homes.now fars.now) 0 }
        ensures hands_back { result.state ≡ unless_refused (pair_opening_refusal tariff homes.now fars.now)
            (pair_opened_state tariff homes.now fars.now) pair_zero_state }
    {
        let mut words = [0u64; WORDS];
        let judged = pair_core::open(homes, fars, tariff, &mut words);
        Outcome {
            answer: answer_at(judged, 0),
            state: PairValidator { words },
        }
    }

    // A call with one record: 3, 21, 22, 51 and 23 to 41. A refusal hands back the state as it came.
    pub fn check_record(mut self, bytes: &[u8]) -> Outcome<PairValidator>
        ensures answers { answer_of result.answer ≡ (call pair_checker self (one bytes.now)).answer }
        ensures hands_back { result.state ≡ (call pair_checker self (one bytes.now)).state }
    {
        let answer = take(&mut self.words, bytes);
        Outcome {
            answer,
            state: self,
        }
    }

    // A call with a list of records: 3, then of each record 21, 22, 51 and 23 to 41. A refusal has its record's index, and hands
    // back the state as it came.
    pub fn check_list(mut self, bytes: &[u8]) -> Outcome<PairValidator>
        ensures answers { answer_of result.answer ≡ (call pair_checker self (list bytes.now)).answer }
        ensures hands_back { result.state ≡ (call pair_checker self (list bytes.now)).state }
    {
        let answer = take_list(&mut self.words, bytes);
        Outcome {
            answer,
            state: self,
        }
    }
}
