// The home validator (document 01: guard), which sees the home ledger alone and never lets more arrive than the far opening total
// and what home has sent: its state, and the calls that makers use. A call takes the state by value and hands it back beside the
// answer; a list copies it once to have it for a refusal, and beside that the words are lent and stored to in place. No call asks
// anything of the state or of the bytes that it is given.
#![tactic(auto)]

pub mod asked; // asked.rt: what a state is asked for: figures, a balance, the places left

ghost use Rattle.std.specs.Prelude.{◌≡◌};
ghost use Rattle.answers.specs.Answers.{answer, answer_of, unless_refused};
ghost use Rattle.home_validator.specs.State.{home_checker, home_opened_state, home_zero_state};
ghost use Rattle.rules.specs.Calls.{call, one, list};
ghost use Rattle.rules.specs.HomeValidator.{home_opening_refusal};

use answers::{Outcome, answer_at};
pub use asked::{balance, figures, places_left};
use home_core::{WORDS, take, take_list};
use tariffs::Tariff;

// The state: the held records, the balances, and the numbers that home_core lays out after them. Words of records at or beyond the count
// are not looked at, and only a passed record writes there.
// Kept: a struct for each validator: it crosses to C by value, which no generic does, and README names its methods.
#[repr(C)]
#[derive(Clone, Copy)]
pub struct HomeValidator {
    pub words: [u64; WORDS],
}

impl HomeValidator {
    // An opening with the home balances, the number of far accounts, the far total and the tariff: 1, 2, 52. Beside a refusal stands the
    // all-zero state, which every call refuses.
    pub fn open(
        balances: &[u64],
        far_accounts: usize,
        far_total: u64,
        tariff: Tariff,
    ) -> Outcome<HomeValidator>
        ensures answers { answer_of result.answer ≡ answer (home_opening_refusal tariff balances.now far_accounts far_total) 0 }
        ensures hands_back { result.state ≡ unless_refused (home_opening_refusal tariff balances.now far_accounts far_total)
            (home_opened_state tariff balances.now far_accounts far_total) home_zero_state }
    {
        let mut words = [0u64; WORDS];
        let judged = home_core::open(balances, far_accounts, far_total, tariff, &mut words);
        Outcome {
            answer: answer_at(judged, 0),
            state: HomeValidator { words },
        }
    }

    // A call with one record: 3, 21, 33, 22, 51 and 23 to 41. A refusal hands back the state as it came.
    pub fn check_record(mut self, bytes: &[u8]) -> Outcome<HomeValidator>
        ensures answers { answer_of result.answer ≡ (call home_checker self (one bytes.now)).answer }
        ensures hands_back { result.state ≡ (call home_checker self (one bytes.now)).state }
    {
        let answer = take(&mut self.words, bytes);
        Outcome {
            answer,
            state: self,
        }
    }

    // A call with a list of records: 3, then of each record 21, 33, 22, 51 and 23 to 41. A refusal has its record's index, and hands
    // back the state as it came.
    pub fn check_list(mut self, bytes: &[u8]) -> Outcome<HomeValidator>
        ensures answers { answer_of result.answer ≡ (call home_checker self (list bytes.now)).answer }
        ensures hands_back { result.state ≡ (call home_checker self (list bytes.now)).state }
    {
        let answer = take_list(&mut self.words, bytes);
        Outcome {
            answer,
            state: self,
        }
    }
}
