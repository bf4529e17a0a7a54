// What a state of the pair validator is asked for: the totals of both ledgers with what is in flight, the balance of one account, and
// the places left. All judge the state as every call does (3), alter nothing and hand no state back.
ghost use Rattle.std.specs.Prelude.{◌≡◌};
ghost use Rattle.answers.specs.Balances.{balance_told};
ghost use Rattle.pair_core.specs.Layout.{accepts_pair};
ghost use Rattle.pair_validator.specs.Figures.{figures_told, pair_figures_of, pair_balance_of, pair_places_of, places_told};

use super::PairValidator;
use answers::{Refusal, balance_among, refuse_if};
use calls::accepts;
use ledgers::Ledger;
use pair_core::{ACCOUNTS_WORD, BALANCES_WORD, COUNTS_WORD, PairCore, SUPPLY_WORD, ledger_index};
use places::{Wide, add_balances};

// The totals of both ledgers and what is in flight.
#[derive(Clone, Copy)]
pub struct PairFigures {
    pub home: u64,
    pub far: u64,
    pub flight: u64,
}

// The totals of both ledgers and what is in flight: 3.
// Kept: words by their constants: pair_core's functions of a ledger's words are its own, and public ones would be three more.
pub fn figures(state: PairValidator) -> Result<PairFigures, Refusal>
    ensures { figures_told result ≡ pair_figures_of (accepts_pair state.words) state.words }
{
    refuse_if(
        !accepts::<PairCore>(&state.words),
        Refusal::StateNotAccepted,
    )?;
    let supply = state.words[SUPPLY_WORD];
    let homes = state.words[ACCOUNTS_WORD] as usize;
    let fars = state.words[ACCOUNTS_WORD + 1] as usize;
    let zero = Wide::default();
    let home = add_balances(&state.words, BALANCES_WORD, homes, zero);
    let far = add_balances(&state.words, BALANCES_WORD + Ledger::ACCOUNTS, fars, zero);
    Ok(PairFigures {
        home: home.low,
        far: far.low,
        flight: supply - home.low - far.low,
    })
}

// The balance of an account of the ledger with a byte: 3, then 22 where there is no such ledger or the account is not open there.
// Kept: the ledger is a byte, as README's balance takes it: 22 answers a byte that is no ledger's (docs/DECISIONS.md, 51).
pub fn balance(state: PairValidator, ledger: u8, account: u16) -> Result<u64, Refusal>
    ensures { balance_told result ≡ pair_balance_of (accepts_pair state.words) state.words ledger account }
{
    refuse_if(
        !accepts::<PairCore>(&state.words),
        Refusal::StateNotAccepted,
    )?;
    let Ok(named) = Ledger::try_from(ledger) else {
        return Err(Refusal::AccountNotOpen);
    };
    let l = ledger_index(named);
    let start = BALANCES_WORD + l * Ledger::ACCOUNTS;
    let open = state.words[ACCOUNTS_WORD + l] as usize;
    balance_among(&state.words[start..start + open], account)
}

// The places left on both ledgers.
#[derive(Clone, Copy)]
pub struct PairPlaces {
    pub home: u64,
    pub far: u64,
}

// How many more records each ledger can hold before 41: 3.
pub fn places_left(state: PairValidator) -> Result<PairPlaces, Refusal>
    ensures { places_told result ≡ pair_places_of (accepts_pair state.words) state.words }
{
    refuse_if(
        !accepts::<PairCore>(&state.words), // and no places
        Refusal::StateNotAccepted,
    )?;
    let home = state.words[COUNTS_WORD] as usize;
    let far = state.words[COUNTS_WORD + 1] as usize;
    Ok(PairPlaces {
        home: (Ledger::CAPACITY - home) as u64,
        far: (Ledger::CAPACITY - far) as u64,
    })
}
