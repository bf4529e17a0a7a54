// What a state of the home validator is asked for: the home total with the far pool, the balance of one account, and the places left.
// All judge the state as every call does (3), alter nothing and hand no state back.
ghost use Rattle.std.specs.Prelude.{◌≡◌};
ghost use Rattle.answers.specs.Balances.{balance_told};
ghost use Rattle.home_core.specs.Layout.{accepts_home};
ghost use Rattle.home_validator.specs.Figures.{figures_told, home_balance_of, home_figures_of, home_places_of, places_told};

use super::HomeValidator;
use answers::{Refusal, balance_among, refuse_if};
use calls::accepts;
use home_core::{BALANCES_WORD, COUNT_WORD, HOME_ACCOUNTS_WORD, HomeCore, POOL_WORD, SUPPLY_WORD};
use ledgers::Ledger;

// The home total and the far pool.
#[derive(Clone, Copy)]
pub struct HomeFigures {
    pub home: u64,
    pub pool: u64,
}

// The home total and the far pool: 3.
pub fn figures(state: HomeValidator) -> Result<HomeFigures, Refusal>
    ensures { figures_told result ≡ home_figures_of (accepts_home state.words) state.words }
{
    refuse_if(
        !accepts::<HomeCore>(&state.words),
        Refusal::StateNotAccepted,
    )?;
    let supply = state.words[SUPPLY_WORD];
    let pool = state.words[POOL_WORD];
    Ok(HomeFigures {
        home: supply - pool,
        pool,
    })
}

// The balance of a home account: 3, then 22 where it is not open.
pub fn balance(state: HomeValidator, account: u16) -> Result<u64, Refusal>
    ensures { balance_told result ≡ home_balance_of (accepts_home state.words) state.words account }
{
    refuse_if(
        !accepts::<HomeCore>(&state.words),
        Refusal::StateNotAccepted, // before 22
    )?;
    let open = state.words[HOME_ACCOUNTS_WORD] as usize;
    balance_among(&state.words[BALANCES_WORD..BALANCES_WORD + open], account)
}

// How many more records the home ledger can hold before 41: 3.
pub fn places_left(state: HomeValidator) -> Result<u64, Refusal>
    ensures { places_told result ≡ home_places_of (accepts_home state.words) state.words }
{
    refuse_if(
        !accepts::<HomeCore>(&state.words), // before any count
        Refusal::StateNotAccepted,
    )?;
    let home = state.words[COUNT_WORD] as usize;
    Ok((Ledger::CAPACITY - home) as u64)
}
