// The balance of one account among the balances of a ledger.
ghost use Rattle.std.specs.Prelude.{◌≡◌};
ghost use Rattle.answers.specs.Balances.{balance_among, balance_told};

use super::Refusal;

// The balance of an account of a ledger with these balances: 22 where it is not one of them.
#[tactic(auto, unfolding(crate::specs::Balances::balance_among))]
pub fn balance_among(balances: &[u64], account: u16) -> Result<u64, Refusal>
    ensures { balance_told result ≡ balance_among balances.now account }
{
    balances
        .get(usize::from(account))
        .copied()
        .ok_or(Refusal::AccountNotOpen)
}
