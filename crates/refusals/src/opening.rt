// Judging an opening: 1, 2 and 52, or the supply.
ghost use Rattle.std.specs.Prelude.{◌+◌, ◌≡◌, ◌≤◌, IfOk, length, true};
ghost use Rattle.answers.specs.Refusals.{refused_by};
ghost use Rattle.ledgers.specs.Limits.{account_limit};
ghost use Rattle.rules.specs.HomeValidator.{home_opening_refusal};
ghost use Rattle.rules.specs.Lists.{total};
ghost use Rattle.rules.specs.PairValidator.{count_allowed, opening_refusal, pair_opening_refusal};

use answers::Refusal;
use places::{Wide, add_balances, is_count_allowed};
use tariffs::Tariff;

// The supply of an opening: the home balances, the number of far accounts, numbers whose total is the far one, and the tariff.
fn opening(homes: &[u64], far_accounts: usize, fars: &[u64], tariff: Tariff) -> Result<u64, Refusal>
    requires { count_allowed far_accounts ≡ true → length fars.now ≤ account_limit }
    ensures refuses { refused_by result ≡ opening_refusal tariff (length homes.now) far_accounts (total homes.now + total fars.now) }
    ensures supplies { IfOk result (λ supply. supply ≡ total homes.now + total fars.now) }
{
    if !is_count_allowed(homes.len()) || !is_count_allowed(far_accounts) {
        return Err(Refusal::AccountCount);
    }
    let zero = Wide::default();
    let home_total = add_balances(homes, 0, homes.len(), zero);
    let supply = add_balances(fars, 0, fars.len(), home_total);
    if supply.high != 0 {
        return Err(Refusal::SupplyTooGreat);
    }
    if !tariff.is_allowed(homes.len() as u64) {
        return Err(Refusal::TariffNotAllowed);
    }
    Ok(supply.low)
}

// Of the pair validator: the balances of each ledger and home's tariff.
#[tactic(auto, using(places::proofs::Openings::count_facts))]
pub fn pair_opening(homes: &[u64], fars: &[u64], tariff: Tariff) -> Result<u64, Refusal>
    ensures refuses { refused_by result ≡ pair_opening_refusal tariff homes.now fars.now }
    ensures supplies { IfOk result (λ supply. supply ≡ total homes.now + total fars.now) }
{
    opening(homes, fars.len(), fars, tariff)
}

// Of the home validator: the home balances, the number of far accounts, the far total and the tariff.
#[tactic(auto, unfolding(rules::specs::Lists::sum))]
pub fn home_opening(
    balances: &[u64],
    fars: usize,
    far_total: u64,
    tariff: Tariff,
) -> Result<u64, Refusal>
    ensures refuses { refused_by result ≡ home_opening_refusal tariff balances.now fars far_total }
    ensures supplies { IfOk result (λ supply. supply ≡ total balances.now + far_total) }
{
    opening(balances, fars, &[far_total], tariff)
}
