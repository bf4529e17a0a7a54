// Refusals 22, 51 and 23 to 25 of a record, by the accounts of its ledgers and by balances lent as a slice: those of a ledger stand at
// n places from a place `from` on, within the slice.
ghost use Rattle.std.specs.Prelude.{◌+◌, ◌≤◌, ◌≡◌, length};
ghost use Rattle.answers.specs.Refusals.{refused_by};
ghost use Rattle.places.specs.LedgerBalances.{balance_at, first_by, funds_at};
ghost use Rattle.tariffs.specs.Tariffs.{parts};

use answers::{Refusal, refuse_if};
use places::{charge_by, taken_by};
use records::Record;

// 22 by the accounts of the sender's ledger, 51 by those of the receiver's, 23, 24 where the number is used in its class, then the later
// refusals.
#[tactic(auto, unfolding(places::specs::LedgerBalances::first_by))]
pub fn first_refusals(
    senders: usize,
    receivers: usize,
    r: Record,
    is_used: bool,
    later: Result<(), Refusal>,
) -> Result<(), Refusal>
    ensures { refused_by result ≡ first_by senders receivers r is_used (refused_by later) }
{
    let no_sender = senders <= usize::from(r.sender);
    let no_receiver = receivers <= usize::from(r.receiver);
    refuse_if(no_sender, Refusal::AccountNotOpen)?;
    refuse_if(no_receiver, Refusal::ReceiverNotOpen)?;
    refuse_if(!r.verified, Refusal::Unverified)?;
    refuse_if(is_used, Refusal::NumberUsed)?;
    later
}

// The balance of an account, or 0 where there is no such account.
// Kept: a start and a count, and no slice: zeros_at, sum_at and funds_at, which refusals 3 and 25 cite, are of places in a state's words.
#[tactic(auto, unfolding(places::specs::LedgerBalances::balance_at))]
fn balance_at(balances: &[u64], from: usize, n: usize, i: u16) -> u64
    requires { from + n ≤ length balances.now }
    ensures { result ≡ balance_at balances.now from n i }
{
    balances[from..from + n]
        .get(usize::from(i))
        .copied()
        .unwrap_or(0)
}

// 25, with the rate of the ledger: a sending's charge is needed beside its amount.
// Kept: a start and a count, and no slice: zeros_at, sum_at and funds_at, which refusals 3 and 25 cite, are of places in a state's words.
// Kept: a number: the rate is read from a state's words at each call, and a type of it would be made there by the same fact.
#[tactic(auto, unfolding(places::specs::LedgerBalances::funds_at))]
pub fn funds_refusal(
    balances: &[u64],
    from: usize,
    n: usize,
    rate: u64,
    r: Record,
) -> Result<(), Refusal>
    requires { (from + n ≤ length balances.now) × (rate ≤ parts) }
    ensures { refused_by result ≡ funds_at balances.now from n rate r }
{
    let kind = r.kind;
    let balance = balance_at(balances, from, n, r.sender);
    let rest = balance
        .checked_sub(taken_by(kind, r.amount))
        .ok_or(Refusal::FundsTooLow)?;
    refuse_if(rest < charge_by(rate, kind, r.amount), Refusal::FundsTooLow)
}
