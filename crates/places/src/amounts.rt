// What a record of a kind takes from the balances of its ledger and gives to them.
ghost use Rattle.std.specs.Prelude.{◌≤◌, ◌≡◌};
ghost use Rattle.places.specs.Amounts.{charge_by, given_by, payee_by, taken_by};
ghost use Rattle.rules.specs.Rules.{is_receiving};
ghost use Rattle.tariffs.specs.Tariffs.{parts};

use ledgers::Kind;
use tariffs::charge;

// Whether a record comes from the other ledger.
pub fn is_receiving(k: Kind) -> bool
    ensures { result ≡ is_receiving k }
{
    matches!(k, Kind::Receiving(_))
}

// What a record of a kind takes from its ledger, all accounts together.
// Kept: kind and amount, and no Record: debit_by and credit_by, which table::store cites, speak of a kind and an amount.
pub fn taken_by(k: Kind, amount: u64) -> u64
    ensures { result ≡ taken_by k amount }
{
    match k {
        Kind::Local(_) | Kind::Sending(_) => amount, // from its sender
        Kind::Receiving(_) => 0,
    }
}

// What it gives to it.
// Kept: this and taken_by differ in the kind that is 0; one function of a flag would say less.
pub fn given_by(k: Kind, amount: u64) -> u64
    ensures { result ≡ given_by k amount }
{
    match k {
        Kind::Local(_) | Kind::Receiving(_) => amount, // to its receiver
        Kind::Sending(_) => 0,
    }
}

// The charge that it takes from its sender beside that, and gives to the charge account.
// Kept: a number: the rate is read from a state's words at each call, and a type of it would be made there by the same fact.
pub fn charge_by(rate: u64, k: Kind, amount: u64) -> u64
    requires { rate ≤ parts }
    ensures { result ≡ charge_by rate k amount }
{
    if rate == 0 {
        return 0; // whatever the kind is
    }
    match k {
        Kind::Local(_) | Kind::Receiving(_) => 0,
        Kind::Sending(_) => charge(rate, amount),
    }
}

// The account that it gives to: its receiver, or of a sending the charge account.
pub fn payee_by(account: u64, k: Kind, receiver: u16) -> usize
    ensures { result ≡ payee_by account k receiver }
{
    match k {
        Kind::Local(_) | Kind::Receiving(_) => usize::from(receiver),
        Kind::Sending(_) => account as usize,
    }
}
