// What home's network takes on each sending that leaves home (document 02, U3): the rate and the account that is paid, which of them an
// opening may have, and the charge on an amount, exact and with no product beyond 64 bits.
#![tactic(auto)]

ghost use Rattle.std.specs.Prelude.{◌≤◌, ◌≡◌};
ghost use Rattle.tariffs.specs.Tariffs.{charge, charge_told, parts, tariff_allowed, told};

use answers::{Refusal, refuse_if};

// The rate, in ten-thousandths of what is sent, and the home account that the charge is paid to.
#[derive(Clone, Copy, PartialEq, Eq)]
pub struct Tariff {
    pub rate: u64,
    pub account: u64,
}

impl Tariff {
    // The ten-thousandths of a whole: the greatest rate.
    pub const PARTS: u64 = 10000;

    // Whether 52 has nothing against it, home having so many accounts.
    #[tactic(auto, unfolding(crate::specs::Tariffs::tariff_allowed, wire::specs::BigEndian::every))]
    pub fn is_allowed(self, accounts: u64) -> bool
        ensures { result ≡ tariff_allowed self accounts }
    {
        self.rate <= Tariff::PARTS && self.account < accounts
    }
}

// The charge on an amount that leaves home.
// Kept: the limit on the rate is a `requires`: docs/PROVED.md names `tariffs::charge`, so it takes no narrower type than a number.
#[tactic(auto, using(crate::proofs::Charges::charge_parts))]
pub fn charge(rate: u64, amount: u64) -> u64
    requires { rate ≤ parts }
    ensures { result ≡ charge rate amount }
{
    let whole = amount / Tariff::PARTS;
    let rest = amount % Tariff::PARTS;
    whole * rate + rest * rate / Tariff::PARTS
}

// The charge on an amount that leaves home, for who shows it before a sending is made: 52 where the rate is above 10,000.
#[tactic(auto, unfolding(crate::specs::Tariffs::charge_told, crate::specs::Tariffs::rate_refusal))]
pub fn tell_charge(rate: u64, amount: u64) -> Result<u64, Refusal>
    ensures { told result ≡ charge_told rate amount }
{
    refuse_if(Tariff::PARTS < rate, Refusal::TariffNotAllowed)?;
    Ok(charge(rate, amount))
}
