// Accounts and balances: how many accounts a ledger may have, balances that no account has, and balances copied.
ghost use Rattle.std.specs.Prelude.{◌+◌, ◌≤◌, ◌++◌, ◌≡◌, drop, length, take};
ghost use Rattle.places.specs.LedgerBalances.{zeros_at};
ghost use Rattle.rules.specs.PairValidator.{count_allowed};

use ledgers::Ledger;

// Whether a ledger may have n accounts.
pub fn is_count_allowed(n: usize) -> bool
    ensures { result ≡ count_allowed n }
{
    if n == 0 {
        return false;
    }
    n <= Ledger::ACCOUNTS
}

// Whether n balances from a place on are zero, as refusal 3 asks of those that no account has.
// Kept: one all over words, as wire::all_zero is over bytes; a function generic in the number would be longer than both.
// Kept: a start and a count, and no slice: zeros_at, sum_at and funds_at, which refusals 3 and 25 cite, are of places in a state's words.
pub fn are_zero(balances: &[u64], from: usize, n: usize) -> bool
    requires { from + n ≤ length balances.now }
    ensures { result ≡ zeros_at balances.now from n }
{
    balances[from..from + n].iter().all(|b| *b == 0)
}

// The numbers copied to a place of a longer list.
pub fn copy_numbers(xs: &[u64], at: usize, out: &mut [u64])
    requires { at + length xs.now ≤ length out.old }
    ensures { out.new ≡ take at out.old ++ (xs.now
        ++ drop (at + length xs.now) out.old) }
{
    // Kept: one by one: into a lent list, copy_from_slice of no fixed length asks for memmove, beyond docs/DECISIONS.md, 55.
    for (i, x) in xs.iter().enumerate() {
        out[at + i] = *x;
    }
}
