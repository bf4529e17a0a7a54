// The opening balances of a block, in a list of fixed room.
ghost use Rattle.std.specs.Prelude.{◌≡◌, ◌≤◌, length, take};
ghost use Rattle.journal_blocks.specs.Blocks.{balance_table, stated_count};
ghost use Rattle.ledgers.specs.Limits.{account_limit};

use journal_blocks::stated_count;
use ledgers::Ledger;
use tariffs::Tariff;
use wire::BigEndian;

// A list of opening balances, with room for as many as a ledger has accounts: zeros stand after them.
// Kept: zeros stand after the balances (balance_table; docs/DECISIONS.md, 12), which an ArrayVec or a slice would not keep.
#[derive(Clone, Copy)]
pub struct OpeningBalances {
    pub count: u64,
    pub table: [u64; Ledger::ACCOUNTS],
    pub ghost within: { count ≤ account_limit },
}

impl OpeningBalances {
    // The balances alone.
    pub fn as_slice(&self) -> &[u64]
        ensures { result.now ≡ take self.now.count self.now.table }
    {
        &self.table[..self.count as usize]
    }
}

// What a block opens a ledger with: block 1 carries no tariff, and both its parts are 0 there.
#[derive(Clone, Copy)]
pub struct Opening {
    pub tariff: Tariff,
    pub balances: OpeningBalances,
}

// The opening balances of a judged block.
// Kept: a slice of 512 bytes, since an array would ask more of those who call it.
pub fn judged_balances(block: &[u8]) -> OpeningBalances
    requires { (length block.now ≡ 512) × (stated_count block.now ≤ account_limit) }
    ensures count { result.count ≡ stated_count block.now }
    ensures table { result.table ≡ balance_table block.now }
{
    let count = stated_count(block);
    let mut table = [0; Ledger::ACCOUNTS];
    for i in 0..count as usize {
        table[i] = u64::at(block, 32 + 8 * i);
    }
    OpeningBalances { count, table }
}
